// Reads every packet of two files of packet cases (second/README.md: how many files are read, and four files, each a string) and prints one line for each. The
// cases and the lines that are expected come from the second program alone.
#![tactic(auto)]

ghost use Rattle.std.specs.Prelude.{◌<◌, length};

use programs::{RefusalNumbers, filled, loaded, split_string};
use reader::{Counts, Refusal};
use std::io;

// What cannot be printed is left out.
// Kept: the answer of a packet that is read has no printed form but in this program.
fn show(out: &impl Print, answer: Result<Counts, Refusal>) {
    let _ = match answer {
        Ok(Counts { rules, candidates }) => println!(out; "sound {rules} {candidates}"),
        Err(
            Refusal {
                reason,
                file,
                place,
            },
        ) => out.println(RefusalNumbers::new(reason, file, place)),
    };
}

// Reads the four files of a case, or three, and shows the answer.
fn packet(out: &impl Print, how: &[u8], rules: &[u8], goal: &[u8], terms: &[u8], strip: &[u8]) {
    if how == b"3".as_slice() {
        show(out, reader::read_books(rules, goal, terms));
    } else {
        show(out, reader::read_packet(rules, goal, terms, strip));
    }
}

// Reads the case that a file begins with, and answers what comes after it.
fn case<'a>(out: &impl Print, file: &'a [u8]) -> &'a [u8]
    requires { 0 < length file.now }
    ensures { length result.now < length file.now }
{
    let (how, rest) = split_string(file);
    let (rules, rest) = split_string(rest);
    let (goal, rest) = split_string(rest);
    let (terms, rest) = split_string(rest);
    let (strip, rest) = split_string(rest);
    packet(out, how, rules, goal, terms, strip);
    rest
}

// Kept: the loop is each case program's own, since what a case is differs; a function of it would take that as a closure and say no less.
fn cases(out: &impl Print, file: &[u8]) {
    let mut rest = file;
    while !rest.is_empty() {
        rest = case(out, rest);
    }
}

// Kept: each of these programs reads a file of its own.
fn main(rt: HostRuntime) -> io::Result<()> {
    let mut room: [u8; 655360] = filled(0);
    let names: [&[u8]; 2] = [b"cases1", b"cases2"];
    for name in names {
        cases(&rt, loaded(&rt, name, &mut room)?);
    }
    Ok(())
}
