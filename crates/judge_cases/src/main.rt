// Judges every packet of four files of judge cases (second/README.md: four files, each a string) and prints one line for each. The cases and the lines that are
// expected come from the second program alone.
#![tactic(auto)]

ghost use Rattle.std.specs.Prelude.{◌<◌, length};

use judge::Verdict;
use programs::{RefusalNumbers, filled, loaded, split_string};
use std::io;

// What cannot be printed is left out.
// Kept: program `verdict` prints a verdict by the same words; crate `programs`, which both use, stands below the verdict's type.
fn show(out: &impl Print, v: Verdict) {
    let _ = match v {
        Verdict::Accepted { height, nodes } => println!(out; "accepted {height} {nodes}"),
        Verdict::Refused {
            reason,
            file,
            place,
        } => out.println(RefusalNumbers::new(reason, file, place)),
    };
}

// Judges one packet with a room of its own.
fn judged(out: &impl Print, rules: &[u8], goal: &[u8], terms: &[u8], strip: &[u8]) {
    let mut room = [0u32; 8192];
    show(out, judge::judge(rules, goal, terms, strip, &mut room));
}

// Judges the case that a file begins with, and answers what comes after it.
fn case<'a>(out: &impl Print, file: &'a [u8]) -> &'a [u8]
    requires { 0 < length file.now }
    ensures { length result.now < length file.now }
{
    let (rules, rest) = split_string(file);
    let (goal, rest) = split_string(rest);
    let (terms, rest) = split_string(rest);
    let (strip, rest) = split_string(rest);
    judged(out, rules, goal, terms, strip);
    rest
}

// Kept: the loop is each case program's own, since what a case is differs; a function of it would take that as a closure and say no less.
fn cases(out: &impl Print, file: &[u8]) {
    let mut rest = file;
    while !rest.is_empty() {
        rest = case(out, rest);
    }
}

// Kept: each of these programs reads a file of its own.
fn main(rt: HostRuntime) -> io::Result<()> {
    let mut buf: [u8; 393216] = filled(0);
    let names: [&[u8]; 4] = [b"cases1", b"cases2", b"cases3", b"cases4"];
    for name in names {
        cases(&rt, loaded(&rt, name, &mut buf)?);
    }
    Ok(())
}
