// Reads every book of four files of TPTP cases (second/README.md: a text, and the sizes of the buffers for rules and goal, each a string) and prints one line for each. A line says
// more than is expected if a buffer is not as it came past what was written. The cases and the lines that are expected come from the second program alone.
#![tactic(auto)]

ghost use Rattle.std.specs.Prelude.{◌<◌, length};

use programs::{RefusalNumbers, filled, loaded, number, say, split_string};
use std::io;
use tptp::{Refusal, Written};

// Says more if a buffer does not hold what it held, from an offset on. What cannot be printed is left out, here and below.
fn kept(out: &impl Print, buf: &[u8], from: usize) {
    if buf.iter().skip(from).any(|b| *b != 35) {
        say(out, b" which is more than it tells");
    }
}

// Prints the two files.
fn written(out: &impl Print, rules: &[u8], goal: &[u8]) {
    let (r, g) = (rules.len(), goal.len());
    let _ = print!(out; "written {r} {g} ");
    say(out, rules);
    say(out, b" ");
    say(out, goal);
}

// Reads a book with two buffers, and prints the answer.
fn read(out: &impl Print, text: &[u8], rules: &mut [u8], goal: &mut [u8]) {
    match tptp::tptp(text, rules, goal) {
        Ok(Written { rules: r, goal: g }) => {
            written(out, &rules[..r], &goal[..g]);
            kept(out, rules, r);
            kept(out, goal, g);
        }
        Err(
            Refusal {
                reason,
                file,
                place,
            },
        ) => {
            let _ = out.print(RefusalNumbers {
                reason,
                file,
                place,
            });
            kept(out, rules, 0);
            kept(out, goal, 0);
        }
    }
    say(out, b"\n");
}

// The same where the sizes are given as words. No text has a byte as those that the buffers are filled with.
fn asked(out: &impl Print, text: &[u8], rules: &[u8], goal: &[u8]) {
    let (Some(r), Some(g)) = (number(rules), number(goal)) else {
        say(out, b"no size\n");
        return;
    };
    let mut rules: [u8; 20000] = filled(35);
    let mut goal: [u8; 20000] = filled(35);
    if rules.len() < r || goal.len() < g {
        say(out, b"too large a size\n");
        return;
    }
    read(out, text, &mut rules[..r], &mut goal[..g]);
}

// Reads the case that a file begins with, and answers what comes after it.
fn case<'a>(out: &impl Print, file: &'a [u8]) -> &'a [u8]
    requires { 0 < length file.now }
    ensures { length result.now < length file.now }
{
    let (text, rest) = split_string(file);
    let (rules, rest) = split_string(rest);
    let (goal, rest) = split_string(rest);
    asked(out, text, rules, goal);
    rest
}

// Kept: programs are crates of their own and no crate that they share knows this one's kind of case.
fn cases(out: &impl Print, file: &[u8]) {
    let mut rest = file;
    while !rest.is_empty() {
        rest = case(out, rest);
    }
}

// Kept: each program has its own `main`, its own files and its own size of buffer.
fn main(rt: HostRuntime) -> io::Result<()> {
    let mut buf: [u8; 491520] = filled(0);
    let names: [&[u8]; 4] = [b"cases1", b"cases2", b"cases3", b"cases4"];
    for name in names {
        cases(&rt, loaded(&rt, name, &mut buf)?);
    }
    Ok(())
}
