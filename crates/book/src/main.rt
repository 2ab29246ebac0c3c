// book [FILE]: reads a rule book in TPTP, FILE or else book.p, leaves its axioms in rules.sx and its conjecture in goal.sx of the present directory, and prints one line
// (document 02, One). Refused, it leaves both files as they were.
#![tactic(auto)]

use programs::{RefusalNumbers, argument, argument_count, give_name, loaded, put_aside};
use std::{fs, io};
use tptp::{Refusal, Written};

// What cannot be printed is left out, here and below.
fn usage(rt: &HostRuntime) {
    let _ = eprintln!(rt; "usage: book [FILE], a name of at most 4095 bytes");
}

// Makes both files under other names. Whether that was done; if not, a line on standard error says why, and neither is there.
fn both_aside(rt: &HostRuntime, rules: &[u8], goal: &[u8]) -> bool {
    let err = rt.stderr();
    if !put_aside(rt, &err, b"rules.sx.new", b"book: rules.sx.new", rules) {
        return false;
    }
    if !put_aside(rt, &err, b"goal.sx.new", b"book: goal.sx.new", goal) {
        let _ = fs::remove_file(rt, "rules.sx.new");
        return false;
    }
    true
}

// Leaves the rules in rules.sx and the goal in goal.sx; no file gets its name before both are whole. Whether that was done; if not, a line on standard error says why.
fn save(rt: &HostRuntime, rules: &[u8], goal: &[u8]) -> bool {
    let err = rt.stderr();
    if !both_aside(rt, rules, goal) {
        return false;
    }
    if !give_name(rt, &err, b"rules.sx.new", b"rules.sx", b"book: rules.sx") {
        let _ = fs::remove_file(rt, "goal.sx.new");
        return false;
    }
    give_name(rt, &err, b"goal.sx.new", b"goal.sx", b"book: goal.sx")
}

// Reads the book, leaves the two files, and prints the answer.
fn answer(rt: &HostRuntime, text: &[u8], rules: &mut [u8], goal: &mut [u8]) {
    let _ = match tptp::tptp(text, rules, goal) {
        Ok(Written { rules: r, goal: g }) => {
            if !save(rt, &rules[..r], &goal[..g]) {
                return;
            }
            println!(rt; "written {r} {g}")
        }
        Err(
            Refusal {
                reason,
                file,
                place,
            },
        ) => rt.println(RefusalNumbers {
            reason,
            file,
            place,
        }),
    };
}

// The same for a file, with bytes for as much as rules and goal may have.
fn convert(rt: &HostRuntime, path: &[u8]) -> io::Result<()> {
    let mut text = [0u8; 16385];
    let mut rules = [0u8; 16384];
    let mut goal = [0u8; 16384];
    let text = loaded(rt, path, &mut text)?;
    answer(rt, text, &mut rules, &mut goal);
    Ok(())
}

fn main(rt: HostRuntime) -> io::Result<()> {
    let count = argument_count(&rt);
    if count < 2 {
        return convert(&rt, b"book.p");
    }
    let mut word = [0u8; 4095];
    let n = argument(&rt, 1, &mut word);
    if 2 < count || n == 0 {
        usage(&rt);
        return Ok(());
    }
    convert(&rt, &word[..n])
}
