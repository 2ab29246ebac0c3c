// Searches for every case of five files of search cases (second/README.md: rules, goal, terms, height and size, each a string) and prints one line for each; for those of the last
// file, whose names the search's numbers do not tell apart (docs/LANDINGS.md, Three), in rooms of three lengths. What is found is judged as well; a line says more than is expected if
// it is not accepted, with the same height and nodes, or if the room is not zero afterwards. The cases and the lines that are expected come from the second program alone.
#![tactic(auto)]

ghost use Rattle.std.specs.Prelude.{◌<◌, length};

use judge::Verdict;
use programs::{RefusalNumbers, filled, loaded, number, say, split_string};
use proposal::Proposal;
use std::io;
use std::rt::Files;

// Whether the checker accepts a strip with this height and these nodes.
// Kept: height and nodes are numbers that the search gave, and end no slice.
fn accepted(
    rules: &[u8],
    goal: &[u8],
    terms: &[u8],
    strip: &[u8],
    high: usize,
    many: usize,
) -> bool {
    let mut room = [0u32; 8192];
    match judge::judge(rules, goal, terms, strip, &mut room) {
        Verdict::Accepted { height, nodes } => height == high && nodes == many,
        Verdict::Refused { .. } => false,
    }
}

// Prints the strip that was found, and more if it is not accepted. What cannot be printed is left out, here and below.
fn found(
    out: &impl Print,
    rules: &[u8],
    goal: &[u8],
    terms: &[u8],
    strip: &[u8],
    height: usize,
    nodes: usize,
) {
    let length = strip.len();
    let _ = print!(out; "found {height} {nodes} {length} ");
    say(out, strip);
    if !accepted(rules, goal, terms, strip, height, nodes) {
        say(out, b" which is not accepted");
    }
}

// Searches with a buffer in a room, and prints the answer, and more if the room is not zero afterwards, as a search leaves it.
fn searched(
    out: &impl Print,
    rules: &[u8],
    goal: &[u8],
    terms: &[u8],
    height: usize,
    strip: &mut [u8],
    room: &mut [u32],
) {
    match propose::propose(rules, goal, terms, height, strip, room) {
        Proposal::Found {
            height,
            nodes,
            length,
        } => found(out, rules, goal, terms, &strip[..length], height, nodes),
        Proposal::Refused {
            reason,
            file,
            place,
        } => {
            let _ = out.print(RefusalNumbers::new(reason, file, place));
        }
    }
    if !room.iter().all(|word| *word == 0) {
        say(out, b" and leaves a room that is not zero");
    }
    say(out, b"\n");
}

// The same where height and size are given as words.
fn asked(
    out: &impl Print,
    rules: &[u8],
    goal: &[u8],
    terms: &[u8],
    height: &[u8],
    size: &[u8],
    room: &mut [u32],
) {
    let Some(height) = number(height) else {
        say(out, b"no height\n");
        return;
    };
    let Some(size) = number(size) else {
        say(out, b"no size\n");
        return;
    };
    let mut strip: [u8; 20000] = filled(0);
    if strip.len() < size {
        say(out, b"too large a size\n");
        return;
    }
    searched(out, rules, goal, terms, height, &mut strip[..size], room);
}

// Searches for the case that a file begins with, and answers what comes after it.
fn case<'a>(out: &impl Print, file: &'a [u8], room: &mut [u32]) -> &'a [u8]
    requires { 0 < length file.now }
    ensures { length result.now < length file.now }
{
    let (rules, rest) = split_string(file);
    let (goal, rest) = split_string(rest);
    let (terms, rest) = split_string(rest);
    let (height, rest) = split_string(rest);
    let (size, rest) = split_string(rest);
    asked(out, rules, goal, terms, height, size, room);
    rest
}

// Searches for all cases of a file in one room.
// Kept: each turn takes a whole case off the front of the file.
fn cases(out: &impl Print, file: &[u8], room: &mut [u32]) {
    let mut rest = file;
    while !rest.is_empty() {
        rest = case(out, rest, room);
    }
}

// Searches for all cases of a file that is named.
fn part(
    rt: &(impl Files + Print),
    name: &[u8],
    buf: &mut [u8],
    room: &mut [u32],
) -> io::Result<()> {
    cases(rt, loaded(rt, name, buf)?, room);
    Ok(())
}

fn main(rt: HostRuntime) -> io::Result<()> {
    let mut buf: [u8; 393216] = filled(0);
    // The least room, one of a word more, and a long one.
    let mut least = [0u32; 8192];
    let mut one_more = [0u32; 8193];
    let mut long = [0u32; 100000];
    let names: [&[u8]; 5] = [b"cases1", b"cases2", b"cases3", b"cases4", b"cases5"];
    for name in names {
        part(&rt, name, &mut buf, &mut least)?;
    }
    part(&rt, b"cases5", &mut buf, &mut one_more)?;
    part(&rt, b"cases5", &mut buf, &mut long)
}
