// Reads rules.sx, goal.sx, terms.sx and strip.sx in the present directory, judges them, and prints one line (document 01, "What comes back").
#![tactic(auto)]

use judge::Verdict;
use programs::{RefusalNumbers, loaded};
use std::io;

// What cannot be printed is left out.
// Kept: an `impl Display` of the verdict would stand in crate `judge`, which prints nothing.
fn show(out: &impl Print, v: Verdict) {
    let _ = match v {
        Verdict::Accepted { height, nodes } => println!(out; "accepted {height} {nodes}"),
        Verdict::Refused {
            reason,
            file,
            place,
        } => out.println(RefusalNumbers::new(reason, file, place)),
    };
}

fn main(rt: HostRuntime) -> io::Result<()> {
    let mut rules = [0u8; 16385];
    let mut goal = [0u8; 16385];
    let mut terms = [0u8; 16385];
    let mut strip = [0u8; 16385];
    let mut room = [0u32; 8192];
    let rules = loaded(&rt, b"rules.sx", &mut rules)?;
    let goal = loaded(&rt, b"goal.sx", &mut goal)?;
    let terms = loaded(&rt, b"terms.sx", &mut terms)?;
    let strip = loaded(&rt, b"strip.sx", &mut strip)?;
    show(&rt, judge::judge(rules, goal, terms, strip, &mut room));
    Ok(())
}
