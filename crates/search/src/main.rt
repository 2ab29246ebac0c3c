// search HEIGHT [SIZE]: reads rules.sx, goal.sx and terms.sx in the present directory, searches the first strip within HEIGHT and of at most SIZE bytes, leaves it in strip.sx
// and prints one line (document 01, "What comes back"). Refused, it leaves strip.sx as it was.
#![tactic(auto)]

ghost use Rattle.std.specs.Prelude.{◌≤◌, IfSome};
ghost use Rattle.search.specs.Sized.{Sized};

use programs::{RefusalNumbers, argument_count, filled, give_name, loaded, put_aside};
use proposal::Proposal;
use std::io;

// What cannot be printed is left out, here and below.
fn usage(rt: &HostRuntime) {
    let _ = eprintln!(rt; "usage: search HEIGHT [SIZE], two decimal numbers, SIZE at most 16384");
}

// The number that the program is given as its argument i. What is no decimal number of at most 4,096 digits is nothing.
fn argument(rt: &HostRuntime, i: usize) -> Option<usize> {
    let mut word = [0u8; 4096];
    let n = programs::argument(rt, i, &mut word);
    programs::number(&word[..n])
}

// The buffer's size: the second argument, or as much as a strip may have.
fn size(rt: &HostRuntime, count: usize) -> Option<usize>
    ensures { Sized result }
{
    if count < 3 {
        return Some(16384);
    }
    let n = argument(rt, 2)?;
    if n <= 16384 { Some(n) } else { None }
}

// The height and the size that the program is given.
fn asked(rt: &HostRuntime) -> Option<(usize, usize)>
    ensures { IfSome result (λ a. a.1 ≤ 16384) }
{
    let count = argument_count(rt);
    if count < 2 || 3 < count {
        return None;
    }
    let height = argument(rt, 1)?;
    let size = size(rt, count)?;
    Some((height, size))
}

// Leaves the strip in strip.sx. Whether that was done; if not, a line on standard error says why.
fn save(rt: &HostRuntime, strip: &[u8]) -> bool {
    let err = rt.stderr();
    put_aside(rt, &err, b"strip.sx.new", b"search: strip.sx.new", strip)
        && give_name(rt, &err, b"strip.sx.new", b"strip.sx", b"search: strip.sx")
}

// Searches, leaves the strip that is found, and prints the answer.
fn answer(
    rt: &HostRuntime,
    rules: &[u8],
    goal: &[u8],
    terms: &[u8],
    height: usize,
    strip: &mut [u8],
) {
    let mut room = [0u32; 8192];
    let _ = match propose::propose(rules, goal, terms, height, strip, &mut room) {
        Proposal::Found {
            height,
            nodes,
            length,
        } => {
            if !save(rt, &strip[..length]) {
                return;
            }
            println!(rt; "found {height} {nodes} {length}")
        }
        Proposal::Refused {
            reason,
            file,
            place,
        } => rt.println(RefusalNumbers::new(reason, file, place)),
    };
}

// The same for the files of the present directory and a buffer of so many bytes.
fn run(rt: &HostRuntime, height: usize, size: usize) -> io::Result<()>
    requires { size ≤ 16384 }
{
    let mut rules = [0u8; 16385];
    let mut goal = [0u8; 16385];
    let mut terms = [0u8; 16385];
    let mut strip: [u8; 16384] = filled(0);
    let rules = loaded(rt, b"rules.sx", &mut rules)?;
    let goal = loaded(rt, b"goal.sx", &mut goal)?;
    let terms = loaded(rt, b"terms.sx", &mut terms)?;
    answer(rt, rules, goal, terms, height, &mut strip[..size]);
    Ok(())
}

fn main(rt: HostRuntime) -> io::Result<()> {
    let Some((height, size)) = asked(&rt) else {
        usage(&rt);
        return Ok(());
    };
    run(&rt, height, size)
}
