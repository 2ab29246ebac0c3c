// The arguments of the atom at a spot in one word: ten bits for each, the first lowest.
// Kept: files, room and spot stay parameters of their own; a struct of them would be made for these three functions alone.
ghost use Rattle.arguments.specs.Arguments.{NumberAt, ArgumentsFrom, ArgumentsAt};

use held::holds;
use places::further;
use room::{Files, Spot};
use sexp::{closes, past};
use unset::{candidate_at, is_variable};

// Kept: a number of the ten bits that a word of the room holds of an argument; an enum would only be turned into them and back.
// The number of the argument at a spot: 1021 for variable v, one more than the lowest candidate that is the term, 1023 where none is, and 1022 where an unset variable is held and nothing is said.
fn number_at(files: &Files, room: &[u32], x: Spot, own: usize, v: usize) -> u32
    ensures { NumberAt files.now room.now x own v result }
{
    let s = files.part(x);
    if is_variable(s, 0, v) {
        return 1021;
    }
    if holds(s, 0, 0, 64, room, x, own, false, 0) {
        return 1022;
    }
    match candidate_at(files, room, x) {
        None => 1023,
        Some(c) => { if c < 1020 { c + 1 } else { 1022 } }
    }
}

// The numbers of the arguments of the atom at a spot from an offset on, up to the closing parenthesis, where they are no more than `most`.
fn arguments_from(
    files: &Files,
    room: &[u32],
    x: Spot,
    p: usize,
    own: usize,
    v: usize,
    most: usize,
) -> Option<u32>
    ensures { ArgumentsFrom files.now room.now x p own v result }
{
    let s = files.part(x);
    if closes(s, p) {
        return Some(0);
    }
    if most == 0 {
        return None;
    }
    let n = past(s, p, 64)?;
    let rest = arguments_from(files, room, x, n, own, v, most - 1)?;
    if 1048576 <= rest {
        return None;
    }
    let k = number_at(files, room, further(x, p), own, v);
    if k < 1024 {
        Some(k + rest * 1024)
    } else {
        None
    }
}

// The numbers of the arguments of the atom at a spot; 0 where it has none, or more than three.
pub fn arguments_of(files: &Files, room: &[u32], x: Spot, own: usize, v: usize) -> u32
    ensures { ArgumentsAt files.now room.now x own v result }
{
    let Some(n) = past(files.part(x), 7, 0) else {
        return 0;
    };
    arguments_from(files, room, x, n, own, v, 3).unwrap_or(0)
}
