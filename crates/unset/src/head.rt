// A head beside an atom, where the head's frame is not all set: whether it may still become the atom, and which candidate the atom forces on one of its variables.
// An argument of the head that holds an unset variable decides nothing; any other is compared as it stands.
// Kept: files, room and spot stay parameters of their own; the spots are others at each call, and a struct of them would be made anew there.
ghost use Rattle.std.specs.Prelude.{◌≡◌, get_or};
ghost use Rattle.unset.specs.Unset.{MayBe, Forces};
ghost use Rattle.unset.specs.Head.{Comparing, DiffersAt, candidate_spot, IsCandidate, LowestAt, BoundTo, CandidateAt, OpenAt, VariableAt};

use crate::beside::beside;
use crate::{Forced, Likeness};
use equal::same_terms;
use harrop::Binding;
use held::{holds, is_open};
use keys::{next_candidate, term_key};
use places::{further, plus};
use room::{Files, Source, Spot, variable, word};
use sexp::{closes, is_word, number, past, same_text};

// The term at the first spot beside the term at the second: while it holds an unset variable that is open.
pub fn compare(files: &Files, room: &[u32], x: Spot, y: Spot, own: usize) -> Likeness
    ensures { Comparing files.now room.now x y own result }
{
    let s = files.part(x);
    if holds(s, 0, 0, 64, room, x, own, false, 0) {
        return Likeness::Open;
    }
    if same_terms(files, room, x, y, 128) {
        return Likeness::Same;
    }
    Likeness::Never
}

// Whether the term at the first spot differs for good from the term at the second.
fn differs(files: &Files, room: &[u32], x: Spot, y: Spot, own: usize) -> bool
    ensures { DiffersAt files.now room.now x y own result }
{
    matches!(compare(files, room, x, y, own), Likeness::Never)
}

// Whether the head at the first spot may still become the atom at the second.
pub fn may_be(files: &Files, room: &[u32], x: Spot, y: Spot, own: usize) -> bool
    ensures { MayBe files.now room.now x y own result }
{
    let s = files.part(x);
    let t = files.part(y);
    if !same_text(s, 7, t, 7) {
        return false;
    }
    let Some(n) = past(s, 7, 0) else {
        return true;
    };
    let mut p = n;
    let mut q = n;
    // Kept: two parts are walked side by side, by the offsets that `past` gives; they are no indices that count.
    while !closes(s, p) {
        if closes(t, q) {
            return false;
        }
        if differs(files, room, further(x, p), further(y, q), own) {
            return false;
        }
        let Some(m) = past(s, p, 64) else {
            return true;
        };
        let Some(k) = past(t, q, 64) else {
            return true;
        };
        p = m;
        q = k;
    }
    closes(t, q)
}

// Where candidate i stands.
fn candidate_spot(room: &[u32], i: u32) -> Spot
    ensures { result ≡ candidate_spot room.now i }
{
    let at = word(room, 258 + i as usize) as usize;
    Spot {
        source: Source::Terms,
        at: at,
        base: 0,
        count: 0,
    }
}

// Whether candidate i is the term at a spot.
fn is_candidate(files: &Files, room: &[u32], y: Spot, i: u32) -> bool
    ensures { IsCandidate files.now room.now y i result }
{
    same_terms(files, room, candidate_spot(room, i), y, 128)
}

// The lowest of the first n candidates that is the term at a spot that has this number. A candidate with another number is another term, so it is not looked at.
fn lowest(files: &Files, room: &[u32], y: Spot, key: u32, n: u32) -> Option<u32>
    ensures { LowestAt files.now room.now y key n result }
{
    // Kept: the next one is what a chain of the room says, not the next number.
    let mut i = next_candidate(room, key, 0, n);
    while i < n {
        if is_candidate(files, room, y, i) {
            return Some(i);
        }
        i = next_candidate(room, key, i + 1, n);
    }
    None
}

// The candidate that the variable at a spot is bound to.
fn bound_to(files: &Files, room: &[u32], y: Spot) -> Option<u32>
    ensures { BoundTo files.now room.now y result }
{
    let t = files.part(y);
    if !is_word(t, 1, b"v") {
        return None;
    }
    let j = number(t, 4)?;
    match variable(room, y.base, y.count, j) {
        Binding::Candidate(c) => Some(c),
        Binding::Parameter(_) => None,
    }
}

// The lowest candidate that is the term at a spot. If that is a variable bound to a candidate, only those before the candidate are asked.
pub fn candidate_at(files: &Files, room: &[u32], y: Spot) -> Option<u32>
    ensures { CandidateAt files.now room.now y result }
{
    let n = word(room, 257);
    if let Some(c) = bound_to(files, room, y) {
        if c < n {
            let key = word(room, 3456 + c as usize);
            return Some(lowest(files, room, y, key, c).unwrap_or(c));
        }
    }
    lowest(files, room, y, term_key(files, room, y), n)
}

// The variable at a spot, if it is one of the first `own` of the frame and unset.
pub fn open_at(files: &Files, room: &[u32], x: Spot, own: usize) -> Option<usize>
    ensures { OpenAt files.now room.now x own result }
{
    let s = files.part(x);
    if !is_word(s, 1, b"v") {
        return None;
    }
    let v = number(s, 4)?;
    if is_open(room, x, own, v) {
        Some(v)
    } else {
        None
    }
}

// Whether variable v stands at an offset.
pub fn is_variable(s: &[u8], at: usize, v: usize) -> bool
    ensures { VariableAt s.now at v result }
{
    if !is_word(s, plus(at, 1), b"v") {
        return false;
    }
    number(s, plus(at, 4)) == Some(v)
}

// What the atom at the second spot forces on variable v of the head at the first, by the first argument of the head that is the variable.
pub fn forced_by(files: &Files, room: &[u32], x: Spot, y: Spot, v: usize) -> Forced
    ensures { Forces files.now room.now x y v result }
{
    let Some(q) = beside(files, x, y, v) else {
        return Forced::Nothing;
    };
    match candidate_at(files, room, further(y, q)) {
        Some(c) => Forced::Candidate(c),
        None => Forced::Never,
    }
}
