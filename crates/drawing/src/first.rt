// The first option that has a proof, by number: a candidate for a `some`, a clause for an atom, a candidate on the way into a clause (document 01, "Which strip the search writes").
// Each is asked of crate provable in order, and none after the first that does; where a search has left the numbers of a path in the room they are read there, and a clause that the table has kept for an atom is not asked for again.
// Kept: files, room and place stay parameters of their own, as the search has them. A struct of them would be made for these calls alone, and its clauses would name the room before and after all the same.
ghost use Rattle.std.specs.Prelude.{◌≡◌, MatchOption, ⊤};
ghost use Rattle.proving.specs.First.{number_of};
ghost use Rattle.proving.specs.Filling.{LocatingAt};
ghost use Rattle.drawing.specs.Writing.{FirstWith, FirstClause, HasNumbers, FirstThrough, NumberThrough};

use hand::at_hand;
use harrop::Binding;
use keys::both_keys;
use places::plus;
use provable::{find_clause, prove_some, through_with};
use proving::{candidates, parts_of};
use room::{Files, Spot, Where, variable};
use table::{chosen, numbers, slot_for, take};

// The first candidate with which the part of a `some` has a proof.
pub fn first_with(files: &Files, room: &mut [u32], w: Where, left: usize) -> u32
    ensures { FirstWith files.now room.old room.new w left result }
{
    if !prove_some(files, room, w, left) {
        return 0;
    }
    number(variable(room, w.top, 1, 0))
}

// The first clause at hand that serves an atom: the one that the table has kept for it at this very height, or the one that is found. If no `and` is on the way to its head, the numbers of the first path through it are left behind its frame.
pub fn first_clause(files: &Files, room: &mut [u32], w: Where, left: usize) -> Option<usize>
    ensures { FirstClause files.now room.old room.new w left result × MatchOption result ⊤ (λ k. LocatingAt files.now room.old room.new w left k) }
{
    let of = both_keys(files, room, w.goal);
    let at = slot_for(room, (of.key / 2) as usize);
    let Some(clause) = chosen(files, room, w, plus(left, 1), at) else {
        return find_clause(files, room, w, of, left);
    };
    if !has_numbers(files, room, w, at, clause) {
        return find_clause(files, room, w, of, left);
    }
    take(room, at, w.top);
    Some(clause)
}

// Whether a slot has room for as many numbers as clause k has quantifiers around it.
fn has_numbers(files: &Files, room: &[u32], w: Where, at: usize, k: usize) -> bool
    ensures { HasNumbers files.now room.now w at k result }
{
    let Some(x) = at_hand(room, k, w.supposed) else {
        return false;
    };
    let Some(p) = parts_of(files, x, 0, 64) else {
        return true;
    };
    p.own <= numbers(room, at)
}

// The first candidate with which a path through the clause of an `all` ends well.
fn first_through(
    files: &Files,
    room: &mut [u32],
    w: Where,
    x: Spot,
    nest: usize,
    left: usize,
) -> u32
    ensures { FirstThrough files.now room.old room.new w x nest left result }
{
    let n = candidates(room);
    for i in 0..n {
        if through_with(files, room, w, x, i, nest, left) {
            return i;
        }
    }
    0
}

// The number of what a variable is bound to.
fn number(b: Binding) -> u32
    ensures { result ≡ number_of b }
{
    match b {
        Binding::Candidate(i) => i,
        Binding::Parameter(k) => k,
    }
}

// The same, where it may stand in the room already, behind the clause's frame.
pub fn number_through(
    files: &Files,
    room: &mut [u32],
    w: Where,
    x: Spot,
    nest: usize,
    left: usize,
    located: bool,
) -> u32
    ensures { NumberThrough files.now room.old room.new w x nest left located result }
{
    if located {
        return number(variable(room, x.base, plus(x.count, 1), 0));
    }
    first_through(files, room, w, x, nest, left)
}
