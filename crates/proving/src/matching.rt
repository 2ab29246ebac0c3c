// The head of a clause with no `and` on the way to it beside the atom that is searched, argument by argument, in one walk: a variable of the clause that is an argument and not set yet is set to what the atom has there, any other argument without an unset variable is compared.
// An argument that is a compound term with an unset variable decides nothing (document 02, Three: the head decides before candidates are tried). Where there is none, the head is the atom whatever the variables that are left become, and is not compared again.
// Kept: files, room and place stay parameters of their own, as the search has them. A struct of them would be made for these calls alone, and its clauses would name the room before and after all the same.
ghost use Rattle.std.specs.Prelude.{◌≡◌, ◌&&◌};
ghost use Rattle.proving.specs.Filling.{is_never, is_same, Settling, Meeting};
ghost use Rattle.proving.specs.Matching.{at_end, Matching, MatchingVariable};

use crate::plain::{Parts, compared, word_of};
use harrop::Binding;
use places::further;
use room::{Files, Spot, Where, push};
use sexp::{closes, past, same_text};
use start::may_use;
use unset::{Likeness, candidate_at, compare, open_at};

// Variable v of the clause, not set yet, set to the lowest candidate that is the atom's term at a spot. Never: there is none, or it may not be used.
fn force(files: &Files, room: &mut [u32], w: Where, p: Parts, v: usize, y: Spot) -> Likeness
    ensures { MatchingVariable files.now room.old room.new w p v y result }
{
    match candidate_at(files, room, y) {
        None => Likeness::Never,
        Some(c) => {
            if !may_use(room, w.parameters, c as usize) {
                return Likeness::Never;
            }
            push(room, word_of(p.head, v), Binding::Candidate(c));
            Likeness::Same
        }
    }
}

// An argument of the head beside the atom's.
fn match_term(files: &Files, room: &mut [u32], w: Where, p: Parts, x: Spot, y: Spot) -> Likeness
    ensures { Matching files.now room.old room.new w p x y result }
{
    match open_at(files, room, x, p.own) {
        Some(v) => force(files, room, w, p, v, y),
        None => compare(files, room, x, y, p.own),
    }
}

// Whether nothing that the unset variables become makes it the same.
fn is_never(l: Likeness) -> bool
    ensures { result ≡ is_never l }
{
    matches!(l, Likeness::Never)
}

// Whether all arguments so far are the same whatever the unset variables become: those before, and this one.
fn still(sure: bool, l: Likeness) -> bool
    ensures { result ≡ is_same l && sure }
{
    match l {
        Likeness::Never => false,
        Likeness::Open => false,
        Likeness::Same => sure,
    }
}

// Where the head has no argument left: whether the atom has none either, and whether all were sure.
fn at_end(ends: bool, sure: bool) -> Likeness
    ensures { result ≡ at_end ends sure }
{
    if !ends {
        return Likeness::Never;
    }
    if sure {
        return Likeness::Same;
    }
    Likeness::Open
}

// The whole head.
// Kept: two offsets, since both rows of arguments are walked in step and `past` says where each goes on; no index is counted.
fn match_head(files: &Files, room: &mut [u32], w: Where, p: Parts) -> Likeness
    ensures { Settling files.now room.old room.new w p result }
{
    let x = p.head;
    let y = w.goal;
    let s = files.part(x);
    let t = files.part(y);
    if !same_text(s, 7, t, 7) {
        return Likeness::Never;
    }
    let Some(n) = past(s, 7, 0) else {
        return Likeness::Open;
    };
    let mut i = n;
    let mut j = n;
    let mut sure = true;
    while !closes(s, i) {
        if closes(t, j) {
            return Likeness::Never;
        }
        let l = match_term(files, room, w, p, further(x, i), further(y, j));
        if is_never(l) {
            return Likeness::Never;
        }
        sure = still(sure, l);
        let Some(m) = past(s, i, 64) else {
            return Likeness::Open;
        };
        let Some(k) = past(t, j, 64) else {
            return Likeness::Open;
        };
        i = m;
        j = k;
    }
    at_end(closes(t, j), sure)
}

// The head beside the atom, if there is one to compare: what is left to be searched, if anything. A head that is the atom whatever its variables become is not compared again.
pub fn meet(files: &Files, room: &mut [u32], w: Where, p: Parts) -> Option<Parts>
    ensures { Meeting files.now room.old room.new w p result }
{
    if !p.headed {
        return Some(p);
    }
    match match_head(files, room, w, p) {
        Likeness::Never => None,
        Likeness::Open => Some(p),
        Likeness::Same => Some(compared(p)),
    }
}
