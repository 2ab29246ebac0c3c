// The number of a rule: that of its head, if it has one head; of the whole head where it holds no variable, else of its predicate. A rule with an `and` on the way to its heads has number 0, which is no atom's.
// Kept: the bytes, the offset and what is left of the nesting stay parameters of their own; offset and nesting are others at each call.
ghost use Rattle.std.specs.Prelude.{◌≡◌};
ghost use Rattle.room.specs.Spot as spots;
ghost use Rattle.keys.specs.Walk.{HasVariable, HaveVariable, HeadAt, ImpAt, ClauseAt};
ghost use Rattle.keys.specs.Keys.{RuleKeyAt};

use crate::atom::{atom_of, predicate_of};
use packet::Word;
use reader::word_at;
use room::{Files, Source, Spot, from};
use sexp::{closes, is_word, past};

// Whether the term at an offset holds a variable, where it nests at most `nest`.
#[cycle(variable)]
fn has_variable(s: &[u8], at: usize, nest: usize) -> bool
    ensures { HasVariable s.now at nest result }
{
    if nest == 0 {
        return false;
    }
    let t = from(s, at);
    if is_word(t, 1, b"v") {
        return true;
    }
    match past(t, 4, 0) {
        None => false,
        Some(n) => have_variable(t, n, nest - 1),
    }
}

// The same of terms one after the other, up to the closing parenthesis.
// Kept: the place goes on by what each member takes, so no index counts.
#[cycle(variable)]
fn have_variable(s: &[u8], at: usize, nest: usize) -> bool
    ensures { HaveVariable s.now at nest result }
{
    let mut p = at;
    while !closes(s, p) {
        if has_variable(s, p, nest) {
            return true;
        }
        let Some(n) = past(s, p, 64) else {
            return false;
        };
        p = n;
    }
    false
}

// A frame that holds no variable.
pub(crate) fn nowhere() -> Spot
    ensures { result ≡ spots.nowhere }
{
    Spot {
        source: Source::Terms,
        at: 0,
        base: 0,
        count: 0,
    }
}

// The number of the head that a part of a file starts with.
fn head_key(t: &[u8], room: &[u32]) -> u32
    ensures { HeadAt t.now result }
{
    let Some(n) = past(t, 7, 0) else {
        return 0;
    };
    if have_variable(t, n, 64) {
        return predicate_of(t);
    }
    atom_of(t, room, nowhere())
}

// The number of the head of a goal that implies an atom.
fn behind_imp(t: &[u8], room: &[u32]) -> u32
    ensures { ImpAt t.now result }
{
    let Some(n) = past(t, 6, 64) else {
        return 0;
    };
    head_key(from(t, n), room)
}

// The number of the clause at an offset that nests at most `nest`.
// Kept: 0 for a clause with no number of its own is the word that the room holds of it.
pub(crate) fn clause_key(s: &[u8], at: usize, room: &[u32], nest: usize) -> u32
    ensures { ClauseAt s.now at nest result }
{
    if nest == 0 {
        return 0;
    }
    let t = from(s, at);
    match word_at(t, 1) {
        Word::Atom => head_key(t, room),
        Word::Imp => behind_imp(t, room),
        Word::And => 0,
        Word::All => clause_key(t, 6, room, nest - 1),
        _ => 0,
    }
}

// The number of the clause at a spot.
pub fn rule_key(files: &Files, room: &[u32], x: Spot) -> u32
    ensures { RuleKeyAt files.now x result }
{
    let s = files.file(x.source);
    clause_key(s, x.at, room, 64)
}
