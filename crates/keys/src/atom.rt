// The number of an atom under its bindings, and the number of its predicate: of its name and how many arguments it has. Where both are asked for, the atom is walked once.
// Kept: the bytes and the offset, the room and the spot stay parameters of their own; the offset is another at each call.
ghost use Rattle.keys.specs.Walk.{RowAt, TermsAtKey, PredicateAt, AtomAtKey};
ghost use Rattle.keys.specs.Keys.{AtomKeyAt, PredicateKeyAt};

use crate::mix::{even, mix, odd, text_key};
use crate::term::{key_at, keys_at};
use room::{Files, Spot};
use sexp::{closes, past};

// The numbers of an atom: of its predicate and its own.
#[derive(Clone, Copy)]
pub struct Both {
    pub predicate: u32,
    pub key: u32,
}

// A number mixed with 1 for each expression from an offset on, up to the closing parenthesis.
fn row_key(s: &[u8], at: usize, h: u32) -> u32
    ensures { RowAt s.now at h result }
{
    let mut p = at;
    let mut k = h;
    // Kept: the place goes on by what each member takes, and a member that cannot be passed ends all.
    while !closes(s, p) {
        k = mix(k, 1);
        let Some(n) = past(s, p, 64) else {
            return 0;
        };
        p = n;
    }
    k
}

// The number of the predicate of the atom that a part of a file starts with.
pub(crate) fn predicate_of(t: &[u8]) -> u32
    ensures { PredicateAt t.now result }
{
    let Some(n) = past(t, 7, 0) else {
        return 0;
    };
    even(row_key(t, n, text_key(t, 7)))
}

// The number of that atom, its variables bound in the frame of a spot.
pub(crate) fn atom_of(t: &[u8], room: &[u32], x: Spot) -> u32
    ensures { AtomAtKey t.now room.now x result }
{
    let Some(n) = past(t, 7, 0) else {
        return 0;
    };
    odd(keys_at(t, n, room, x, text_key(t, 7), 64))
}

// The number of the predicate of the atom at a spot.
pub fn predicate_key(files: &Files, x: Spot) -> u32
    ensures { PredicateKeyAt files.now x result }
{
    predicate_of(files.part(x))
}

// Both numbers of a row of arguments, from a number on.
// Kept: the place goes on by what each member takes, so no index counts.
fn both_at(s: &[u8], at: usize, room: &[u32], x: Spot, h: u32) -> Both
    ensures { RowAt s.now at h result.predicate × TermsAtKey s.now at room.now x h 64 result.key }
{
    let mut p = at;
    let mut predicate = h;
    let mut key = h;
    while !closes(s, p) {
        predicate = mix(predicate, 1);
        key = mix(key, key_at(s, p, room, x, 64));
        let Some(n) = past(s, p, 64) else {
            return Both {
                predicate: 0,
                key: 0,
            };
        };
        p = n;
    }
    Both { predicate, key }
}

// Both numbers of the atom that a part of a file starts with.
fn both_of(t: &[u8], room: &[u32], x: Spot) -> Both
    ensures { PredicateAt t.now result.predicate × AtomAtKey t.now room.now x result.key }
{
    let Some(n) = past(t, 7, 0) else {
        return Both {
            predicate: 0,
            key: 0,
        };
    };
    let b = both_at(t, n, room, x, text_key(t, 7));
    Both {
        predicate: even(b.predicate),
        key: odd(b.key),
    }
}

// Both numbers of the atom at a spot.
pub fn both_keys(files: &Files, room: &[u32], x: Spot) -> Both
    ensures { PredicateKeyAt files.now x result.predicate × AtomKeyAt files.now room.now x result.key }
{
    both_of(files.part(x), room, x)
}
