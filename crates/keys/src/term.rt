// The number of a term under its bindings. A variable takes the number that is kept for the candidate that it is bound to, so candidates are never gone into; what is left of the nesting falls.
// Kept: the bytes, the offset and what is left of the nesting stay parameters of their own; offset and nesting are others at each call.
ghost use Rattle.std.specs.Prelude.{◌≡◌, get_or, drop};
ghost use Rattle.keys.specs.Walk.{candidate_key, binding_key, VariableAt, ParameterAt, BeginsAt, TermAtKey, TermsAtKey};
ghost use Rattle.keys.specs.Keys.{TermKeyAt};

use crate::mix::{mix, text_key};
use harrop::Binding;
use room::{Files, Spot, from, hold, variable, word};
use sexp::{closes, is_word, number, past};

// How a term begins: its number is known at once, or terms follow at an offset and are mixed into a number.
// Kept: either kind is an answer with a value, and none of them a failure.
#[derive(Clone, Copy)]
pub(crate) enum Begun {
    Key(u32),
    Terms(usize, u32),
}

// The number kept for a candidate; for one that is not listed, that of `e` 0.
fn candidate_key(room: &[u32], i: u32) -> u32
    ensures { result ≡ candidate_key room.now i }
{
    if i < word(room, 257) {
        return word(room, 3456 + i as usize);
    }
    mix(5, 0)
}

// The number of what a binding stands for.
fn binding_key(room: &[u32], b: Binding) -> u32
    ensures { result ≡ binding_key room.now b }
{
    match b {
        Binding::Candidate(i) => candidate_key(room, i),
        Binding::Parameter(k) => mix(5, k),
    }
}

// The number of the variable that a part of a file starts with.
fn variable_key(t: &[u8], room: &[u32], x: Spot) -> u32
    ensures { VariableAt t.now room.now x result }
{
    match number(t, 4) {
        None => 0,
        Some(i) => binding_key(room, variable(room, x.base, x.count, i)),
    }
}

// The number of the parameter that a part of a file starts with.
fn parameter_key(t: &[u8]) -> u32
    ensures { ParameterAt t.now result }
{
    match number(t, 4) {
        None => 0,
        Some(k) => mix(5, hold(k)),
    }
}

// How the term begins that a part of a file starts with.
fn begins(t: &[u8], room: &[u32], x: Spot) -> Begun
    ensures { BeginsAt t.now room.now x result }
{
    if is_word(t, 1, b"v") {
        return Begun::Key(variable_key(t, room, x));
    }
    if is_word(t, 1, b"e") {
        return Begun::Key(parameter_key(t));
    }
    match past(t, 4, 0) {
        None => Begun::Key(0),
        Some(n) => Begun::Terms(n, text_key(t, 4)),
    }
}

// The number of the term at an offset that nests at most `nest`, its variables bound in the frame of a spot.
#[cycle(key)]
pub(crate) fn key_at(s: &[u8], at: usize, room: &[u32], x: Spot, nest: usize) -> u32
    ensures { TermAtKey s.now at room.now x nest result }
{
    if nest == 0 {
        return 0;
    }
    let t = from(s, at);
    match begins(t, room, x) {
        Begun::Key(k) => k,
        Begun::Terms(n, h) => keys_at(t, n, room, x, h, nest - 1),
    }
}

// A number with those of terms mixed into it, one after the other, up to the closing parenthesis.
// Kept: the place goes on by what each member takes, so no index counts.
#[cycle(key)]
pub(crate) fn keys_at(s: &[u8], at: usize, room: &[u32], x: Spot, h: u32, nest: usize) -> u32
    ensures { TermsAtKey s.now at room.now x h nest result }
{
    let mut p = at;
    let mut k = h;
    while !closes(s, p) {
        k = mix(k, key_at(s, p, room, x, nest));
        let Some(n) = past(s, p, 64) else {
            return 0;
        };
        p = n;
    }
    k
}

// The number of the term at a spot, its variables replaced.
pub fn term_key(files: &Files, room: &[u32], x: Spot) -> u32
    ensures { TermKeyAt files.now room.now x result }
{
    let s = files.file(x.source);
    key_at(s, x.at, room, x, 64)
}
