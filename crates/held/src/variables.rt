// Whether an expression holds a variable that is unset in a frame, or one particular variable.
// Kept: the bytes, the offset and what is left of the nesting stay parameters of their own; offset and nesting are others at each call.
ghost use Rattle.std.specs.Prelude.{◌≡◌, true, false, ◌||◌, ℕ};
ghost use Rattle.harrop.specs.Bindings.{Bindings};
ghost use Rattle.room.specs.Spot.{bindings_at};
ghost use Rattle.mentions.specs.Open.{is_unset, is_open, asked};
ghost use Rattle.held.specs.Held.{AroundAt, Holding, met_by, PastVariable, MeetsVariable, Meets};

use harrop::Binding;
use places::plus;
use room::{Spot, variable};
use sexp::{closes, is_word, number, opens, past};

// What is met on the way through an expression.
// Kept: three answers to three questions, none of them a failure; as a Result, `Asked`, which is a yes, would be an error, and both callers match on all three.
#[derive(Clone, Copy)]
pub enum Met {
    // A variable that is asked for; the rest of the expression is left alone.
    Asked,
    // None. Whether variable v is, and where the expression ends.
    Past(bool, usize),
    // No expression stands there.
    Nothing,
}

// Whether a binding says that its variable is not set: it names a candidate that no packet has.
fn is_unset(b: Binding) -> bool
    ensures { result ≡ is_unset b }
{
    match b {
        Binding::Candidate(i) => i == 2147483647,
        Binding::Parameter(_) => false,
    }
}

// Whether variable i of a frame, one of the first `own`, is unset.
pub fn is_open(room: &[u32], x: Spot, own: usize, i: usize) -> bool
    ensures { result ≡ is_open own (bindings_at room.now x) i }
{
    if i < own {
        return is_unset(variable(room, x.base, x.count, i));
    }
    false
}

// Whether it is, or is variable v if that one is asked for.
fn asks(room: &[u32], x: Spot, own: usize, also: bool, v: usize, i: usize) -> bool
    ensures { result ≡ asked own (bindings_at room.now x) also v i }
{
    if is_open(room, x, own, i) {
        return true;
    }
    also && i == v
}

// How many quantifiers are around the parts of the list that opens at an offset.
fn around(s: &[u8], at: usize, depth: usize) -> usize
    ensures { AroundAt s.now at depth result }
{
    if is_word(s, plus(at, 1), b"all") {
        return plus(depth, 1);
    }
    if is_word(s, plus(at, 1), b"some") {
        return plus(depth, 1);
    }
    depth
}

// An expression in which no variable that is asked for is met, by its end.
fn ended(a: Option<usize>, with: bool) -> Met
    ensures { result ≡ met_by a with }
{
    match a {
        Some(n) => Met::Past(with, n),
        None => Met::Nothing,
    }
}

// Past the variable at an offset whose number is i. Nearly every number has one digit, and ends then where it must.
fn past_variable(s: &[u8], at: usize, nest: usize, i: usize) -> Option<usize>
    ensures { PastVariable s.now at nest i result }
{
    if 9 < i {
        return past(s, at, nest);
    }
    if !closes(s, plus(at, 7)) {
        return past(s, at, nest);
    }
    Some(plus(at, 8))
}

// The variable at an offset, so many quantifiers inside the expression.
fn meets_variable(
    s: &[u8],
    at: usize,
    depth: usize,
    nest: usize,
    room: &[u32],
    x: Spot,
    own: usize,
    also: bool,
    v: usize,
) -> Met
    ensures { MeetsVariable s.now at depth nest (asked own (bindings_at room.now x) also v) (asked own (bindings_at room.now x) true v) result }
{
    let Some(i) = number(s, plus(at, 4)) else {
        return ended(past(s, at, nest), false);
    };
    if i < depth {
        return ended(past_variable(s, at, nest, i), false);
    }
    if asks(room, x, own, also, v, i - depth) {
        return Met::Asked;
    }
    ended(past_variable(s, at, nest, i), i - depth == v)
}

// A member of a list: a word or a name holds nothing, and is passed at once.
#[cycle(meets)]
fn meets_member(
    s: &[u8],
    at: usize,
    depth: usize,
    nest: usize,
    room: &[u32],
    x: Spot,
    own: usize,
    also: bool,
    v: usize,
) -> Met
    ensures { Meets s.now at depth nest (asked own (bindings_at room.now x) also v) (asked own (bindings_at room.now x) true v) result }
{
    if !opens(s, at) {
        return ended(past(s, at, nest), false);
    }
    meets(s, at, depth, nest, room, x, own, also, v)
}

// One walk through the expression at an offset, up to the first variable of the frame that is unset, or is variable v if that one is asked for.
// Kept: the place goes on by what each member takes, so no index counts.
#[cycle(meets)]
pub fn meets(
    s: &[u8],
    at: usize,
    depth: usize,
    nest: usize,
    room: &[u32],
    x: Spot,
    own: usize,
    also: bool,
    v: usize,
) -> Met
    ensures { Meets s.now at depth nest (asked own (bindings_at room.now x) also v) (asked own (bindings_at room.now x) true v) result }
{
    if !opens(s, at) {
        return ended(past(s, at, nest), false);
    }
    if nest == 0 {
        return Met::Nothing;
    }
    if is_word(s, plus(at, 1), b"v") {
        return meets_variable(s, at, depth, nest, room, x, own, also, v);
    }
    let d = around(s, at, depth);
    let mut q = plus(at, 1);
    let mut with = false;
    while !closes(s, q) {
        match meets_member(s, q, d, nest - 1, room, x, own, also, v) {
            Met::Asked => {
                return Met::Asked;
            }
            Met::Past(b, n) => {
                with |= b;
                q = n;
            }
            Met::Nothing => {
                return Met::Nothing;
            }
        }
    }
    Met::Past(with, plus(q, 1))
}

// A yes says that no variable is asked for.
fn is_idle(own: usize, also: bool) -> bool
    ensures { result ≡ true → (bs : Bindings) (v i : ℕ) → asked own bs also v i ≡ false }
{
    if also {
        return false;
    }
    own == 0
}

// Whether the expression at an offset holds a variable of the frame that is unset, or variable v if that one is asked for. Where none can be, nothing is read.
pub fn holds(
    s: &[u8],
    at: usize,
    depth: usize,
    nest: usize,
    room: &[u32],
    x: Spot,
    own: usize,
    also: bool,
    v: usize,
) -> bool
    ensures { Holding s.now at depth nest (asked own (bindings_at room.now x) also v) result }
{
    if is_idle(own, also) {
        return false;
    }
    match meets(s, at, depth, nest, room, x, own, also, v) {
        Met::Asked => true,
        Met::Past(_, _) => false,
        Met::Nothing => false,
    }
}
