// Which candidates a variable need be tried with, by the atoms of a clause's body (document 02, Three: no verdict and no strip changes). A head without variables lets the candidate pass that it forces on the variable.
// Kept: files, room, w and marks as parameters of each function; as fields of one struct every clause would name the same four, room and marks before and after.
// Where the head of a clause has a variable of its own there, those pass that the clause's body leaves this variable, which are looked for in the same way, with what is left of the height, in at most 32 bodies for one atom.
ghost use Rattle.std.specs.Prelude.{ℕ, ◌≡◌, true, get_or};
ghost use Rattle.packet.specs.declared.Word.TheVariants as W;
ghost use Rattle.narrow.specs.Narrow.{More};
ghost use Rattle.narrowing.specs.Tried.{NarrowsGoal, NarrowsAs, NarrowsKnown, NarrowsBy, NarrowsBody};

use crate::setting::set_beside;
use arguments::arguments_of;
use held::holds;
use keys::predicate_key;
use narrow::{Sought, by_clause, spend, unmark_all};
use packet::Word;
use places::{past_part, within, word_there};
use proving::{Parts, body_place, clause_parts, clauses, open_clause, unset_all};
use room::{Files, Where};
use unset::same_as;

// Whether the goal of a place holds variable v.
fn has_variable(files: &Files, room: &[u32], w: Where, v: usize) -> bool {
    let x = w.goal;
    let s = files.part(x);
    holds(s, 0, 0, 64, room, w.goal, 0, true, v)
}

// The marks of a body's goal taken back for another goal of it; those of an inner body stay, others may be among them.
fn again(marks: &mut [u8], inner: bool)
    ensures { inner ≡ true → marks.new ≡ marks.old }
{
    if inner {
        return;
    }
    unmark_all(marks);
}

// By the goal of a place: by the first atom among the goals of an `and`, left before right, of which something can be said. No: there is none.
#[cycle(narrows)]
fn narrow_goal(
    files: &Files,
    room: &mut [u32],
    w: Where,
    own: usize,
    v: usize,
    inner: bool,
    height: usize,
    marks: &mut [u8],
) -> bool
    ensures { (inner ≡ true → More marks.old marks.new) × NarrowsGoal files.now room.old room.new w own v height marks.new result }
{
    if height == 0 {
        return false;
    }
    match word_there(files, w.goal) {
        Word::Atom => narrow_atom(files, room, w, own, v, height - 1, marks),
        Word::And => narrow_and(files, room, w, own, v, inner, height - 1, marks),
        _ => false,
    }
}

// By the parts of an `and`.
#[cycle(narrows)]
fn narrow_and(
    files: &Files,
    room: &mut [u32],
    w: Where,
    own: usize,
    v: usize,
    inner: bool,
    left: usize,
    marks: &mut [u8],
) -> bool
    ensures { (inner ≡ true → More marks.old marks.new) × NarrowsAs W.And files.now room.old room.new w own v left marks.new result }
{
    let x = within(w, 6);
    if narrow_goal(files, room, x, own, v, inner, left, marks) {
        return true;
    }
    again(marks, inner);
    let Some(n) = past_part(files, w.goal, 6) else {
        return false;
    };
    let y = within(w, n);
    narrow_goal(files, room, y, own, v, inner, left, marks)
}

// By the clauses at hand for an atom. No: it does not hold the variable, or nothing can be said of a clause.
#[cycle(narrows)]
fn narrow_atom(
    files: &Files,
    room: &mut [u32],
    w: Where,
    own: usize,
    v: usize,
    left: usize,
    marks: &mut [u8],
) -> bool
    ensures { More marks.old marks.new × NarrowsAs W.Atom files.now room.old room.new w own v left marks.new result }
{
    if !has_variable(files, room, w, v) {
        return false;
    }
    let a = Sought {
        atom: w.goal,
        own,
        variable: v,
        predicate: predicate_key(files, w.goal),
        arguments: arguments_of(files, room, w.goal, own, v),
    };
    let n = clauses(room, w.supposed);
    for k in 0..n {
        if !narrow_clause(files, room, w, a, k, left, marks) {
            return false;
        }
    }
    true
}

// By clause k: by its heads, or else by its body.
#[cycle(narrows)]
fn narrow_clause(
    files: &Files,
    room: &mut [u32],
    w: Where,
    a: Sought,
    k: usize,
    left: usize,
    marks: &mut [u8],
) -> bool
    ensures { More marks.old marks.new × (a.atom ≡ w.goal → NarrowsKnown files.now room.old room.new w a.own a.variable a.predicate a.arguments k left marks.new result) }
{
    if by_clause(files, room, a, k, marks) {
        return true;
    }
    narrow_rule(files, room, w, a.variable, a.arguments, k, left, marks)
}

// By the body of clause k, of whose own variables those are set that stand beside arguments of the atom that are set: where its head has a variable at the place of v, what the body says of that one. No: an `and` is on the way to its heads, or it has no body, or no such variable.
#[cycle(narrows)]
fn narrow_rule(
    files: &Files,
    room: &mut [u32],
    w: Where,
    v: usize,
    asked: u32,
    k: usize,
    left: usize,
    marks: &mut [u8],
) -> bool
    ensures { More marks.old marks.new × ((own : ℕ) → NarrowsBy files.now room.old room.new w own v asked k left marks.new result) }
{
    let Some(x) = open_clause(room, k, w.supposed, w.top) else {
        return false;
    };
    let Some(p) = clause_parts(files, room, k, x) else {
        return false;
    };
    if !p.body {
        return false;
    }
    let Some(u) = same_as(files, w.goal, p.head, v) else {
        return false;
    };
    if !spend(marks) {
        return false;
    }
    unset_all(room, p.head, p.own);
    set_beside(files, room, p, asked);
    let y = body_place(w, p);
    narrow_goal(files, room, y, p.own, u, true, left, marks)
}

// By the body of a clause, if it has one.
pub fn narrow_body(
    files: &Files,
    room: &mut [u32],
    w: Where,
    p: Parts,
    v: usize,
    left: usize,
    marks: &mut [u8],
) -> bool
    ensures { NarrowsBody files.now room.old room.new w p v left marks.new result }
{
    if !p.body {
        return false;
    }
    narrow_goal(files, room, body_place(w, p), p.own, v, false, left, marks)
}

// Whether a candidate is passed over: the marks say something, and it has none.
pub fn is_left_out(narrowed: bool, marks: &[u8], i: u32) -> bool
    ensures { result ≡ true → (narrowed ≡ true) × (get_or marks.now i 0 ≡ 0) }
{
    let k = i as usize;
    if !narrowed {
        return false;
    }
    if k < marks.len() {
        marks[k] == 0
    } else {
        false
    }
}
