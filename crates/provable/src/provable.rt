// Whether a goal has a proof within a height (document 01: "Proving a goal needs the proof of clause bodies, and those are goals again; the height left falls at each turn").
// Kept: files, room and w as parameters of each function; as fields of one struct every clause would name the same three, the room before and after.
// The search of a goal calls the search over the clauses at hand, each of which is taken apart from outside; that calls the search of a goal for the body, with one less.
ghost use Rattle.std.specs.Prelude.{◌≡◌, true, is_some, unwrap_or};
ghost use Rattle.packet.specs.declared.Word.TheVariants as W;
ghost use Rattle.proving.specs.Proving.{Proving, ProvingAs, ProvingBy, Finding, Deciding, Passing, PassingAs, PassingWith};
ghost use Rattle.proving.specs.Filling.{PassingParts, Locating, LocatingAt, LocatingFirst, LocatingSome, LookingBody, Looking, LookingAs, LookingOne, Dues, FillingFrom, FillingEach, FillingWith};

use harrop::Binding;
use heads::has_head;
use held::{Met, holds, is_open, meets};
use keys::{Both, both_keys, next_clause};
use narrowing::{is_left_out, narrow_body};
use packet::Word;
use places::{bound, further, past_part, plus, supposes, within, word_there};
use proving::{
    Parts, body_place, candidates, chain_of, clause_parts, clauses, deeper, fits, is_fact, may_fit,
    meet, open_clause, parts_of, rule_number, unset_all, word_of,
};
use room::{Files, Source, Spot, Where, push, suppose};
use start::may_use;
use table::{forget, keep, recall, slot_for};

// Whether the goal of a place has a proof of at most this height.
#[cycle(proves)]
pub fn prove_goal(files: &Files, room: &mut [u32], w: Where, height: usize) -> bool
    ensures { Proving files.now room.old room.new w height result }
{
    if height == 0 {
        return false;
    }
    match word_there(files, w.goal) {
        Word::Top => true,
        Word::Atom => prove_atom(files, room, w, height - 1),
        Word::And => both(files, room, w, height - 1),
        Word::Or => prove_or(files, room, w, height - 1),
        Word::Some => prove_some(files, room, w, height - 1),
        Word::All => prove_all(files, room, w, height - 1),
        Word::Imp => under(files, room, w, height - 1),
        _ => false,
    }
}

// Both parts of an `and`, each with what is left of the height. Where the second one begins is asked once the first has a proof.
#[cycle(proves)]
fn both(files: &Files, room: &mut [u32], w: Where, left: usize) -> bool
    ensures { ProvingAs W.And files.now room.old room.new w left result }
{
    if !prove_goal(files, room, within(w, 6), left) {
        return false;
    }
    let Some(n) = past_part(files, w.goal, 6) else {
        return false;
    };
    prove_goal(files, room, within(w, n), left)
}

// The left part of an `or`, else the right one.
#[cycle(proves)]
fn prove_or(files: &Files, room: &mut [u32], w: Where, left: usize) -> bool
    ensures { ProvingAs W.Or files.now room.old room.new w left result }
{
    let Some(n) = past_part(files, w.goal, 5) else {
        return false;
    };
    if prove_goal(files, room, within(w, 5), left) {
        return true;
    }
    prove_goal(files, room, within(w, n), left)
}

// The goal inside a chain of `some`, its variables not set at first; each of the quantifiers takes one of the height. If yes, the numbers of the first candidates with which it has a proof are left on top of the stack.
#[cycle(proves)]
pub fn prove_some(files: &Files, room: &mut [u32], w: Where, left: usize) -> bool
    ensures { ProvingAs W.Some files.now room.old room.new w left result × (result ≡ true → LocatingSome files.now room.old room.new w left) }
{
    let p = chain_of(files, deeper(w.goal, 7), 1, 64);
    if left < p.own {
        return false;
    }
    start(files, room, w, p, left - (p.own - 1))
}

// The part of an `all`, with one more parameter.
#[cycle(proves)]
fn prove_all(files: &Files, room: &mut [u32], w: Where, left: usize) -> bool
    ensures { ProvingAs W.All files.now room.old room.new w left result }
{
    if 64 <= w.parameters {
        return false;
    }
    let p = w.parameters + 1;
    push(room, w.top, Binding::Parameter(p as u32));
    prove_goal(files, room, bound(w, 6, p), left)
}

// The part of an `imp`, under its clause.
#[cycle(proves)]
fn under(files: &Files, room: &mut [u32], w: Where, left: usize) -> bool
    ensures { ProvingAs W.Imp files.now room.old room.new w left result }
{
    if left == 0 {
        return false;
    }
    let Some(n) = past_part(files, w.goal, 6) else {
        return false;
    };
    suppose(room, w.supposed, further(w.goal, 6));
    forget(room, plus(w.supposed, 1));
    prove_goal(files, room, supposes(w, n), left)
}

// An atom: by the table if it has it, else by the clauses at hand. An atom that no clause can serve, by their numbers, is in no table. An atom's number is odd, so half of it says the slot.
#[cycle(proves)]
fn prove_atom(files: &Files, room: &mut [u32], w: Where, left: usize) -> bool
    ensures { ProvingAs W.Atom files.now room.old room.new w left result }
{
    let of = both_keys(files, room, w.goal);
    let n = clauses(room, w.supposed);
    if n <= next_clause(room, of, 0, n) {
        return false;
    }
    let at = slot_for(room, (of.key / 2) as usize);
    match recall(files, room, w, plus(left, 1), at) {
        Some(known) => known,
        None => decide(files, room, w, of, at, left),
    }
}

// An atom by the clauses at hand; the table keeps what is found, with the clause if it is a rule and the numbers that it has left. A fact is found by its number just as well.
#[cycle(proves)]
fn decide(files: &Files, room: &mut [u32], w: Where, of: Both, at: usize, left: usize) -> bool
    ensures { Deciding files.now room.old room.new w of.predicate of.key at left result }
{
    let Some(k) = find_clause(files, room, w, of, left) else {
        keep(files, room, w, plus(left, 1), at, false, 0);
        return false;
    };
    if is_fact(files.file(Source::Rules), room, k) {
        return true;
    }
    let number = rule_number(room, k);
    keep(files, room, w, plus(left, 1), at, true, number);
    true
}

// The first clause at hand that serves an atom, if one does. Rules whose number says that they cannot are passed over. If no `and` is on the way to its head, the numbers of the first path through it are left behind its frame.
// Kept: the next clause is what the chains of the room say, not the next number.
#[cycle(proves)]
pub fn find_clause(
    files: &Files,
    room: &mut [u32],
    w: Where,
    of: Both,
    left: usize,
) -> Option<usize>
    ensures { Finding files.now room.old room.new w of.predicate of.key left result × LocatingFirst files.now room.old room.new w of.predicate of.key left result }
{
    let n = clauses(room, w.supposed);
    let mut k = next_clause(room, of, 0, n);
    while k < n {
        if use_clause(files, room, w, k, left) {
            return Some(k);
        }
        k = next_clause(room, of, k + 1, n);
    }
    None
}

// Clause k for an atom, with a frame of its own.
#[cycle(proves)]
pub fn use_clause(files: &Files, room: &mut [u32], w: Where, k: usize, left: usize) -> bool
    ensures { ProvingBy files.now room.old room.new w k left result × (result ≡ true → LocatingAt files.now room.old room.new w left k) }
{
    let Some(x) = open_clause(room, k, w.supposed, w.top) else {
        return false;
    };
    if let Some(p) = clause_parts(files, room, k, x) {
        return start(files, room, w, p, left);
    }
    through(files, room, w, x, 64, left)
}

// Whether a path through the clause at a spot ends at the atom, with a proof of the body if there is one. Where an `and` is on the way, the heads are looked at before any candidate is tried (document 02, Three).
#[cycle(proves)]
pub fn through(files: &Files, room: &mut [u32], w: Where, x: Spot, nest: usize, left: usize) -> bool
    ensures { Passing files.now room.old room.new w x nest left result × Locating files.now room.old room.new w x left result }
{
    if nest == 0 {
        return false;
    }
    if let Some(p) = parts_of(files, x, 0, 64) {
        return start(files, room, w, p, left);
    }
    if !has_head(files, x, w.goal, 64) {
        return false;
    }
    match word_there(files, x) {
        Word::And => fork(files, room, w, x, nest - 1, left),
        Word::All => each(files, room, w, x, nest - 1, left),
        _ => false,
    }
}

// A clause with no `and` on the way to its head, or what is inside a chain of `some`, its variables not set yet.
#[cycle(proves)]
fn start(files: &Files, room: &mut [u32], w: Where, p: Parts, left: usize) -> bool
    ensures { PassingParts files.now room.old room.new w p left result }
{
    unset_all(room, p.head, p.own);
    let Some(q) = meet(files, room, w, p) else {
        return false;
    };
    if !body(files, room, w, q, None, left) {
        return false;
    }
    fill(files, room, w, q, p.own, left)
}

// The goals of the body, if there is one.
#[cycle(proves)]
fn body(
    files: &Files,
    room: &mut [u32],
    w: Where,
    p: Parts,
    asked: Option<usize>,
    left: usize,
) -> bool
    ensures { LookingBody files.now room.old room.new w p (is_some asked) (unwrap_or asked 0) left result }
{
    if !p.body {
        return true;
    }
    look(files, room, body_place(w, p), p.own, asked, left)
}

// The goals of a body whose variables are set, and of these, if variable v is asked for, those that hold it: whether each has a proof. An atom is searched here, since its word is read.
#[cycle(proves)]
fn look(
    files: &Files,
    room: &mut [u32],
    w: Where,
    own: usize,
    asked: Option<usize>,
    height: usize,
) -> bool
    ensures { Looking files.now room.old room.new w own (is_some asked) (unwrap_or asked 0) height result }
{
    match word_there(files, w.goal) {
        Word::And => look_and(files, room, w, own, asked, height),
        Word::Atom => {
            if !is_due(files, room, w, own, asked) {
                return true;
            }
            if height == 0 {
                return false;
            }
            prove_atom(files, room, w, height - 1)
        }
        _ => ask(files, room, w, own, asked, height),
    }
}

// Both parts of an `and`; where the second one begins is asked after the first.
#[cycle(proves)]
fn look_and(
    files: &Files,
    room: &mut [u32],
    w: Where,
    own: usize,
    asked: Option<usize>,
    height: usize,
) -> bool
    ensures { LookingAs W.And files.now room.old room.new w own (is_some asked) (unwrap_or asked 0) height result }
{
    if height == 0 {
        return false;
    }
    if !look(files, room, within(w, 6), own, asked, height - 1) {
        return false;
    }
    let Some(n) = past_part(files, w.goal, 6) else {
        return false;
    };
    look(files, room, within(w, n), own, asked, height - 1)
}

// Whether a goal that is no `and` is looked at: it holds no unset variable and, if variable v is asked for, holds that one.
fn is_due(files: &Files, room: &[u32], w: Where, own: usize, asked: Option<usize>) -> bool
    ensures { Dues files.now room.now w own (is_some asked) (unwrap_or asked 0) result }
{
    let x = w.goal;
    let s = files.part(x);
    let Some(v) = asked else {
        return !holds(s, 0, 0, 64, room, x, own, false, 0);
    };
    match meets(s, 0, 0, 64, room, x, own, false, v) {
        Met::Past(with, _) => with,
        Met::Asked => false,
        Met::Nothing => false,
    }
}

// A goal that is neither an `and` nor an atom: nothing is asked of it while it holds an unset variable, or if it was looked at before.
#[cycle(proves)]
fn ask(
    files: &Files,
    room: &mut [u32],
    w: Where,
    own: usize,
    asked: Option<usize>,
    height: usize,
) -> bool
    ensures { LookingOne files.now room.old room.new w own (is_some asked) (unwrap_or asked 0) height result }
{
    if !is_due(files, room, w, own, asked) {
        return true;
    }
    prove_goal(files, room, w, height)
}

// The frame completed, where only the first k variables may be unset.
#[cycle(proves)]
fn fill(files: &Files, room: &mut [u32], w: Where, p: Parts, k: usize, left: usize) -> bool
    ensures { FillingFrom files.now room.old room.new w p k left result }
{
    if k == 0 {
        return fits(files, room, w, p);
    }
    if is_open(room, p.head, p.own, k - 1) {
        return try_all(files, room, w, p, k - 1, left);
    }
    fill(files, room, w, p, k - 1, left)
}

// Variable v with one candidate after the other, but for those that an atom of the body leaves out; if none does, it is unset again.
#[cycle(proves)]
fn try_all(files: &Files, room: &mut [u32], w: Where, p: Parts, v: usize, left: usize) -> bool
    ensures { FillingEach files.now room.old room.new w p v left result }
{
    let n = candidates(room);
    let mut marks = [0u8; 257];
    let narrowed = narrow_body(files, room, w, p, v, left, &mut marks);
    for i in 0..n {
        if is_left_out(narrowed, &marks, i) {
            continue;
        }
        if try_one(files, room, w, p, v, i, left) {
            return true;
        }
    }
    push(room, word_of(p.head, v), Binding::Candidate(2147483647));
    false
}

// Variable v with candidate i, if it may be used.
#[cycle(proves)]
fn try_one(
    files: &Files,
    room: &mut [u32],
    w: Where,
    p: Parts,
    v: usize,
    i: u32,
    left: usize,
) -> bool
    ensures { FillingWith files.now room.old room.new w p v i left result }
{
    if !may_use(room, w.parameters, i as usize) {
        return false;
    }
    push(room, word_of(p.head, v), Binding::Candidate(i));
    if !may_fit(files, room, w, p) {
        return false;
    }
    if !body(files, room, w, p, Some(v), left) {
        return false;
    }
    fill(files, room, w, p, v, left)
}

// Both clauses of an `and`, left before right.
#[cycle(proves)]
fn fork(files: &Files, room: &mut [u32], w: Where, x: Spot, nest: usize, left: usize) -> bool
    ensures { PassingAs W.And files.now room.old room.new w x nest left result }
{
    let Some(n) = past_part(files, x, 6) else {
        return false;
    };
    if through(files, room, w, further(x, 6), nest, left) {
        return true;
    }
    through(files, room, w, further(x, n), nest, left)
}

// The clause of an `all`, with the first candidate for which a path through it ends well.
#[cycle(proves)]
fn each(files: &Files, room: &mut [u32], w: Where, x: Spot, nest: usize, left: usize) -> bool
    ensures { PassingAs W.All files.now room.old room.new w x nest left result }
{
    let n = candidates(room);
    for i in 0..n {
        if through_with(files, room, w, x, i, nest, left) {
            return true;
        }
    }
    false
}

// The clause of an `all` with candidate i, if it may be used.
#[cycle(proves)]
pub fn through_with(
    files: &Files,
    room: &mut [u32],
    w: Where,
    x: Spot,
    i: u32,
    nest: usize,
    left: usize,
) -> bool
    ensures { PassingWith files.now room.old room.new w x i nest left result }
{
    if !may_use(room, w.parameters, i as usize) {
        return false;
    }
    push(room, plus(x.base, x.count), Binding::Candidate(i));
    through(files, room, w, deeper(x, 6), nest, left)
}
