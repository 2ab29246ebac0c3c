// The nodes other than `use`, each judged at its own place without regard to its parts (document 01, "When a strip fits").
// Kept: files, room and place stay parameters of their own. The room is written and comes back as another, the place is another at each call, and a struct of them would be made anew there.
ghost use Rattle.std.specs.Prelude.{◌≡◌, List, ℕ};
ghost use Rattle.harrop.specs.Formula.{Goal};
ghost use Rattle.harrop.specs.Place.{Plain};
ghost use Rattle.packet.specs.Table as table;
ghost use Rattle.packet.specs.declared.Word.TheVariants as W;
ghost use Rattle.harrop.specs.declared.Binding.TheVariants.{Candidate};
ghost use Rattle.room.specs.Frame.{held};
ghost use Rattle.uses.specs.Walk.{EnteringAs};

use harrop::Binding;
use packet::Word;
use places::{bound, further, past_part, plus, supposes, within, word_there};
use room::{Files, Where, hold, push, suppose};
use sexp::{number, past};
use start::may_use;
use uses::Entered;

// A word's place in the table's list of words.
// Kept: docs/DEMANDS.md and docs/EXCEPTIONS.md say what it is for every word, and the tests below go by it.
pub fn rank(w: Word) -> usize
    ensures { result ≡ table.rank w }
{
    match w {
        Word::V => 0,
        Word::F => 1,
        Word::E => 2,
        Word::Atom => 3,
        Word::Top => 4,
        Word::And => 5,
        Word::Or => 6,
        Word::Some => 7,
        Word::All => 8,
        Word::Imp => 9,
        Word::Left => 10,
        Word::Right => 11,
        Word::Use => 12,
        Word::Rules => 13,
        Word::Terms => 14,
        Word::Nothing => 15,
    }
}

// `top` fits goal top.
pub fn enter_top(files: &Files, at: usize, w: Where) -> Option<Entered>
    ensures { (ss room : List ℕ) (nest : ℕ) → EnteringAs W.Top files.now ss room room at w nest result }
{
    let there = word_there(files, w.goal);
    if rank(there) != rank(Word::Top) {
        return None;
    }
    Some(Entered::Leaf(plus(at, 7)))
}

// `and`: both parts of an `and`.
pub fn enter_and(files: &Files, at: usize, w: Where) -> Option<Entered>
    ensures { (ss room : List ℕ) (nest : ℕ) → EnteringAs W.And files.now ss room room at w nest result }
{
    let there = word_there(files, w.goal);
    if rank(there) != rank(Word::And) {
        return None;
    }
    let n = past_part(files, w.goal, 6)?;
    Some(Entered::Two(plus(at, 6), within(w, 6), within(w, n)))
}

// `left`: the first part of an `or`.
pub fn enter_left(files: &Files, at: usize, w: Where) -> Option<Entered>
    ensures { (ss room : List ℕ) (nest : ℕ) → EnteringAs W.Left files.now ss room room at w nest result }
{
    let there = word_there(files, w.goal);
    if rank(there) != rank(Word::Or) {
        return None;
    }
    Some(Entered::One(plus(at, 7), within(w, 5)))
}

// `right`: the second part of an `or`.
pub fn enter_right(files: &Files, at: usize, w: Where) -> Option<Entered>
    ensures { (ss room : List ℕ) (nest : ℕ) → EnteringAs W.Right files.now ss room room at w nest result }
{
    let there = word_there(files, w.goal);
    if rank(there) != rank(Word::Or) {
        return None;
    }
    let n = past_part(files, w.goal, 5)?;
    Some(Entered::One(plus(at, 8), within(w, n)))
}

// `all`: the variable becomes parameter p + 1, and p grows by one above this node only.
pub fn enter_all(files: &Files, at: usize, room: &mut [u32], w: Where) -> Option<Entered>
    ensures { (ss : List ℕ) (nest : ℕ) → EnteringAs W.All files.now ss room.old room.new at w nest result }
{
    let there = word_there(files, w.goal);
    if rank(there) != rank(Word::All) {
        return None;
    }
    let p = w.parameters;
    if 64 <= p {
        return None;
    }
    push(room, w.top, Binding::Parameter((p + 1) as u32));
    Some(Entered::One(plus(at, 6), bound(w, 6, p + 1)))
}

// `imp`: the clause joins the end of the clauses at hand above this node only, with its variables as they stand.
pub fn enter_imp(files: &Files, at: usize, room: &mut [u32], w: Where) -> Option<Entered>
    ensures { (ss : List ℕ) (nest : ℕ) → EnteringAs W.Imp files.now ss room.old room.new at w nest result }
{
    let there = word_there(files, w.goal);
    if rank(there) != rank(Word::Imp) {
        return None;
    }
    let n = past_part(files, w.goal, 6)?;
    suppose(room, w.supposed, further(w.goal, 6));
    Some(Entered::One(plus(at, 6), supposes(w, n)))
}

// A candidate by number; a number that no word holds counts as the largest.
pub fn candidate(i: usize) -> Binding
    ensures { result ≡ Candidate (held i) }
{
    Binding::Candidate(hold(i))
}

// `some` n: the variable becomes candidate n, if that may be used here.
pub fn enter_some(
    files: &Files,
    strip: &[u8],
    at: usize,
    room: &mut [u32],
    w: Where,
) -> Option<Entered>
    ensures { (nest : ℕ) → EnteringAs W.Some files.now strip.now room.old room.new at w nest result }
{
    let there = word_there(files, w.goal);
    if rank(there) != rank(Word::Some) {
        return None;
    }
    let from = plus(at, 7);
    let i = number(strip, from)?;
    if !may_use(room, w.parameters, i) {
        return None;
    }
    let start = past(strip, from, 0)?;
    push(room, w.top, candidate(i));
    Some(Entered::One(start, bound(w, 7, w.parameters)))
}
