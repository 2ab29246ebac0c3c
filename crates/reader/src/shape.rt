// Whether an expression of a kind is built from the table of words, on bytes (document 01, refusal 4), and where it is not. The bytes are walked once;
// what is left of the nesting falls at each list.
ghost use Rattle.std.specs.Prelude.{◌≡◌, ℕ, ◌+◌, ◌^◌, ◌<◌, ◌≤◌, length, get_or, Ok, Err};
ghost use Rattle.basics.specs.Choice.{choose};
ghost use Rattle.sexp.specs.Sexp.{Sexp, list, Sexps, Stands, StandsAll, nesting, nestings};
ghost use Rattle.sexp.specs.Words.{is_number};
ghost use Rattle.packet.specs.Table.{due_after, may_end};
ghost use Rattle.packet.specs.Wrong.{with_word, begins, is_step, is_text};
ghost use Rattle.reader.specs.Shape.{HeadAt, head_by, start_of, shape_of, shape_in};

use crate::words::word_of;
use packet::{Due, Kind, Word};
use rows::{due_after, may_end, next_due};

// How a list of a kind begins: not at all, with a step or its end, or with a word.
// Kept: three cases with no value, as the definition has them (`Begins`, specs/Wrong of crate `packet`).
#[derive(Clone, Copy)]
pub(crate) enum Start {
    Never,
    Plainly,
    WithWord,
}

// What an expression of a kind begins with.
// Kept: either kind is an answer with a value, and none of them a failure.
#[derive(Clone, Copy)]
pub(crate) enum Head {
    // A string of this kind, which ends here.
    Text(usize),
    // A list: from here on its further members stand, as they are due.
    List(usize, Due),
}

fn is_number(w: &[u8]) -> bool
    ensures { result ≡ is_number w.now }
{
    sexp::number_of(w).is_some()
}

// A step of a path: `l`, `r` or a number.
// Kept: with `||` in place of the first two tests the proof did not close.
fn is_step(w: &[u8]) -> bool
    ensures { result ≡ is_step w.now }
{
    if sexp::same(w, b"l") {
        return true;
    }
    if sexp::same(w, b"r") {
        return true;
    }
    is_number(w)
}

// Octets that are of this kind by themselves.
#[tactic(auto, unfolding(packet::specs::Wrong::is_text))]
fn is_text(w: &[u8], kind: Kind) -> bool
    ensures { result ≡ is_text kind w.now }
{
    match kind {
        Kind::Name => sexp::is_name_of(w),
        Kind::Number => is_number(w),
        Kind::Step => is_step(w),
        _ => false,
    }
}

#[tactic(auto, unfolding(packet::specs::Wrong::begins))]
fn begins_with(kind: Kind) -> Start
    ensures { result ≡ start_of (begins kind) }
{
    match kind {
        Kind::Name | Kind::Number | Kind::Step => Start::Never,
        Kind::Path => Start::Plainly,
        _ => Start::WithWord,
    }
}

// What an expression that opens no list begins with; or the place of refusal 4.
fn text_head(s: &[u8], at: usize, kind: Kind) -> Result<Head, usize>
    ensures { (e : Sexp) → (get_or s.now at 0 ≡ 40 → ⊥) → Stands s.now at e → HeadAt s.now kind at e result }
{
    let Some((from, count)) = sexp::plain(s, at) else {
        return Err(at);
    };
    let to = from + count;
    if is_text(&s[from..to], kind) {
        return Ok(Head::Text(to));
    }
    Err(at)
}

// The head of a list by its word, which stands at `at` and ends at `to`.
fn row_head(at: usize, to: usize, kind: Kind, w: Word) -> Result<Head, usize>
    ensures { result ≡ head_by at to (due_after kind w) }
{
    match due_after(kind, w) {
        None => Err(at),
        Some(due) => Ok(Head::List(to, due)),
    }
}

// The head of a list that opens at an offset and begins with a word.
fn word_head(s: &[u8], at: usize, kind: Kind) -> Result<Head, usize>
    requires { at < length s.now }
    ensures { (xs : Sexps) → begins kind ≡ with_word → Stands s.now at (list xs) → HeadAt s.now kind at (list xs) result }
{
    let Some((from, count)) = sexp::plain(s, at + 1) else {
        return Err(at + 1);
    };
    let to = from + count;
    row_head(at + 1, to, kind, word_of(&s[from..to]))
}

// The head of a list that opens at an offset.
fn list_head(s: &[u8], at: usize, kind: Kind) -> Result<Head, usize>
    requires { at < length s.now }
    ensures { (xs : Sexps) → Stands s.now at (list xs) → HeadAt s.now kind at (list xs) result }
{
    match begins_with(kind) {
        Start::Never => Err(at),
        Start::Plainly => Ok(Head::List(at + 1, Due::Each(Kind::Step))),
        Start::WithWord => word_head(s, at, kind),
    }
}

// The head of the expression at an offset.
fn head_at(s: &[u8], at: usize, kind: Kind) -> Result<Head, usize>
    ensures { (e : Sexp) → Stands s.now at e → HeadAt s.now kind at e result }
{
    if sexp::opens(s, at) {
        return list_head(s, at, kind);
    }
    text_head(s, at, kind)
}

// The end of a list whose closing parenthesis stands at an offset; or the place of refusal 4.
fn end(at: usize, due: Due) -> Result<usize, usize>
    requires { at < 2 ^ 63 }
    ensures { result ≡ choose (may_end due) (Ok (at + 1)) (Err at) }
{
    if may_end(due) { Ok(at + 1) } else { Err(at) }
}

// Where an expression of a kind ends; or the place of refusal 4.
#[cycle(shape)]
pub(crate) fn shape_at(s: &[u8], at: usize, nest: usize, kind: Kind) -> Result<usize, usize>
    ensures { (e : Sexp) → Stands s.now at e → nesting e ≤ nest → result ≡ shape_of kind at e }
{
    match head_at(s, at, kind)? {
        Head::Text(to) => Ok(to),
        Head::List(from, due) => {
            if nest == 0 {
                return Err(at);
            }
            shape_in(s, from, nest - 1, due)
        }
    }
}

// The members of a list, as they are due, and its closing parenthesis.
// Kept: `at`, `nest` and what is due are others at each call, so a struct would be made anew there.
#[cycle(shape)]
fn shape_in(s: &[u8], at: usize, nest: usize, due: Due) -> Result<usize, usize>
    ensures { (xs : Sexps) → StandsAll s.now at xs → nestings xs ≤ nest → result ≡ shape_in due at xs }
{
    let mut i = at;
    let mut d = due;
    // Kept: i goes from member to member, and no index is counted.
    while i < s.len() {
        if sexp::closes(s, i) {
            return end(i, d);
        }
        let Some((kind, after)) = next_due(d) else {
            return Err(i);
        };
        let to = shape_at(s, i, nest, kind)?;
        if to <= i {
            return Err(i);
        }
        i = to;
        d = after;
    }
    Err(i)
}
