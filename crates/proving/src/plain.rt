// A clause with no `and` on the way to its one head, searched for an atom: its own variables are unset at first, those that the atom forces are set, and the others get one candidate after the other.
// A goal of the body is looked at as soon as its variables are set, and only then (document 02, Three: no verdict and no strip changes). How the atom forces variables is in src/matching.
// Kept: files, room and place stay parameters of their own, as the search has them. A struct of them would be made for these calls alone, and its clauses would name the room before and after all the same.
ghost use Rattle.std.specs.Prelude.{false, ◌≡◌};
ghost use Rattle.proving.specs.Parts.{HeadBehind, PartsFrom, PartsOf, ClauseParts, PlainAt, variable_word, body_place, with_head};
ghost use Rattle.proving.specs.Chain.{inside_at, ChainOf};
ghost use Rattle.proving.specs.Filling.{Unsets, MayFit, Fits};

use crate::opening::deeper;
use equal::same_atoms;
use harrop::Binding;
use packet::Word;
use places::{further, past_part, plus, word_there};
use room::{Files, Spot, Where, push, word};
use unset::may_be;

// Such a clause: how many variables of its own it has, whether it has a body, whether its head is to be compared, and where body and head stand, in the frame of all its variables. The goal inside a chain of `some` is searched like the body of one, with no head to compare.
// Kept: `body` and `headed` beside the spots, since both spots say the frame whether or not they are searched or compared, and a head that is the atom is taken off by one flag.
#[derive(Clone, Copy)]
pub struct Parts {
    pub own: usize,
    pub body: bool,
    pub headed: bool,
    pub goal: Spot,
    pub head: Spot,
}

// The same parts with a head that is not to be compared any more.
pub(crate) fn compared(p: Parts) -> Parts
    ensures { result ≡ with_head p false }
{
    Parts { headed: false, ..p }
}

// Where the head behind the body of an `imp` stands: where it is known to stand, else past the body.
fn head_behind(files: &Files, x: Spot, known: bool, at: usize) -> Option<usize>
    ensures { HeadBehind files.now x known at result }
{
    if known {
        return Some(at);
    }
    let n = past_part(files, x, 6)?;
    Some(plus(x.at, n))
}

// The parts of the clause at a spot; where its head is known to stand, its body is not walked over.
fn parts_from(
    files: &Files,
    x: Spot,
    known: bool,
    at: usize,
    own: usize,
    nest: usize,
) -> Option<Parts>
    ensures { PartsFrom files.now x known at own nest result }
{
    if nest == 0 {
        return None;
    }
    match word_there(files, x) {
        Word::Atom => Some(Parts {
            own,
            body: false,
            headed: true,
            goal: x,
            head: x,
        }),
        Word::Imp => {
            let at = head_behind(files, x, known, at)?;
            Some(Parts {
                own,
                body: true,
                headed: true,
                goal: further(x, 6),
                head: x.moved(at),
            })
        }
        Word::All => parts_from(files, deeper(x, 6), known, at, plus(own, 1), nest - 1),
        _ => None,
    }
}

// The parts of the clause at a spot.
pub fn parts_of(files: &Files, x: Spot, own: usize, nest: usize) -> Option<Parts>
    ensures { PartsOf files.now x own nest result }
{
    parts_from(files, x, false, 0, own, nest)
}

// The parts of clause k at its spot. Of a rule the room says where its head stands.
pub fn clause_parts(files: &Files, room: &[u32], k: usize, x: Spot) -> Option<Parts>
    ensures { ClauseParts files.now room.now k x result }
{
    let n = word(room, 0) as usize;
    let at = word(room, plus(3968, k)) as usize;
    parts_from(files, x, k < n, at, 0, 64)
}

// Whether the clause at a spot is such a one, wherever its head stands.
pub fn is_plain(files: &Files, x: Spot) -> bool
    ensures { PlainAt files.now x result }
{
    parts_from(files, x, true, 0, 0, 64).is_some()
}

// Where variable v of a frame is kept.
pub fn word_of(x: Spot, v: usize) -> usize
    ensures { result ≡ variable_word x v }
{
    if v < x.count {
        return plus(x.base, x.count - 1 - v);
    }
    plus(x.base, x.count)
}

// The first variables of a frame are not set.
pub fn unset_all(room: &mut [u32], x: Spot, own: usize)
    ensures { Unsets room.old room.new x own }
{
    for v in 0..own {
        push(room, word_of(x, v), Binding::Candidate(2147483647));
    }
}

// The place of the body.
pub fn body_place(w: Where, p: Parts) -> Where
    ensures { result ≡ body_place w p }
{
    let goal = p.goal;
    Where {
        goal,
        top: plus(goal.base, goal.count),
        ..w
    }
}

// The goal inside a chain of `some`.
fn inside(x: Spot, own: usize) -> Parts
    ensures { result ≡ inside_at x own }
{
    Parts {
        own,
        body: true,
        headed: false,
        goal: x,
        head: x,
    }
}

// What stands inside the chain of `some` at a spot, where so many quantifiers were passed before.
pub fn chain_of(files: &Files, x: Spot, own: usize, nest: usize) -> Parts
    ensures { ChainOf files.now x own nest result }
{
    if nest == 0 {
        return inside(x, own);
    }
    match word_there(files, x) {
        Word::Some => chain_of(files, deeper(x, 7), plus(own, 1), nest - 1),
        _ => inside(x, own),
    }
}

// Whether the head may still become the atom, if there is one to compare.
pub fn may_fit(files: &Files, room: &[u32], w: Where, p: Parts) -> bool
    ensures { MayFit files.now room.now w p result }
{
    if !p.headed {
        return true;
    }
    may_be(files, room, p.head, w.goal, p.own)
}

// Whether the head is the atom, where every variable is set and if there is one to compare.
pub fn fits(files: &Files, room: &[u32], w: Where, p: Parts) -> bool
    ensures { Fits files.now room.now w p result }
{
    if !p.headed {
        return true;
    }
    same_atoms(files, room, p.head, w.goal)
}
