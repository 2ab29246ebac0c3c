// Whether two atoms have the same predicate, by their bytes, and whether a clause has a head with an atom's predicate; any head under an `and` counts (document 02, Three).
// Kept: the files and two spots stay parameters of their own; the spots are others at each call, and a struct of them would be made anew there.
ghost use Rattle.std.specs.Prelude.{ℕ};
ghost use Rattle.packet.specs.declared.Word.TheVariants as W;
ghost use Rattle.heads.specs.Predicate.{SameNumber, SamePredicate, SameThere, HasHead, HasHeadAs};

use packet::Word;
use places::{further, past_part, word_there};
use room::{Files, Spot};
use sexp::{closes, past, same_text};

// Whether as many expressions stand at one offset as at another, up to the closing parentheses.
fn same_number(s: &[u8], t: &[u8], i: usize, j: usize) -> bool
    ensures { SameNumber s.now t.now i j result }
{
    let mut p = i;
    let mut q = j;
    // Kept: two places go on by what each member takes, so no index counts, and an iterator would be no plainer.
    while !closes(s, p) {
        if closes(t, q) {
            return false;
        }
        let Some(m) = past(s, p, 64) else {
            return false;
        };
        let Some(n) = past(t, q, 64) else {
            return false;
        };
        p = m;
        q = n;
    }
    closes(t, q)
}

// Whether the atoms that two parts of files start with have the same name and as many arguments.
fn same_predicate(s: &[u8], t: &[u8]) -> bool
    ensures { SamePredicate s.now t.now result }
{
    if !same_text(s, 7, t, 7) {
        return false;
    }
    let Some(p) = past(s, 7, 0) else {
        return false;
    };
    let Some(q) = past(t, 7, 0) else {
        return false;
    };
    same_number(s, t, p, q)
}

// The same of the atoms at two spots.
fn same_there(files: &Files, x: Spot, y: Spot) -> bool
    ensures { SameThere files.now x y result }
{
    same_predicate(files.part(x), files.part(y))
}

// Whether the clause at a spot has a head with the predicate of the atom at another.
#[cycle(head)]
pub fn has_head(files: &Files, x: Spot, y: Spot, nest: usize) -> bool
    ensures { HasHead files.now x y nest result }
{
    if nest == 0 {
        return false;
    }
    match word_there(files, x) {
        Word::Atom => same_there(files, x, y),
        Word::Imp => behind_imp(files, x, y),
        Word::And => has_either(files, x, y, nest - 1),
        Word::All => has_head(files, further(x, 6), y, nest - 1),
        _ => false,
    }
}

// The head of a goal that implies an atom.
fn behind_imp(files: &Files, x: Spot, y: Spot) -> bool
    ensures { (nest : ℕ) → HasHeadAs W.Imp files.now x y nest result }
{
    let Some(n) = past_part(files, x, 6) else {
        return false;
    };
    same_there(files, further(x, n), y)
}

// The heads of both clauses of an `and`.
#[cycle(head)]
fn has_either(files: &Files, x: Spot, y: Spot, nest: usize) -> bool
    ensures { HasHeadAs W.And files.now x y nest result }
{
    let Some(n) = past_part(files, x, 6) else {
        return false;
    };
    has_head(files, further(x, 6), y, nest) || has_head(files, further(x, n), y, nest)
}
