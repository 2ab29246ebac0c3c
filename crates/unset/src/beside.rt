// Two atoms beside each other, where variables of both are not set: which variable of the second stands where one of the first does (document 02, Three).
// Kept: the files and two spots stay parameters of their own; the spots are others at each call, and a struct of them would be made anew there.
ghost use Rattle.unset.specs.Beside.{VariableIs, BesideAt, SameAs};

use crate::head::is_variable;
use places::plus;
use room::{Files, Spot};
use sexp::{closes, is_word, number, past};

// The variable that stands at an offset.
fn variable_at(s: &[u8], at: usize) -> Option<usize>
    ensures { VariableIs s.now at result }
{
    if !is_word(s, plus(at, 1), b"v") {
        return None;
    }
    number(s, plus(at, 4))
}

// Where the argument of the atom at the second spot begins that stands beside the first argument of the one at the first that is variable v.
pub(crate) fn beside(files: &Files, x: Spot, y: Spot, v: usize) -> Option<usize>
    ensures { BesideAt files.now x y v result }
{
    let s = files.part(x);
    let t = files.part(y);
    let i = past(s, 7, 0)?;
    let j = past(t, 7, 0)?;
    let mut p = i;
    let mut q = j;
    // Kept: two parts are walked side by side, by the offsets that `past` gives; they are no indices that count.
    while !closes(s, p) {
        if closes(t, q) {
            return None;
        }
        if is_variable(s, p, v) {
            return Some(q);
        }
        let m = past(s, p, 64)?;
        let k = past(t, q, 64)?;
        p = m;
        q = k;
    }
    None
}

// The variable of the atom at the second spot that stands there.
pub fn same_as(files: &Files, x: Spot, y: Spot, v: usize) -> Option<usize>
    ensures { SameAs files.now x y v result }
{
    let q = beside(files, x, y, v)?;
    variable_at(files.part(y), q)
}
