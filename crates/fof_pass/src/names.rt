// The variables that are bound, by the offsets at which they stand in the text, the nearest last.
ghost use Rattle.std.specs.Prelude.{◌≡◌};
ghost use Rattle.fof_truth.specs.Numbered.{Scope, number_of};
ghost use Rattle.fof_pass.specs.Names.{Scoped, number_is};

use crate::ahead::{cut, sign_ahead};
use crate::dues::entry;
use sexp::same;

// The number of a variable, if it is bound: how many variables are nearer than the nearest of this name.
// Kept: an offset is pushed behind the bound variables by `bind`, and a slice that ends there would have to be cut of the same memory at each call.
pub fn number_of(text: &[u8], names: &[usize], bound: usize, x: &[u8]) -> Option<usize>
    ensures { (sc : Scope) → Scoped text.now names.now bound sc → number_is result ≡ number_of sc x.now }
{
    for i in 0..bound {
        let a = sign_ahead(text, entry(names, bound - 1 - i, 0));
        if same(cut(text, a.start, a.end), x) {
            return Some(i);
        }
    }
    None
}
