// A sign that is expected.
ghost use Rattle.std.specs.Prelude.{◌≡◌, List, ◌<◌};
ghost use Rattle.std.proofs.Math.Option.{some};
ghost use Rattle.fof_part.specs.Sign as part;
ghost use Rattle.fof_part.specs.Due.{taking};
ghost use Rattle.fof_pass.specs.Codes.{code_is};
ghost use Rattle.fof_pass.specs.Ahead.{signs_at};
ghost use Rattle.fof_pass.specs.Taking.{TakesTo};

use crate::ahead::{Sign, sign_ahead};

// The place behind this sign, if it is ahead.
pub fn take(text: &[u8], at: usize, wanted: Sign) -> Option<usize>
    ensures { code_is wanted < 16 → (ss : List part.Sign) → signs_at text.now at ≡ some ss → TakesTo text.now result (taking (code_is wanted) ss) }
{
    let a = sign_ahead(text, at);
    if a.sign == wanted {
        return Some(a.end);
    }
    None
}
