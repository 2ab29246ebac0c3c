// What is found at an offset.
ghost use Rattle.std.specs.Prelude.{◌≡◌};
ghost use Rattle.std.proofs.Math.Option.{none};
ghost use Rattle.fof_tokens.specs.Machine.{gap, token};
ghost use Rattle.fof_tokens.specs.Found.{found_of, ending};

use crate::Kind;

// The longest piece, and where it ends: a space or a comment, which is dropped, or a token.
// Kept: both variants hold where a piece ends, and neither is an absence or a failure.
#[derive(Clone, Copy)]
pub(crate) enum Found {
    Gap { end: usize },
    Token { kind: Kind, end: usize },
}

// A token that ends there, if it does.
pub(crate) fn token_to(kind: Kind, e: Option<usize>) -> Option<Found>
    ensures { found_of result ≡ ending e (token kind) none }
{
    let end = e?;
    Some(Found::Token { kind, end })
}

// A comment that ends there, if it does.
pub(crate) fn gap_to(e: Option<usize>) -> Option<Found>
    ensures { found_of result ≡ ending e gap none }
{
    let end = e?;
    Some(Found::Gap { end })
}
