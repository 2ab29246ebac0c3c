// Signs that another sign begins: the longest counts.
ghost use Rattle.std.specs.Prelude.{◌≡◌, drop};
ghost use Rattle.std.proofs.Math.Option.{none};
ghost use Rattle.fof_tokens.specs.Machine.{scan};
ghost use Rattle.fof_tokens.specs.Begins.{one_more, after_tilde, after_less};
ghost use Rattle.fof_tokens.specs.Found.{found_of};

use crate::Kind;
use crate::found::Found;
use sexp::byte;

// The sign that ends at `at`, or the one with the byte `more` besides.
pub(crate) fn one_more(text: &[u8], at: usize, short: Kind, more: u8, long: Kind) -> Option<Found>
    ensures { found_of result ≡ scan (one_more short more long) at none (drop at text.now) }
{
    if text.len() <= at {
        return Some(Found::Token {
            kind: short,
            end: at,
        });
    }
    if text[at] != more {
        return Some(Found::Token {
            kind: short,
            end: at,
        });
    }
    Some(Found::Token {
        kind: long,
        end: at + 1,
    })
}

// ~ before `at`, or ~| or ~&
// Kept: two bytes can follow here and one in `one_more`, and `after_tilde` is a definition of its own.
pub(crate) fn tilde(text: &[u8], at: usize) -> Option<Found>
    ensures { found_of result ≡ scan after_tilde at none (drop at text.now) }
{
    let c = byte(text, at);
    if c == 124 {
        return Some(Found::Token {
            kind: Kind::Nor,
            end: at + 1,
        });
    }
    if c == 38 {
        return Some(Found::Token {
            kind: Kind::Nand,
            end: at + 1,
        });
    }
    Some(Found::Token {
        kind: Kind::Not,
        end: at,
    })
}

// <= or <=> or <~>, whose < is before `at`
pub(crate) fn less(text: &[u8], at: usize) -> Option<Found>
    ensures { found_of result ≡ scan after_less at none (drop at text.now) }
{
    let c = byte(text, at);
    if c == 61 {
        return one_more(text, at + 1, Kind::ImpliedBy, 62, Kind::Iff);
    }
    if c != 126 {
        return None;
    }
    if byte(text, at + 1) != 62 {
        return None;
    }
    Some(Found::Token {
        kind: Kind::Xor,
        end: at + 2,
    })
}
