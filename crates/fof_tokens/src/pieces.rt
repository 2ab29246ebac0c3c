// The longest piece at an offset: a space, a comment or a token.
ghost use Rattle.std.specs.Prelude.{◌≡◌, drop};
ghost use Rattle.fof_tokens.specs.Next.{piece_at};
ghost use Rattle.fof_tokens.specs.Begins.{rest_of};
ghost use Rattle.fof_tokens.specs.Found.{found_of};

use crate::Kind;
use crate::first::{First, begin};
use crate::found::{Found, gap_to, token_to};
use crate::gaps::block_end;
use crate::numbers::{minus, number_tail, plus};
use crate::run::{Class, run_end};
use crate::signs::{less, one_more, tilde};
use crate::words::{dollar, quoted, quoted_end};

// The piece whose first byte, before `at`, is such.
fn rest(text: &[u8], at: usize, f: First) -> Option<Found>
    ensures { found_of result ≡ rest_of f at (drop at text.now) }
{
    match f {
        First::Nothing => None,
        First::Space => Some(Found::Gap { end: at }),
        First::Percent => Some(Found::Gap {
            end: run_end(text, at, Class::Line),
        }),
        First::Slash => gap_to(block_end(text, at)),
        First::Letter(kind) => Some(Found::Token {
            kind,
            end: run_end(text, at, Class::Alnum),
        }),
        First::Quote => quoted(text, at),
        First::DoubleQuote => token_to(Kind::Distinct, quoted_end(text, at, 34)),
        First::Dollar => dollar(text, at),
        First::Zero => number_tail(text, at),
        First::Nonzero => number_tail(text, run_end(text, at, Class::Digit)),
        First::Plus => plus(text, at),
        First::Minus => minus(text, at),
        First::Single(kind) => Some(Found::Token { kind, end: at }),
        First::Double { short, more, long } => one_more(text, at, short, more, long),
        First::Tilde => tilde(text, at),
        First::Less => less(text, at),
    }
}

pub(crate) fn piece_at(text: &[u8], at: usize) -> Option<Found>
    ensures { found_of result ≡ piece_at at (drop at text.now) }
{
    if text.len() <= at {
        return None;
    }
    rest(text, at + 1, begin(text[at]))
}
