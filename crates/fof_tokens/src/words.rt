// Words behind dollars, and text in quotes.
ghost use Rattle.std.specs.Prelude.{◌≡◌, true, ℕ, drop};
ghost use Rattle.std.proofs.Math.Option.{Option, none};
ghost use Rattle.fof_tokens.specs.Machine.{Sort, scan};
ghost use Rattle.fof_tokens.specs.Begins.{is_quote, in_quotes, quote_open, dollars};
ghost use Rattle.fof_tokens.specs.Found.{found_of, ending};

use crate::Kind;
use crate::bytes::{is_escaped, is_printable};
use crate::found::{Found, token_to};
use crate::run::{Class, run_end};
use sexp::byte;

// The word behind a dollar, or behind two.
pub(crate) fn dollar(text: &[u8], at: usize) -> Option<Found>
    ensures { found_of result ≡ scan dollars at none (drop at text.now) }
{
    let c = byte(text, at);
    if c.is_ascii_lowercase() {
        return Some(Found::Token {
            kind: Kind::Dollar,
            end: run_end(text, at + 1, Class::Alnum),
        });
    }
    if c != 36 {
        return None;
    }
    if !byte(text, at + 1).is_ascii_lowercase() {
        return None;
    }
    Some(Found::Token {
        kind: Kind::DoubleDollar,
        end: run_end(text, at + 2, Class::Alnum),
    })
}

// Where the text ends whose opening quote is before `at`, if a closing one comes.
pub(crate) fn quoted_end(text: &[u8], at: usize, quote: u8) -> Option<usize>
    requires { is_quote quote ≡ true }
    ensures { (s : Sort) (last : Option (Sort × ℕ)) → scan (in_quotes quote s) at last (drop at text.now) ≡ ending result s last }
{
    let mut i = at;
    // Kept: a backslash goes with the byte behind it, so the index steps by one or by two.
    while i < text.len() {
        let c = text[i];
        if c == quote {
            return Some(i + 1);
        }
        if c == 92 {
            if !is_escaped(quote, byte(text, i + 1)) {
                return None;
            }
            i += 2;
            continue;
        }
        if !is_printable(c) {
            return None;
        }
        i += 1;
    }
    None
}

// The text in single quotes whose opening quote is before `at`: not an empty one.
pub(crate) fn quoted(text: &[u8], at: usize) -> Option<Found>
    ensures { found_of result ≡ scan quote_open at none (drop at text.now) }
{
    if byte(text, at) == 39 {
        return None;
    }
    token_to(Kind::Quoted, quoted_end(text, at, 39))
}
