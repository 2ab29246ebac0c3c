// Numbers, as long as they can be.
ghost use Rattle.std.specs.Prelude.{◌≡◌, true, List, [], ◌∷◌, ℕ, drop, get_or};
ghost use Rattle.std.proofs.Math.Option.{Option, none, some};
ghost use Rattle.fof_tokens.specs.Bytes.{is_digit};
ghost use Rattle.fof_tokens.specs.Token.{exponent};
ghost use Rattle.fof_tokens.specs.declared.Kind.TheVariants.{Real};
ghost use Rattle.fof_tokens.specs.Machine.{Sort, token, Row, scan};
ghost use Rattle.fof_tokens.specs.Begins.{Digits, exponent_digits, after_decimal, unsigned, after_minus};
ghost use Rattle.fof_tokens.specs.Found.{found_of, ending};

use crate::Kind;
use crate::bytes::{is_exponent, is_nonzero, is_sign};
use crate::found::Found;
use crate::run::{Class, run_end};
use sexp::byte;

// Where the digits of an exponent end that starts at `at`, perhaps with a sign.
fn power_end(text: &[u8], at: usize) -> Option<usize>
    ensures { (s : Sort) (last : Option (Sort × ℕ)) → scan (exponent_digits s) at last (drop at text.now) ≡ ending result s last }
{
    let c = byte(text, at);
    if c.is_ascii_digit() {
        return Some(run_end(text, at + 1, Class::Digit));
    }
    if !is_sign(c) {
        return None;
    }
    if !byte(text, at + 1).is_ascii_digit() {
        return None;
    }
    Some(run_end(text, at + 2, Class::Digit))
}

// Where the exponent at `at` ends, if one stands there.
fn exponent_end(text: &[u8], at: usize) -> Option<usize>
    ensures { (s : Sort) (last : Option (Sort × ℕ)) → scan ((s, exponent) ∷ []) at last (drop at text.now) ≡ ending result s last }
{
    if !is_exponent(byte(text, at)) {
        return None;
    }
    power_end(text, at + 1)
}

// The real whose digits before the exponent end at `at`; `short` is the kind if there is no exponent.
fn with_exponent(text: &[u8], at: usize, short: Kind) -> Option<Found>
    ensures { found_of result ≡ scan ((token Real, exponent) ∷ []) at (some (token short, at)) (drop at text.now) }
{
    match exponent_end(text, at) {
        None => Some(Found::Token {
            kind: short,
            end: at,
        }),
        Some(end) => Some(Found::Token {
            kind: Kind::Real,
            end,
        }),
    }
}

// The number whose digits before a point, a slash or an exponent end at `at`.
pub(crate) fn number_tail(text: &[u8], at: usize) -> Option<Found>
    ensures { (last : Option (Sort × ℕ)) → found_of result ≡ scan after_decimal at last (drop at text.now) }
{
    let c = byte(text, at);
    if c == 47 {
        if !is_nonzero(byte(text, at + 1)) {
            return Some(Found::Token {
                kind: Kind::Integer,
                end: at,
            });
        }
        let end = run_end(text, at + 2, Class::Digit);
        return Some(Found::Token {
            kind: Kind::Rational,
            end,
        });
    }
    if c == 46 {
        if !byte(text, at + 1).is_ascii_digit() {
            return Some(Found::Token {
                kind: Kind::Integer,
                end: at,
            });
        }
        let end = run_end(text, at + 2, Class::Digit);
        return with_exponent(text, end, Kind::Real);
    }
    with_exponent(text, at, Kind::Integer)
}

// The number whose first digit is at `at`, if one stands there.
fn number(text: &[u8], at: usize) -> Option<Found>
    ensures { (q : List Row) (last : Option (Sort × ℕ)) → Digits q → is_digit (get_or text.now at 0) ≡ true → found_of result ≡ scan q at last (drop at text.now) }
{
    let c = byte(text, at);
    if c == 48 {
        return number_tail(text, at + 1);
    }
    if !is_nonzero(c) {
        return None;
    }
    let end = run_end(text, at + 1, Class::Digit);
    number_tail(text, end)
}

// The number whose plus is before `at`.
pub(crate) fn plus(text: &[u8], at: usize) -> Option<Found>
    ensures { found_of result ≡ scan unsigned at none (drop at text.now) }
{
    if !byte(text, at).is_ascii_digit() {
        return None;
    }
    number(text, at)
}

// The number or sign whose minus is before `at`.
pub(crate) fn minus(text: &[u8], at: usize) -> Option<Found>
    ensures { found_of result ≡ scan after_minus at none (drop at text.now) }
{
    let c = byte(text, at);
    if c.is_ascii_digit() {
        return number(text, at);
    }
    if c != 45 {
        return Some(Found::Token {
            kind: Kind::Minus,
            end: at,
        });
    }
    if byte(text, at + 1) != 62 {
        return Some(Found::Token {
            kind: Kind::Minus,
            end: at,
        });
    }
    Some(Found::Token {
        kind: Kind::Sequent,
        end: at + 2,
    })
}
