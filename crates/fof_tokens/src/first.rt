// What a piece may be, by its first byte.
ghost use Rattle.fof_tokens.specs.Begins.{Begins, SignOf};

use crate::Kind;
use crate::bytes::{is_nonzero, is_space};

#[derive(Clone, Copy)]
pub(crate) enum First {
    Space,
    // %
    Percent,
    // /
    Slash,
    // a letter, and the kind of its word
    Letter(Kind),
    // '
    Quote,
    // "
    DoubleQuote,
    Dollar,
    Zero,
    // 1 to 9
    Nonzero,
    Plus,
    Minus,
    // a sign that no longer token begins with
    Single(Kind),
    // a sign, or another with one byte more
    Double { short: Kind, more: u8, long: Kind },
    // ~
    Tilde,
    // <
    Less,
    // Kept: a byte that begins nothing is one of sixteen answers, and an Option would wrap the others in each arm.
    Nothing,
}

// Signs, by their first byte.
fn sign_first(c: u8) -> First
    ensures { SignOf c result }
{
    match c {
        b'(' => First::Single(Kind::OpenParen),
        b')' => First::Single(Kind::CloseParen),
        b'[' => First::Single(Kind::OpenBracket),
        b']' => First::Single(Kind::CloseBracket),
        b'{' => First::Single(Kind::OpenBrace),
        b'}' => First::Single(Kind::CloseBrace),
        b',' => First::Single(Kind::Comma),
        b'.' => First::Single(Kind::Dot),
        b':' => First::Single(Kind::Colon),
        b'?' => First::Single(Kind::Exists),
        b'&' => First::Single(Kind::And),
        b'|' => First::Single(Kind::Or),
        b'!' => First::Double {
            short: Kind::ForAll,
            more: b'=',
            long: Kind::Unequal,
        },
        b'=' => First::Double {
            short: Kind::Equal,
            more: b'>',
            long: Kind::Implies,
        },
        b'~' => First::Tilde,
        b'<' => First::Less,
        b'+' => First::Plus,
        b'-' => First::Minus,
        _ => First::Nothing,
    }
}

pub(crate) fn begin(c: u8) -> First
    ensures { Begins c result }
{
    if is_space(c) {
        return First::Space;
    }
    if c.is_ascii_lowercase() {
        return First::Letter(Kind::Lower);
    }
    if c.is_ascii_uppercase() {
        return First::Letter(Kind::Upper);
    }
    if is_nonzero(c) {
        return First::Nonzero;
    }
    match c {
        b'%' => First::Percent,
        b'/' => First::Slash,
        b'\'' => First::Quote,
        b'"' => First::DoubleQuote,
        b'$' => First::Dollar,
        b'0' => First::Zero,
        _ => sign_first(c),
    }
}
