// The classes of bytes that tokens are made of (specs/Bytes), where the library has none.
ghost use Rattle.std.specs.Prelude.{◌≡◌};
ghost use Rattle.fof_tokens.specs.Bytes.{within, is_space, is_alnum, is_nonzero, is_sign, is_exponent, is_escaped};

#[tactic(auto, unfolding(crate::specs::Bytes::is_space))]
pub(crate) fn is_space(c: u8) -> bool
    ensures { result ≡ is_space c }
{
    matches!(c, 9..=13 | b' ')
}

pub(crate) fn is_nonzero(c: u8) -> bool
    ensures { result ≡ is_nonzero c }
{
    matches!(c, b'1'..=b'9')
}

#[tactic(auto, unfolding(crate::specs::Bytes::is_alnum))]
pub(crate) fn is_alnum(c: u8) -> bool
    ensures { result ≡ is_alnum c }
{
    c.is_ascii_alphanumeric() || c == b'_'
}

// Kept: this and `is_exponent` each tell two bytes, by a definition of its own; the two bytes as parameters would be no plainer than `matches!`.
#[tactic(auto, unfolding(crate::specs::Bytes::is_sign))]
pub(crate) fn is_sign(c: u8) -> bool
    ensures { result ≡ is_sign c }
{
    matches!(c, b'+' | b'-')
}

#[tactic(auto, unfolding(crate::specs::Bytes::is_exponent))]
pub(crate) fn is_exponent(c: u8) -> bool
    ensures { result ≡ is_exponent c }
{
    matches!(c, b'E' | b'e')
}

// What may stand between quotes as it is, where it is neither the quote nor the backslash.
pub(crate) fn is_printable(c: u8) -> bool
    ensures { result ≡ within 32 126 c }
{
    matches!(c, b' '..=b'~')
}

#[tactic(auto, unfolding(crate::specs::Bytes::is_escaped))]
pub(crate) fn is_escaped(quote: u8, c: u8) -> bool
    ensures { result ≡ is_escaped quote c }
{
    c == b'\\' || c == quote
}
