// The sign ahead of an offset.
ghost use Rattle.std.specs.Prelude.{◌≡◌};
ghost use Rattle.fof_tokens.specs.declared.Kind.TheVariants as K;
ghost use Rattle.fof_part.specs.Sign.{code, sign_of};
ghost use Rattle.fof_pass.specs.declared.ahead.Sign.TheVariants as S;
ghost use Rattle.fof_pass.specs.Codes.{code_is};
ghost use Rattle.fof_pass.specs.Ahead.{between, Aheads};

use fof_tokens::{Kind, next_token};
use sexp::same;

// A sign, named after what it says in a formula.
#[derive(Clone, Copy, PartialEq, Eq)]
pub enum Sign {
    // a word that starts with a small letter
    Lower,
    // a word that starts with a capital
    Upper,
    // $true
    Truth,
    // (
    Opens,
    // )
    Closes,
    // [
    Lists,
    // ]
    Ends,
    // ,
    Comma,
    // :
    Colon,
    // .
    Dot,
    // !
    Every,
    // ?
    Exist,
    // &
    Both,
    // |
    Either,
    // =>
    Then,
    // any other token
    Other,
    // Kept: that none is there has its number beside the signs' (`code_is` and `code_ahead`, 16), and a plan refuses it with them; an Option would part what one match tells.
    // none is there
    Nothing,
}

// A sign, and where its bytes start and end.
#[derive(Clone, Copy)]
pub struct Ahead {
    pub sign: Sign,
    pub start: usize,
    pub end: usize,
}

// The bytes from one place to another.
// Kept: places in the text are what a token and `Ahead` say (`between`, `Aheads`), beyond its end too, and this makes the piece of them.
pub fn cut(text: &[u8], start: usize, end: usize) -> &[u8]
    ensures { result.now ≡ between text.now start end }
{
    let e = end.min(text.len());
    let s = start.min(e);
    &text[s..e]
}

// A word behind a dollar.
fn dollar_sign(w: &[u8]) -> Sign
    ensures { code_is result ≡ code (sign_of K.Dollar w.now) }
{
    if same(w, b"$true") {
        return Sign::Truth;
    }
    Sign::Other
}

// A sign, by its kind and its bytes.
fn sign_of(kind: Kind, w: &[u8]) -> Sign
    ensures { code_is result ≡ code (sign_of kind w.now) }
{
    match kind {
        Kind::Lower => Sign::Lower,
        Kind::Upper => Sign::Upper,
        Kind::Dollar => dollar_sign(w),
        Kind::OpenParen => Sign::Opens,
        Kind::CloseParen => Sign::Closes,
        Kind::OpenBracket => Sign::Lists,
        Kind::CloseBracket => Sign::Ends,
        Kind::Comma => Sign::Comma,
        Kind::Colon => Sign::Colon,
        Kind::Dot => Sign::Dot,
        Kind::ForAll => Sign::Every,
        Kind::Exists => Sign::Exist,
        Kind::And => Sign::Both,
        Kind::Or => Sign::Either,
        Kind::Implies => Sign::Then,
        Kind::Quoted => Sign::Other,
        Kind::Distinct => Sign::Other,
        Kind::DoubleDollar => Sign::Other,
        Kind::Integer => Sign::Other,
        Kind::Rational => Sign::Other,
        Kind::Real => Sign::Other,
        Kind::OpenBrace => Sign::Other,
        Kind::CloseBrace => Sign::Other,
        Kind::Minus => Sign::Other,
        Kind::Not => Sign::Other,
        Kind::Equal => Sign::Other,
        Kind::Unequal => Sign::Other,
        Kind::ImpliedBy => Sign::Other,
        Kind::Iff => Sign::Other,
        Kind::Xor => Sign::Other,
        Kind::Nor => Sign::Other,
        Kind::Nand => Sign::Other,
        Kind::Sequent => Sign::Other,
    }
}

// No sign.
fn none_at(at: usize) -> Ahead
    ensures { result ≡ record { sign = S.Nothing; start = at; end = at } }
{
    Ahead {
        sign: Sign::Nothing,
        start: at,
        end: at,
    }
}

// What is ahead of an offset.
pub fn sign_ahead(text: &[u8], at: usize) -> Ahead
    ensures { Aheads text.now at result }
{
    match next_token(text, at) {
        Ok(None) => none_at(at),
        Err(_) => none_at(at),
        Ok(Some(token)) => {
            let sign = sign_of(token.kind, cut(text, token.start, token.end));
            Ahead {
                sign,
                start: token.start,
                end: token.end,
            }
        }
    }
}
