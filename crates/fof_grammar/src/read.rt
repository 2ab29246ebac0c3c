// The tokens of a text, by their numbers (crate fof_productions, specs/Coded).
ghost use Rattle.std.specs.Prelude.{◌≡◌, ◌≤◌, length};
ghost use Rattle.fof_tokens.specs.declared.Kind.TheVariants as K;
ghost use Rattle.fof_productions.specs.Terminal.{terminal, code};
ghost use Rattle.fof_grammar.specs.Read.{ReadAs};

use fof_tokens::{Kind, NoToken, next_token};
use sexp::same;

fn lower_word(w: &[u8]) -> u8
    ensures { result ≡ code (terminal K.Lower w.now) }
{
    if same(w, b"fof") { 0 } else { 1 }
}

fn dollar_word(w: &[u8]) -> u8
    ensures { result ≡ code (terminal K.Dollar w.now) }
{
    if same(w, b"$fof") {
        return 5;
    }
    if same(w, b"$cnf") {
        return 6;
    }
    if same(w, b"$fot") { 7 } else { 8 }
}

// The number of a token of a kind with these bytes.
// Kept: the number is the column of the tables (`code`), and a byte of the list that is lent.
fn number(kind: Kind, w: &[u8]) -> u8
    ensures { result ≡ code (terminal kind w.now) }
{
    match kind {
        Kind::Lower => lower_word(w),
        Kind::Dollar => dollar_word(w),
        Kind::Quoted => 2,
        Kind::Upper => 3,
        Kind::Distinct => 4,
        Kind::DoubleDollar => 9,
        Kind::Integer => 10,
        Kind::Rational => 11,
        Kind::Real => 12,
        Kind::OpenParen => 13,
        Kind::CloseParen => 14,
        Kind::OpenBracket => 15,
        Kind::CloseBracket => 16,
        Kind::OpenBrace => 17,
        Kind::CloseBrace => 18,
        Kind::Comma => 19,
        Kind::Dot => 20,
        Kind::Colon => 21,
        Kind::Minus => 22,
        Kind::ForAll => 23,
        Kind::Exists => 24,
        Kind::Not => 25,
        Kind::And => 26,
        Kind::Or => 27,
        Kind::Equal => 28,
        Kind::Unequal => 29,
        Kind::Implies => 30,
        Kind::ImpliedBy => 31,
        Kind::Iff => 32,
        Kind::Xor => 33,
        Kind::Nor => 34,
        Kind::Nand => 35,
        Kind::Sequent => 36,
    }
}

// The numbers of the tokens of a text into a list that is as long as the text: how many there are, unless something in the text is none.
pub fn read(text: &[u8], codes: &mut [u8]) -> Result<usize, NoToken>
    requires { length text.now ≤ length codes.old }
    ensures { ReadAs text.now codes.new result }
{
    let mut at = 0;
    let mut n = 0;
    while let Some(token) = next_token(text, at)? {
        codes[n] = number(token.kind, &text[token.start..token.end]);
        n += 1;
        at = token.end;
    }
    Ok(n)
}
