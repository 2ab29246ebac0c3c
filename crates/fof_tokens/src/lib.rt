// The tokens of TPTP's `fof` lines (document 02, request One): what is next in a text, from any offset on.
// `bytes` tells the classes of bytes, `run` passes bytes of one class, `first` tells by its first byte what a piece may be; `gaps`, `words`, `numbers` and `signs` find its end,
// `pieces` the longest piece at an offset, and `next` the next token.
#![tactic(auto)]

mod bytes;
mod first;
mod found;
mod gaps;
mod next;
mod numbers;
mod pieces;
mod run;
mod signs;
mod words;

pub use next::next_token;

// The kinds of token. The signs are named after what they say in a formula.
#[derive(Clone, Copy)]
pub enum Kind {
    // a word that starts with a small letter: fof, axiom, is_shut
    Lower,
    // a word that starts with a capital: X, Pipe_1
    Upper,
    // text in single quotes, at least one character: 'a b'
    Quoted,
    // a distinct object, text in double quotes: "a b"
    Distinct,
    // a dollar word: $true
    Dollar,
    // a word with two dollars: $$own
    DoubleDollar,
    // 0, -12
    Integer,
    // 1/2
    Rational,
    // 1.5, 1e10
    Real,
    // (
    OpenParen,
    // )
    CloseParen,
    // [
    OpenBracket,
    // ]
    CloseBracket,
    // {
    OpenBrace,
    // }
    CloseBrace,
    // ,
    Comma,
    // .
    Dot,
    // :
    Colon,
    // -
    Minus,
    // !
    ForAll,
    // ?
    Exists,
    // ~
    Not,
    // &
    And,
    // |
    Or,
    // =
    Equal,
    // !=
    Unequal,
    // =>
    Implies,
    // <=
    ImpliedBy,
    // <=>
    Iff,
    // <~>
    Xor,
    // ~|
    Nor,
    // ~&
    Nand,
    // -->
    Sequent,
}

// A token, from the byte at `start` to the one before `end`.
#[derive(Clone, Copy)]
pub struct Token {
    pub kind: Kind,
    pub start: usize,
    pub end: usize,
}

// What comes next is no token, no space and no comment.
#[derive(Clone, Copy)]
pub struct NoToken;
