// The first barred term of an expression that is built from the table of words, on bytes (document 01, refusal 5). The bytes are walked once; what is left of
// the nesting falls at each list.
ghost use Rattle.std.specs.Prelude.{◌≡◌, true, List, ℕ, ◌+◌, ◌≤◌, length, Ok, Err};
ghost use Rattle.basics.specs.Choice.{choose};
ghost use Rattle.sexp.specs.Sexp.{Sexp, Sexps, str, spell, nesting, nestings, Stands, StandsAll};
ghost use Rattle.sexp.specs.Words.{is_number, worth};
ghost use Rattle.packet.specs.Barred.{parameter_ok, sort_of};
ghost use Rattle.reader.specs.Bars.{Tabled, Tableds, TextEnds, sort_as, bars_of, bars_in};

use crate::words::word_of;
use packet::Word;

// What a list is by its word.
// Kept: four cases with no value, as the definition has them (`Sort`, specs/Barred of crate `packet`).
#[derive(Clone, Copy)]
pub(crate) enum Sort {
    Variable,
    Parameter,
    Quantifier,
    Other,
}

#[tactic(auto, unfolding(packet::specs::Barred::sort_of))]
fn sort_of(w: Word) -> Sort
    ensures { result ≡ sort_as (sort_of w) }
{
    match w {
        Word::V => Sort::Variable,
        Word::E => Sort::Parameter,
        Word::Some | Word::All => Sort::Quantifier,
        _ => Sort::Other,
    }
}

// Whether a file may hold parameter k.
#[tactic(auto, unfolding(packet::specs::Barred::parameter_ok))]
fn parameter_ok(holds: bool, k: usize) -> bool
    ensures { result ≡ parameter_ok holds k }
{
    holds && 1 <= k && k <= 64
}

// What the number at an offset says.
fn number_at(s: &[u8], at: usize) -> usize
    ensures { (w : List ℕ) → Stands s.now at (str w) → is_number w ≡ true → result ≡ worth w }
{
    sexp::number(s, at).unwrap_or(0)
}

// Past the plain string at an offset.
fn past_text(s: &[u8], at: usize) -> usize
    ensures { TextEnds s.now at result }
{
    match sexp::plain(s, at) {
        None => s.len(),
        Some((from, count)) => from + count,
    }
}

// A term that opens at `at` and whose number stands at `to`, allowed there or not.
fn term_bars(s: &[u8], at: usize, to: usize, ok: bool) -> Result<usize, usize>
    ensures { (w : List ℕ) → Stands s.now to (str w) → result ≡ choose ok (Ok (to + length (spell (str w)) + 1)) (Err at) }
{
    if ok {
        let end = past_text(s, to);
        return Ok(end + 1);
    }
    Err(at)
}

// Where an expression with n quantifiers around it ends; or the opening of its first barred term.
// Kept: `at`, `nest` and `n` are others at each call, so a struct would be made anew there; only `s` and `holds` stay, in these two functions.
#[cycle(bars)]
pub(crate) fn bars_at(
    s: &[u8],
    at: usize,
    nest: usize,
    n: usize,
    holds: bool,
) -> Result<usize, usize>
    requires { n + nest ≤ 64 }
    ensures { (e : Sexp) → Tabled e → Stands s.now at e → nesting e ≤ nest → result ≡ bars_of holds n at e }
{
    if !sexp::opens(s, at) {
        return Ok(past_text(s, at));
    }
    if nest == 0 {
        return Err(at);
    }
    let Some((from, count)) = sexp::plain(s, at + 1) else {
        return Ok(at + 2);
    };
    let to = from + count;
    match sort_of(word_of(&s[from..to])) {
        Sort::Variable => {
            let k = number_at(s, to);
            term_bars(s, at, to, k < n)
        }
        Sort::Parameter => {
            let k = number_at(s, to);
            term_bars(s, at, to, parameter_ok(holds, k))
        }
        Sort::Quantifier => bars_in(s, to, nest - 1, n + 1, holds),
        Sort::Other => bars_in(s, to, nest - 1, n, holds),
    }
}

// The members of a list, and its closing parenthesis.
#[cycle(bars)]
fn bars_in(s: &[u8], at: usize, nest: usize, n: usize, holds: bool) -> Result<usize, usize>
    requires { n + nest ≤ 64 }
    ensures { (xs : Sexps) → Tableds xs → StandsAll s.now at xs → nestings xs ≤ nest → result ≡ bars_in holds n at xs }
{
    let mut i = at;
    // Kept: i goes from member to member, and no index is counted.
    while i < s.len() {
        if sexp::closes(s, i) {
            return Ok(i + 1);
        }
        let to = bars_at(s, i, nest, n, holds)?;
        if to <= i {
            return Err(i);
        }
        i = to;
    }
    Err(i)
}
