// Words, names and numbers among the plain strings at an offset of any bytes (document 01, "The carrier and the words").
ghost use Rattle.std.specs.Prelude.{◌≡◌};
ghost use Rattle.basics.specs.Tells.{Tells};
ghost use Rattle.sexp.specs.Sexp.{Sexp, str, Stands};
ghost use Rattle.sexp.specs.Words.{is_letter, is_name_octet, is_name};
ghost use Rattle.sexp.specs.WordsAt.{Named, Shared, ShortAt, NumeralOf, NumberAt};

use crate::decimal::{Num, digit, number as digits};
use crate::strings::plain;

// Whether two rows of octets are the same.
pub fn same(a: &[u8], b: &[u8]) -> bool
    ensures { Tells result (a.now ≡ b.now) }
{
    a == b
}

// Whether a given word stands at an offset. One of fewer than ten octets is spelt as one digit, a colon and its octets: those bytes are compared.
pub fn is_word(s: &[u8], at: usize, word: &[u8]) -> bool
    ensures { Tells result (Stands s.now at (str word.now)) }
{
    let count = word.len();
    if 9 < count {
        return is_word_long(s, at, word);
    }
    if s.len() < at {
        return false;
    }
    if s.len() - at < count + 2 {
        return false;
    }
    if s[at] != b'0' + count as u8 {
        return false;
    }
    if s[at + 1] != b':' {
        return false;
    }
    let from = at + 2;
    same(&s[from..from + count], word)
}

// The same for a word of any length.
fn is_word_long(s: &[u8], at: usize, word: &[u8]) -> bool
    ensures { Tells result (Stands s.now at (str word.now)) }
{
    let Some((from, count)) = plain(s, at) else {
        return false;
    };
    same(&s[from..from + count], word)
}

// How many octets the plain string at an offset has, if its length is one digit. None says nothing.
fn short(s: &[u8], at: usize) -> Option<usize>
    ensures { ShortAt s.now at result }
{
    if s.len() <= at || s.len() - at < 2 || s[at + 1] != b':' || !digit(s[at]) {
        return None;
    }
    let count = (s[at] - b'0') as usize;
    if count < s.len() - at - 1 {
        Some(count)
    } else {
        None
    }
}

// Whether the same plain string stands at two offsets. Nearly every length has one digit, and is then read at once.
pub fn same_text(s: &[u8], i: usize, t: &[u8], j: usize) -> bool
    ensures { Tells result (Shared s.now i t.now j) }
{
    let Some(count) = short(t, j) else {
        return same_text_long(s, i, t, j);
    };
    let from = j + 2;
    is_word(s, i, &t[from..from + count])
}

// The same for strings of any length.
fn same_text_long(s: &[u8], i: usize, t: &[u8], j: usize) -> bool
    ensures { Tells result (Shared s.now i t.now j) }
{
    let Some((from, count)) = plain(t, j) else {
        return false;
    };
    is_word(s, i, &t[from..from + count])
}

fn letter(b: u8) -> bool
    ensures { result ≡ is_letter b }
{
    b.is_ascii_lowercase()
}

fn name_octet(b: u8) -> bool
    ensures { result ≡ is_name_octet b }
{
    letter(b) || digit(b) || b == b'_'
}

// Whether octets are a name.
pub fn is_name_of(w: &[u8]) -> bool
    ensures { result ≡ is_name w.now }
{
    if 32 < w.len() {
        return false;
    }
    let Some((first, rest)) = w.split_first() else {
        return false;
    };
    letter(*first) && rest.iter().all(|b| name_octet(*b))
}

// Whether a name stands at an offset.
pub fn is_name(s: &[u8], at: usize) -> bool
    ensures { Tells result (Named s.now at) }
{
    let Some((from, count)) = plain(s, at) else {
        return false;
    };
    is_name_of(&s[from..from + count])
}

// What octets say, if they are a number of one to three digits without a leading zero.
pub fn number_of(w: &[u8]) -> Option<usize>
    ensures { NumeralOf w.now result }
{
    if w.is_empty() {
        return None;
    }
    if 3 < w.len() {
        return None;
    }
    if !digit(w[0]) {
        return None;
    }
    let Num { value, next } = digits(w, 0);
    if next == w.len() { Some(value) } else { None }
}

// What the number at an offset says. Nearly every number has one digit, and is then read at once.
pub fn number(s: &[u8], at: usize) -> Option<usize>
    ensures { NumberAt s.now at result }
{
    if at < s.len() && 2 < s.len() - at && s[at] == b'1' && s[at + 1] == b':' && digit(s[at + 2]) {
        return Some((s[at + 2] - b'0') as usize);
    }
    number_long(s, at)
}

// The same for any number of digits.
fn number_long(s: &[u8], at: usize) -> Option<usize>
    ensures { NumberAt s.now at result }
{
    let (from, count) = plain(s, at)?;
    number_of(&s[from..from + count])
}
