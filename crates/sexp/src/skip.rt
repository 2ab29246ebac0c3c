// Past an expression at an offset of any bytes (document 01, "comparing and skipping nested terms in bytes, remaining nesting falls").
// Strings are jumped over by their length.
ghost use Rattle.std.specs.Prelude.{◌≡◌, get_or};
ghost use Rattle.sexp.specs.Past.{PastAt, PairEnd};

use crate::decimal::digit;
use crate::strings::opens;
use crate::text::text;

// Past the string at an offset, with its display hint if it has one: past an expression that does not nest. Nearly every length has one digit, and is then read at
// once.
fn past_string(s: &[u8], at: usize) -> Option<usize>
    ensures { PastAt s.now at 0 result }
{
    if s.len() <= at {
        return None;
    }
    if 1 < s.len() - at && s[at + 1] == b':' && digit(s[at]) {
        let end = at + 2 + (s[at] - b'0') as usize;
        if s.len() < end {
            return None;
        }
        return Some(end);
    }
    match text(s, at, true) {
        Ok((_, end)) => Some(end),
        Err(_) => None,
    }
}

// The end of the list at an offset if it is that of a variable or a constant, as most are: two strings, one of one octet and one of fewer than ten. None says
// nothing.
fn pair_end(s: &[u8], at: usize) -> Option<usize>
    requires { get_or s.now at 0 ≡ 40 }
    ensures { PairEnd s.now at result }
{
    if s.len() - at < 8 {
        return None;
    }
    if s[at + 1] != b'1' || s[at + 2] != b':' || s[at + 5] != b':' {
        return None;
    }
    let b = s[at + 4];
    if !digit(b) {
        return None;
    }
    let n = at + 6 + (b - b'0') as usize;
    if n < s.len() && s[n] == b')' {
        Some(n + 1)
    } else {
        None
    }
}

// Past the expression at an offset that nests at most `nest`.
pub fn past(s: &[u8], at: usize, nest: usize) -> Option<usize>
    ensures { PastAt s.now at nest result }
{
    if !opens(s, at) {
        return past_string(s, at);
    }
    if nest == 0 {
        return None;
    }
    if let Some(n) = pair_end(s, at) {
        return Some(n);
    }
    past_list(s, at, nest)
}

// The same where a list opens. Its strings are passed one after the other; what is left of the nesting falls at each list in it.
fn past_list(s: &[u8], at: usize, nest: usize) -> Option<usize>
    requires { get_or s.now at 0 ≡ 40 }
    ensures { PastAt s.now at nest result }
{
    if nest == 0 {
        return None;
    }
    let mut i = at + 1;
    // Kept: each turn jumps over a whole member, so the offset runs over no range.
    while i < s.len() {
        let b = s[i];
        if b == b')' {
            return Some(i + 1);
        }
        if b != b'(' {
            i = past_string(s, i)?;
            continue;
        }
        if nest == 1 {
            return None;
        }
        if let Some(n) = pair_end(s, i) {
            i = n;
            continue;
        }
        i = past_list(s, i, nest - 1)?;
    }
    None
}
