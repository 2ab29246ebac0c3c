// Strings in bytes (document 01, "The carrier and the words"): where the one at an offset ends, or where the bytes stop being one.
ghost use Rattle.std.specs.Prelude.{◌<◌, ◌≤◌, length};
ghost use Rattle.sexp.specs.Text.{VerbatimAt, TextAt};

use crate::decimal::{Num, digit, number};

// The string at `at`: its length, a colon, and that many octets, from the first offset of the answer to the second, where it ends. On Err, the bytes up to there
// could begin a string, and with the next byte they could not. Nearly every length has one digit, and is then read at once.
pub(crate) fn verbatim(s: &[u8], at: usize) -> Result<(usize, usize), usize>
    requires { at ≤ length s.now }
    ensures { VerbatimAt s.now at result }
{
    if 1 < s.len() - at && s[at + 1] == b':' && digit(s[at]) {
        let count = (s[at] - b'0') as usize;
        if count < s.len() - at - 1 {
            return Ok((at + 2, at + 2 + count));
        }
    }
    verbatim_long(s, at)
}

// The same for a length of any number of digits.
fn verbatim_long(s: &[u8], at: usize) -> Result<(usize, usize), usize>
    requires { at ≤ length s.now }
    ensures { VerbatimAt s.now at result }
{
    if at == s.len() {
        return Err(at);
    }
    if !digit(s[at]) {
        return Err(at);
    }
    let Num { value, next } = number(s, at);
    if next == s.len() {
        return Err(next);
    }
    if s[next] != b':' {
        return Err(next);
    }
    if value < s.len() - next {
        Ok((next + 1, next + 1 + value))
    } else {
        Err(s.len())
    }
}

// The string at `at`, with its display hint if it has one and hints are read.
pub(crate) fn text(s: &[u8], at: usize, hints: bool) -> Result<(usize, usize), usize>
    requires { at < length s.now }
    ensures { TextAt hints s.now at result }
{
    if !hints {
        return verbatim(s, at);
    }
    if s[at] != b'[' {
        return verbatim(s, at);
    }
    let (_, to) = verbatim(s, at + 1)?;
    if to == s.len() {
        return Err(to);
    }
    if s[to] != b']' {
        return Err(to);
    }
    verbatim(s, to + 1)
}
