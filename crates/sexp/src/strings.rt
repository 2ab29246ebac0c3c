// The byte and the plain string at an offset of any bytes (document 01, "The carrier and the words"). Any offset may be asked for, past the end too.
ghost use Rattle.std.specs.Prelude.{◌≡◌, eqb, get_or};
ghost use Rattle.sexp.specs.Strings.{PlainAt};

use crate::text::verbatim;

// The byte at an offset; past the end, 0.
pub fn byte(s: &[u8], at: usize) -> u8
    ensures { result ≡ get_or s.now at 0 }
{
    s.get(at).copied().unwrap_or(0)
}

// Whether a list opens at an offset.
pub fn opens(s: &[u8], at: usize) -> bool
    ensures { result ≡ eqb (get_or s.now at 0) 40 }
{
    byte(s, at) == b'('
}

// Whether a list closes at an offset.
pub fn closes(s: &[u8], at: usize) -> bool
    ensures { result ≡ eqb (get_or s.now at 0) 41 }
{
    byte(s, at) == b')'
}

// The plain string at an offset: its length, a colon, and that many octets. The answer is where the octets lie, and how many they are.
pub fn plain(s: &[u8], at: usize) -> Option<(usize, usize)>
    ensures { PlainAt s.now at result }
{
    if s.len() < at {
        return None;
    }
    match verbatim(s, at) {
        Err(_) => None,
        Ok((from, to)) => Some((from, to - from)),
    }
}
