// The words of the table in bytes (document 01, "Each word below is the first string of its list"). A word is told by one number made of its octets.
ghost use Rattle.std.specs.Prelude.{ℕ, ◌+◌, ◌≤◌, ◌≡◌, List, true, length, get_or, take, drop};
ghost use Rattle.reader.specs.Key.{Keyed};
ghost use Rattle.packet.specs.Table.{word_of};
ghost use Rattle.reader.specs.WordAt.{WordAt};

use packet::Word;

// The longest word has so many octets.
const LONGEST: usize = 5;

// The number of some octets: a 1, and then the octets, each two digits in hexadecimal.
fn key(w: &[u8]) -> u64
    requires { length w.now ≤ 5 }
    ensures { Keyed w.now result }
{
    let mut k: u64 = 1;
    for b in w {
        k = k * 256 + *b as u64;
    }
    k
}

// The word with this number.
fn word_by(k: u64) -> Word
    ensures { (w : List ℕ) → Keyed w k → result ≡ word_of w }
{
    match k {
        0x0176 => Word::V,
        0x0166 => Word::F,
        0x0165 => Word::E,
        0x01_6174_6f6d => Word::Atom,
        0x0174_6f70 => Word::Top,
        0x0161_6e64 => Word::And,
        0x01_6f72 => Word::Or,
        0x01_736f_6d65 => Word::Some,
        0x0161_6c6c => Word::All,
        0x0169_6d70 => Word::Imp,
        0x01_6c65_6674 => Word::Left,
        0x0172_6967_6874 => Word::Right,
        0x0175_7365 => Word::Use,
        0x0172_756c_6573 => Word::Rules,
        0x0174_6572_6d73 => Word::Terms,
        _ => Word::Nothing,
    }
}

// The word of some octets.
pub(crate) fn word_of(w: &[u8]) -> Word
    ensures { result ≡ word_of w.now }
{
    if LONGEST < w.len() {
        return Word::Nothing;
    }
    word_by(key(w))
}

// The number of the three octets from an offset on, read at once.
fn key_three(s: &[u8], from: usize) -> u64
    requires { from + 3 ≤ length s.now }
    ensures { Keyed (take 3 (drop from s.now)) result }
{
    let a = s[from] as u64;
    let b = s[from + 1] as u64;
    let c = s[from + 2] as u64;
    16777216 + a * 65536 + b * 256 + c
}

// The number of the four octets from an offset on.
// Kept: it differs from `key_three` in how many octets are written out, which keyed-three and keyed-four (proofs/KeyLaws) say; one function over both would be `key`, a loop.
fn key_four(s: &[u8], from: usize) -> u64
    requires { from + 4 ≤ length s.now }
    ensures { Keyed (take 4 (drop from s.now)) result }
{
    let a = s[from] as u64;
    let b = s[from + 1] as u64;
    let c = s[from + 2] as u64;
    let d = s[from + 3] as u64;
    4294967296 + a * 16777216 + b * 65536 + c * 256 + d
}

// A yes says that six bytes or more stand at an offset, and that the second is a colon.
fn is_colon_next(s: &[u8], at: usize) -> bool
    ensures { result ≡ true → (at + 6 ≤ length s.now) × (get_or s.now (at + 1) 0 ≡ 58) }
{
    at < s.len() && 6 <= s.len() - at && s[at + 1] == b':'
}

// The word of the plain string that stands at an offset; nothing where none does, or where it is no word. Nearly every word has three octets or four, and is then read at once.
pub fn word_at(s: &[u8], at: usize) -> Word
    ensures { WordAt s.now at result }
{
    if is_colon_next(s, at) {
        let n = s[at];
        if n == b'3' {
            return word_by(key_three(s, at + 2));
        }
        if n == b'4' {
            return word_by(key_four(s, at + 2));
        }
    }
    word_long(s, at)
}

// The same for a word of any length.
fn word_long(s: &[u8], at: usize) -> Word
    ensures { WordAt s.now at result }
{
    match sexp::plain(s, at) {
        None => Word::Nothing,
        Some((from, count)) => word_of(&s[from..from + count]),
    }
}
