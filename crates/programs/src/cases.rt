// Where the strings of a case file (second/README.md) lie: each its length in decimal, a colon and that many octets, one after the other.
ghost use Rattle.std.specs.Prelude.{◌<◌, ◌≤◌, min, length};
ghost use Rattle.programs.specs.StringAt.{StringAt, SplitsString};

use sexp::plain;

// A part of the case file.
#[derive(Clone, Copy)]
pub struct Part {
    pub from: usize,
    pub to: usize,
}

// The octets of the string at an offset; where none stands, nothing, at the end.
pub fn string(s: &[u8], at: usize) -> Part
    ensures string_at { StringAt s.now at result.from result.to }
    ensures s_bound { (min at (length s.now) ≤ result.to) × ((result.from ≤ result.to) × (result.to ≤ length s.now)) }
{
    match plain(s, at) {
        None => Part {
            from: s.len(),
            to: s.len(),
        },
        Some((from, n)) => Part { from, to: from + n },
    }
}

// The string that a case file begins with, and what comes after it; where none stands, both are empty.
pub fn split_string(s: &[u8]) -> (&[u8], &[u8])
    ensures split { SplitsString s.now result.0.now result.1.now }
    ensures shorter { 0 < length s.now → length result.1.now < length s.now }
{
    let Part { from, to } = string(s, 0);
    (&s[from..to], &s[to..])
}
