// The tables of rules and candidates, filled from their files, and which candidates may be used (document 01, "When a strip fits").
// Kept: the room comes with the word that a frame or a table begins or ends at, since the room is one memory that the caller lends, and which parts it has is the definition's (specs/Layout of crate `room`).
ghost use Rattle.std.specs.Prelude.{◌≡◌, ◌&&◌, ◌+◌, ◌≤◌, ltb, leb, get_or};
ghost use Rattle.room.specs.Layout.{candidates_word, highest_word};
ghost use Rattle.room.specs.Table.{StartsIn, HighestAt, HighestsAt, RulesFilled, CandidatesFilled};
ghost use Rattle.start.specs.Head.{NumberAfter, HeadAt, HighestIn};

use room::{from, hold, put, word, word_after};
use sexp::{closes, is_word, number, past};

// Where the members of a list that stand from an offset on start, in the words from a base on: at most 256 of them. The answer is their number.
fn starts(s: &[u8], at: usize, room: &mut [u32], base: usize) -> usize
    requires { base ≤ 514 }
    ensures { StartsIn room.old room.new s.now at base result }
{
    let mut p = at;
    for k in 0..256 {
        let Some(n) = past(s, p, 64) else {
            return k;
        };
        put(room, base + k, hold(p));
        p = n;
    }
    256
}

// How a term begins: with a parameter, or a function whose terms start at an offset.
// Kept: either kind is an answer with a value, and none of them a failure.
#[derive(Clone, Copy)]
pub(crate) enum Head {
    Parameter(usize),
    Terms(usize),
}

// The number after a word of one letter.
fn number_after(s: &[u8]) -> usize
    ensures { NumberAfter s.now result }
{
    number(s, 4).unwrap_or(0)
}

fn begins(s: &[u8], at: usize) -> Head
    ensures { HeadAt s.now at result }
{
    let t = from(s, at);
    if is_word(t, 1, b"e") {
        return Head::Parameter(number_after(t));
    }
    match past(t, 4, 0) {
        None => Head::Parameter(0),
        Some(n) => Head::Terms(at + n),
    }
}

// The highest parameter of the term at an offset that nests at most `nest`.
#[cycle(highest)]
fn highest(s: &[u8], at: usize, nest: usize) -> usize
    ensures { HighestAt s.now at nest result }
{
    if nest == 0 {
        return 0;
    }
    match begins(s, at) {
        Head::Parameter(k) => k,
        Head::Terms(p) => highest_of(s, p, nest - 1),
    }
}

// The highest of terms one after the other, up to the closing parenthesis.
// Kept: the place goes on by what each member takes, so no index counts.
#[cycle(highest)]
fn highest_of(s: &[u8], at: usize, nest: usize) -> usize
    ensures { HighestsAt s.now at nest result }
{
    let mut p = at;
    let mut m = 0;
    while !closes(s, p) {
        m = m.max(highest(s, p, nest));
        let Some(n) = past(s, p, 64) else {
            return 0;
        };
        p = n;
    }
    m
}

// The highest parameters of the first candidates, where their starts are known.
fn highests(terms: &[u8], room: &mut [u32], count: usize)
    requires { count ≤ 256 }
    ensures { HighestIn room.old room.new terms.now count }
{
    for i in 0..count {
        let at = word_after(room, 258, i) as usize;
        put(room, 514 + i, hold(highest(terms, at, 64)));
    }
}

// The table of rules: their number, and where each starts.
// Kept: it goes by the rules' file and table, and `fill_candidates` notes highest parameters besides; what both do is `starts`.
pub fn fill_rules(rules: &[u8], room: &mut [u32])
    ensures { RulesFilled room.old room.new rules.now }
{
    let n = starts(rules, 8, room, 1);
    put(room, 0, hold(n));
}

// The table of candidates: their number, where each starts, and its highest parameter.
pub fn fill_candidates(terms: &[u8], room: &mut [u32])
    ensures { CandidatesFilled room.old room.new terms.now }
{
    let n = starts(terms, 8, room, 258);
    put(room, 257, hold(n));
    highests(terms, room, n);
}

// Whether a candidate may be used where so many parameters are open.
pub fn may_use(room: &[u32], open_parameters: usize, i: usize) -> bool
    ensures { result ≡ (ltb i (get_or room.now candidates_word 0) && leb (get_or room.now (highest_word i) 0) open_parameters) }
{
    i < word(room, 257) as usize && word_after(room, 514, i) as usize <= open_parameters
}
