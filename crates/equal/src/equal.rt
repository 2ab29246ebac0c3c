// Whether two terms or atoms are the same, each variable standing for its binding's term (document 01, "When a strip fits").
// They are compared in bytes, where they stand; what is left of the nesting falls.
// Kept: files, room and spot stay parameters of their own; the spots are others at each call, and a struct of them would be made anew there.
ghost use Rattle.std.specs.Prelude.{◌≡◌, true};
ghost use Rattle.room.specs.Files.{file_of};
ghost use Rattle.equal.specs.Term.{candidate_seen, binding_seen, beginning, SeesAt, IsParameter, AfterAt, BeginsWritten, BeginsAt, SameTerms, SameRest, SameAtoms};

use harrop::Binding;
use room::{Files, Source, Spot, variable, word, word_after};
use sexp::{closes, is_word, number, past, same_text};

// What a term is; if it is a variable, what it stands for: a parameter, or a term written at a spot.
// Kept: either kind is an answer with a value, and none of them a failure.
#[derive(Clone, Copy)]
pub(crate) enum Seen {
    Parameter(u32),
    Written(Spot),
}

// How far two terms are compared: they are the same, they differ, or the terms that follow at two spots decide.
// Kept: three answers, each of which is gone on with.
#[derive(Clone, Copy)]
pub(crate) enum Begun {
    Same,
    Differ,
    Rest(Spot, Spot),
}

// The term of a candidate, by its number; `e` 0 if none is listed under it.
fn candidate(room: &[u32], i: u32) -> Seen
    ensures { result ≡ candidate_seen room.now i }
{
    if i < word(room, 257) {
        return Seen::Written(Spot {
            source: Source::Terms,
            at: word_after(room, 258, i as usize) as usize,
            base: 0,
            count: 0,
        });
    }
    Seen::Parameter(0)
}

// What a binding stands for.
fn meaning(room: &[u32], b: Binding) -> Seen
    ensures { result ≡ binding_seen room.now b }
{
    match b {
        Binding::Candidate(i) => candidate(room, i),
        Binding::Parameter(k) => Seen::Parameter(k),
    }
}

// What the term at a spot is.
fn see(files: &Files, room: &[u32], x: Spot) -> Seen
    ensures { SeesAt files.now room.now x result }
{
    let s = files.part(x);
    if !is_word(s, 1, b"v") {
        return Seen::Written(x);
    }
    match number(s, 4) {
        None => Seen::Parameter(0),
        Some(i) => meaning(room, variable(room, x.base, x.count, i)),
    }
}

// Whether the term written at a spot is a given parameter.
fn is_parameter(files: &Files, x: Spot, k: u32) -> bool
    ensures { IsParameter files.now x k result }
{
    let s = files.part(x);
    if !is_word(s, 1, b"e") {
        return false;
    }
    match number(s, 4) {
        None => false,
        Some(m) => m == k as usize,
    }
}

// Just after a string that stands so many bytes after two spots, if the same one does.
fn after(files: &Files, x: Spot, y: Spot, from: usize) -> Begun
    ensures { AfterAt (file_of files.now x.source) (file_of files.now y.source) x y from result }
{
    let s = files.part(x);
    let t = files.part(y);
    if !same_text(s, from, t, from) {
        return Begun::Differ;
    }
    match past(s, from, 0) {
        None => Begun::Differ,
        Some(n) => Begun::Rest(x.moved(x.at + n), y.moved(y.at + n)),
    }
}

// Two terms written at spots: equal at once if the spots are the same, else their words and what stands after the words are compared.
fn heads(files: &Files, x: Spot, y: Spot) -> Begun
    ensures { BeginsWritten files.now x y result }
{
    if x == y {
        return Begun::Same;
    }
    let s = files.part(x);
    let t = files.part(y);
    if !same_text(s, 1, t, 1) {
        return Begun::Differ;
    }
    after(files, x, y, 4)
}

fn told(same: bool) -> Begun
    ensures { result ≡ beginning same }
{
    if same { Begun::Same } else { Begun::Differ }
}

// The comparison of two terms, as far as it goes without going into them.
fn begin(files: &Files, room: &[u32], x: Spot, y: Spot) -> Begun
    ensures { BeginsAt files.now room.now x y result }
{
    match (see(files, room, x), see(files, room, y)) {
        (Seen::Parameter(k), Seen::Parameter(m)) => told(k == m),
        (Seen::Parameter(k), Seen::Written(q)) => told(is_parameter(files, q, k)),
        (Seen::Written(p), Seen::Parameter(m)) => told(is_parameter(files, p, m)),
        (Seen::Written(p), Seen::Written(q)) => heads(files, p, q),
    }
}

// Whether two terms are the same, where the first nests at most `nest` when its variables are replaced.
#[cycle(same)]
fn same(files: &Files, room: &[u32], x: Spot, y: Spot, nest: usize) -> bool
    ensures { SameTerms files.now room.now x y nest result }
{
    if nest == 0 {
        return false;
    }
    match begin(files, room, x, y) {
        Begun::Same => true,
        Begun::Differ => false,
        Begun::Rest(a, b) => same_rest(files, room, a, b, nest - 1),
    }
}

// The same of terms one after the other, up to the closing parenthesis.
// Kept: the place goes on by what each member takes, so no index counts.
#[cycle(same)]
fn same_rest(files: &Files, room: &[u32], x: Spot, y: Spot, nest: usize) -> bool
    ensures { SameRest files.now room.now x y nest result }
{
    let s = files.file(x.source);
    let t = files.file(y.source);
    let mut p = x.at;
    let mut q = y.at;
    while !closes(s, p) {
        if closes(t, q) {
            return false;
        }
        if !same(files, room, x.moved(p), y.moved(q), nest) {
            return false;
        }
        let Some(m) = past(s, p, 64) else {
            return false;
        };
        let Some(n) = past(t, q, 64) else {
            return false;
        };
        p = m;
        q = n;
    }
    closes(t, q)
}

// Whether the atoms at two spots are the same, their variables replaced. After that terms nest at most 128 deep: 64 lists in a file, and 64 in a candidate.
pub fn same_atoms(files: &Files, room: &[u32], x: Spot, y: Spot) -> bool
    ensures { SameAtoms files.now room.now x y result }
{
    match after(files, x, y, 7) {
        Begun::Same => true,
        Begun::Differ => false,
        Begun::Rest(a, b) => same_rest(files, room, a, b, 128),
    }
}

// Whether the terms at two spots are the same, where the first nests at most `nest` when its variables are replaced.
pub fn same_terms(files: &Files, room: &[u32], x: Spot, y: Spot, nest: usize) -> bool
    ensures { SameTerms files.now room.now x y nest result }
{
    same(files, room, x, y, nest)
}
