// The candidates that the heads at hand force on a variable of an atom (document 02, Three). Where a head with the atom's predicate has variables, or forces nothing, nothing is said of them.
// Kept: files, room and spot stay parameters of their own; the spots are others at each call, and a struct of them would be made anew there.
ghost use Rattle.std.specs.Prelude.{◌≡◌};
ghost use Rattle.narrow.specs.Narrow.{Adds, ByHead, ByFact, ByRule, ByOne, ByClause, rule_spot};

use crate::marks::mark;
use arguments::between;
use heads::has_head;
use packet::Word;
use places::word_there;
use room::{Files, Source, Spot, supposed, word};
use unset::{Forced, forced_by, may_be};

// An atom, for one of whose variables candidates are sought: its spot, how many variables of the frame may be unset, the variable, and the numbers of its predicate and of its arguments.
#[derive(Clone, Copy)]
pub struct Sought {
    pub atom: Spot,
    pub own: usize,
    pub variable: usize,
    pub predicate: u32,
    pub arguments: u32,
}

// By the head at a spot, in whose frame every variable is set: the candidate that it forces on the variable is marked. No: it forces nothing, so any candidate may do.
fn by_head(files: &Files, room: &[u32], a: Sought, y: Spot, marks: &mut [u8]) -> bool
    ensures { Adds marks.old marks.new result (ByHead files.now room.now a.atom y a.own a.variable marks.new) }
{
    if !may_be(files, room, a.atom, y, a.own) {
        return true;
    }
    match forced_by(files, room, a.atom, y, a.variable) {
        Forced::Nothing => false,
        Forced::Never => true,
        Forced::Candidate(c) => {
            mark(marks, c);
            true
        }
    }
}

// The same by the words of both atoms' arguments, where there are such; by the bytes where these say nothing.
fn by_fact(files: &Files, room: &[u32], a: Sought, y: Spot, kept: u32, marks: &mut [u8]) -> bool
    ensures { Adds marks.old marks.new result (ByFact files.now room.now a.atom y a.own a.variable a.arguments kept marks.new) }
{
    if a.arguments == 0 {
        return by_head(files, room, a, y, marks);
    }
    if kept == 0 {
        return by_head(files, room, a, y, marks);
    }
    match between(a.arguments, kept, 4) {
        Forced::Nothing => by_head(files, room, a, y, marks),
        Forced::Never => true,
        Forced::Candidate(i) => {
            mark(marks, i);
            true
        }
    }
}

// The spot in the rule file at the offset that a word keeps.
fn rule_spot(room: &[u32], i: usize) -> Spot
    ensures { result ≡ rule_spot room.now i }
{
    let at = word(room, i) as usize;
    Spot {
        source: Source::Rules,
        at: at,
        base: 0,
        count: 0,
    }
}

// By rule k, where this is the number of the atom's predicate. No: an `and` is on the way to a head with that predicate, or the head has variables, or it forces nothing.
fn by_rule(files: &Files, room: &[u32], a: Sought, k: u32, marks: &mut [u8]) -> bool
    ensures { Adds marks.old marks.new result (ByRule files.now room.now a.atom a.own a.variable a.predicate a.arguments marks.new k) }
{
    let i = k as usize;
    let p = word(room, 3712 + i);
    if p == 0 {
        let y = rule_spot(room, 1 + i);
        return !has_head(files, y, a.atom, 64);
    }
    if p != a.predicate {
        return true;
    }
    if word(room, 3200 + i) % 2 == 0 {
        return false;
    }
    let y = rule_spot(room, 3968 + i);
    let kept = word(room, 4608 + i);
    by_fact(files, room, a, y, kept, marks)
}

// By supposed clause j: one that is an atom is a head whose frame is set. No: any other has a head with the atom's predicate, or the atom forces nothing.
fn by_one(files: &Files, room: &[u32], a: Sought, j: usize, marks: &mut [u8]) -> bool
    ensures { Adds marks.old marks.new result (ByOne files.now room.now a.atom a.own a.variable marks.new j) }
{
    let y = supposed(room, j);
    match word_there(files, y) {
        Word::Atom => by_head(files, room, a, y, marks),
        _ => !has_head(files, y, a.atom, 64),
    }
}

// By clause k at hand: a rule, or one of those that are supposed. No: nothing can be said of it by its heads.
pub fn by_clause(files: &Files, room: &[u32], a: Sought, k: usize, marks: &mut [u8]) -> bool
    ensures { Adds marks.old marks.new result (ByClause files.now room.now a.atom a.own a.variable a.predicate a.arguments marks.new k) }
{
    let n = word(room, 0) as usize;
    if k < n {
        return by_rule(files, room, a, k as u32, marks);
    }
    by_one(files, room, a, k - n, marks)
}
