// Which clause at hand comes next that may serve an atom, by the numbers that the room keeps for rules (document 02, Three: a rule that cannot match is not visited).
// A rule may serve it whose number is 0, that of its predicate or its own; the rules with one number are found along the chain of it, and so are candidates.
// Kept: the room comes with the word that a frame or a table begins or ends at, since the room is one memory that the caller lends, and which parts it has is the definition's (specs/Layout of crate `room`).
ghost use Rattle.std.specs.Prelude.{◌≡◌, min};
ghost use Rattle.keys.specs.Chains.{BeginsChain, HasNumber, NextWith};
ghost use Rattle.keys.specs.Keys.{NextClause, NextCandidate};

use crate::atom::Both;
use crate::chain::chain_of;
use room::word;

// One in the chain of a number with none of that chain between it and a given one: the one after the given one's predecessor, if that is in the chain, else the chain's first.
fn begin(room: &[u32], numbers: u32, links: u32, x: u32, from: u32) -> u32
    ensures { BeginsChain numbers links room.now x from result }
{
    let b = chain_of(x);
    if from == 0 {
        return word(room, links as usize + 256 + b);
    }
    let k = (from - 1) as usize;
    if chain_of(word(room, numbers as usize + k)) == b {
        return word(room, links as usize + k);
    }
    word(room, links as usize + 256 + b)
}

// Whether r is not before one and has a number.
fn has_number(room: &[u32], numbers: u32, x: u32, from: u32, r: u32) -> bool
    ensures { HasNumber numbers room.now x from r result }
{
    if r < from {
        return false;
    }
    word(room, numbers as usize + r as usize) == x
}

// The first from one on, of n, that has a number; n if there is none. Where the chains are right each is before the next one.
// Kept: the next one is what a chain of the room says, not the next number.
fn next_with(room: &[u32], numbers: u32, links: u32, x: u32, from: u32, n: u32) -> u32
    ensures { NextWith numbers links room.now x from n result }
{
    let mut r = begin(room, numbers, links, x, from);
    while r < n {
        if has_number(room, numbers, x, from, r) {
            return r;
        }
        let next = word(room, links as usize + r as usize);
        if next <= r {
            return n;
        }
        r = next;
    }
    n
}

// The first candidate from one on, of n, that has a number; n if there is none.
pub fn next_candidate(room: &[u32], x: u32, from: u32, n: u32) -> u32
    ensures { NextCandidate room.now x from n result }
{
    next_with(room, 3456, 4864, x, from, n)
}

// The lesser of two.
fn lesser(x: u32, n: usize) -> u32
    ensures { result ≡ min x n }
{
    n.min(x as usize) as u32
}

// The first clause from one on, of n, that may serve an atom with these numbers, of its predicate and of its own: a rule by its number, and each that is supposed. n if there is none.
pub fn next_clause(room: &[u32], of: Both, from: usize, n: usize) -> usize
    ensures { NextClause room.now of.predicate of.key from n result }
{
    if n <= from {
        return n;
    }
    let rules = word(room, 0);
    if rules as usize <= from {
        return from;
    }
    let f = from as u32;
    let a = next_with(room, 3200, 4224, of.key, f, lesser(rules, n));
    let b = next_with(room, 3200, 4224, of.predicate, f, a);
    next_with(room, 3200, 4224, 0, f, b) as usize
}
