// The numbers of all rules and candidates, kept in the room: those of rules in the 256 words from 3200 on, those of candidates in the 256 words after them.
ghost use Rattle.std.specs.Prelude.{◌≡◌, min, set};
ghost use Rattle.keys.specs.Keys.{CandidatesKept, RulesKept, KeysFilled};

use crate::chain::fill_chains;
use crate::rule::{clause_key, nowhere};
use crate::term::key_at;
use room::{put, word};

// How many of a table are kept: at most 256.
pub(crate) fn most(n: u32) -> usize
    ensures { result ≡ min n 256 }
{
    n.min(256) as usize
}

// The numbers of candidates.
fn keep_candidates(terms: &[u8], room: &mut [u32])
    ensures { CandidatesKept room.old room.new terms.now }
{
    let n = most(word(room, 257));
    for i in 0..n {
        let at = word(room, 258 + i) as usize;
        let k = key_at(terms, at, room, nowhere(), 64);
        put(room, 3456 + i, k);
    }
}

// The numbers of rules.
// Kept: it differs from that of candidates in the function called for each, and its table of words; one function of both would take a closure that reads the room and be no plainer.
fn keep_rules(rules: &[u8], room: &mut [u32])
    ensures { RulesKept room.old room.new rules.now }
{
    let n = most(word(room, 0));
    for i in 0..n {
        let at = word(room, 1 + i) as usize;
        let k = clause_key(rules, at, room, 64);
        put(room, 3200 + i, k);
    }
}

// The numbers of candidates and of rules, in the room's tables, and the chains of both.
pub fn fill_keys(rules: &[u8], terms: &[u8], room: &mut [u32])
    ensures { KeysFilled room.old room.new rules.now terms.now }
{
    keep_candidates(terms, room);
    keep_rules(rules, room);
    let n = word(room, 0);
    fill_chains(room, 3200, 4224, n);
    let m = word(room, 257);
    fill_chains(room, 3456, 4864, m);
}
