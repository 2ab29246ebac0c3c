// How many clauses are at hand, by the room's tables, and the frame that one of them is taken apart in (document 01, "When a strip fits": clause k is at hand).
ghost use Rattle.std.specs.Prelude.{◌≡◌, get_or};
ghost use Rattle.room.specs.Layout.{rules_word, candidates_word};
ghost use Rattle.room.specs.Where as places;
ghost use Rattle.basics.specs.Tells.{Tells};
ghost use Rattle.packet.specs.declared.Word.TheVariants as W;
ghost use Rattle.reader.specs.WordAt.{WordAt};
ghost use Rattle.proving.specs.Hand.{Opened, RuleNumber};
ghost use Rattle.proving.specs.Hand as spots;

use hand::at_hand;
use packet::Word;
use places::plus;
use reader::word_at;
use room::{Spot, copy, word};

// How many candidates there are.
pub fn candidates(room: &[u32]) -> u32
    ensures { result ≡ get_or room.now candidates_word 0 }
{
    word(room, 257)
}

// How many clauses are at hand.
pub fn clauses(room: &[u32], supposes: usize) -> usize
    ensures { result ≡ places.plus (get_or room.now rules_word 0) supposes }
{
    plus(word(room, 0) as usize, supposes)
}

// Whether rule k is an atom with nothing around it.
pub fn is_fact(rules: &[u8], room: &[u32], k: usize) -> bool
    ensures { Tells result (WordAt rules.now (places.plus (get_or room.now (places.plus 1 k) 0) 1) W.Atom) }
{
    let at = word(room, plus(1, k)) as usize;
    matches!(word_at(rules, plus(at, 1)), Word::Atom)
}

// One more than the number of a clause that is a rule; 0 for any other.
// Kept: this is the word that the table holds of a choice, where 0 is no rule; an Option would be made here only to be taken apart there.
pub fn rule_number(room: &[u32], k: usize) -> usize
    ensures { RuleNumber room.now k result }
{
    let n = word(room, 0) as usize;
    if k < n {
        return k + 1;
    }
    0
}

// Clause k with a new frame on top of the stack, which holds its bindings.
// Kept: the room comes with the word that the new frame begins at, since the room is one memory that the caller lends.
pub fn open_clause(room: &mut [u32], k: usize, supposes: usize, top: usize) -> Option<Spot>
    ensures { Opened room.old room.new k supposes top result }
{
    let x = at_hand(room, k, supposes)?;
    copy(room, x.base, x.count, top);
    Some(Spot { base: top, ..x })
}

// The spot of a part, n bytes further on, with one variable more.
pub fn deeper(x: Spot, n: usize) -> Spot
    ensures { result ≡ spots.deeper x n }
{
    Spot {
        at: plus(x.at, n),
        count: plus(x.count, 1),
        ..x
    }
}
