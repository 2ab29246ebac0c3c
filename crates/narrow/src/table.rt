// The heads of all rules, kept in the room: the numbers of their predicates in the 256 words from 3712 on, where they stand in the 256 words after them.
ghost use Rattle.std.specs.Prelude.{◌≡◌, get_or, set};
ghost use Rattle.room.specs.Frame.{held};
ghost use Rattle.narrow.specs.Heads.{PredicateOf, place_of, HeadsFilled};

use crate::rule::head_at;
use keys::predicate_key;
use room::{Files, Source, Spot, hold, put, word};

// What is kept of where a head stands.
// Kept: no offset is 0 in the room, which holds numbers; a conversion of its own would say no more.
fn place_of(h: Option<usize>) -> u32
    ensures { result ≡ place_of h }
{
    match h {
        None => 0,
        Some(i) => hold(i),
    }
}

// The number of a head's predicate; 0 for none.
fn predicate_of(rules: &[u8], h: Option<usize>) -> u32
    ensures { PredicateOf rules.now h result }
{
    match h {
        None => 0,
        Some(i) => {
            let x = Spot {
                source: Source::Rules,
                at: i,
                base: 0,
                count: 0,
            };
            predicate_key(&Files::new(rules, rules, rules), x)
        }
    }
}

// The heads of rules, in the room's table.
pub fn fill_heads(rules: &[u8], room: &mut [u32])
    ensures { HeadsFilled room.old room.new rules.now }
{
    let n = word(room, 0) as usize;
    for k in 0..n.min(256) {
        let at = word(room, 1 + k) as usize;
        let h = head_at(rules, at, 64);
        put(room, 3712 + k, predicate_of(rules, h));
        put(room, 3968 + k, place_of(h));
    }
}
