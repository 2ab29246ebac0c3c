// Which clause is at hand under a number, and where it stands: the rules in order, then those supposed (document 01, "When a strip fits": clause k is at hand).
#![tactic(auto)]

ghost use Rattle.std.specs.Prelude.{◌≡◌};
ghost use Rattle.hand.specs.Hand.{clause_in};

use room::{Source, Spot, supposed, word};

// The spot of clause k, a rule or one of those supposed, with its own bindings.
pub fn at_hand(room: &[u32], k: usize, supposes: usize) -> Option<Spot>
    ensures { result ≡ clause_in room.now k supposes }
{
    let rules = word(room, 0) as usize;
    if k < rules {
        return Some(Spot {
            source: Source::Rules,
            at: word(room, 1 + k) as usize,
            base: 0,
            count: 0,
        });
    }
    if k - rules < supposes {
        return Some(supposed(room, k - rules));
    }
    None
}
