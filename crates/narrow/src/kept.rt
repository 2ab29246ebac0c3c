// The arguments of rules' heads, kept in the room: a word for each head without variables, in the 256 words from 4608 on, by the numbers of candidates (crate arguments).
ghost use Rattle.narrow.specs.Kept.{ArgumentsOf, ArgumentsFilled};

use arguments::arguments_of;
use room::{Files, Source, Spot, put, word};

// The word of the arguments of a rule's head, by its number and its place; 0 where the head has variables.
fn arguments_word(rules: &[u8], terms: &[u8], room: &[u32], key: u32, at: usize) -> u32
    ensures { ArgumentsOf rules.now terms.now room.now key at result }
{
    if key % 2 == 0 {
        return 0;
    }
    let x = Spot {
        source: Source::Rules,
        at: at,
        base: 0,
        count: 0,
    };
    arguments_of(&Files::new(rules, rules, terms), room, x, 0, 64)
}

// The words of all rules' heads, in the room's table.
pub fn fill_arguments(rules: &[u8], terms: &[u8], room: &mut [u32])
    ensures { ArgumentsFilled room.old room.new rules.now terms.now }
{
    let n = word(room, 0) as usize;
    for k in 0..n.min(256) {
        let key = word(room, 3200 + k);
        let at = word(room, 3968 + k) as usize;
        let w = arguments_word(rules, terms, room, key, at);
        put(room, 4608 + k, w);
    }
}
