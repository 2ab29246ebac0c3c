// Rules, and candidates, in 128 chains by their numbers, so that one with another number is not looked at (document 02, Three). From some word on stands in 256 words for each the next one of its chain, and in 128 words after them the first one of each chain; 256 where there is none.
// Which chain a number has does not matter for what is true.
// Kept: the room comes with the word that a frame or a table begins or ends at, since the room is one memory that the caller lends, and which parts it has is the definition's (specs/Layout of crate `room`).
ghost use Rattle.std.specs.Prelude.{◌≡◌, ◌<◌};
ghost use Rattle.keys.specs.Chains.{chain_of, ChainsCleared, ChainsLinked, ChainsFilled};

use crate::table::most;
use room::{put, word};

// The chain of a number.
pub(crate) fn chain_of(x: u32) -> usize
    ensures { (result ≡ chain_of x) × (result < 128) }
{
    (x as usize) * 40503 / 65536 % 128
}

// No chain has one.
fn clear_chains(room: &mut [u32], links: u32)
    ensures { ChainsCleared links room.old room.new }
{
    for b in 0..128 {
        put(room, links as usize + 256 + b, 256);
    }
}

// Each put in front of its chain, the last one first.
fn link_all(room: &mut [u32], numbers: u32, links: u32, n: u32)
    ensures { ChainsLinked numbers links n room.old room.new }
{
    for k in (0..most(n)).rev() {
        let b = links as usize + 256 + chain_of(word(room, numbers as usize + k));
        let next = word(room, b);
        put(room, links as usize + k, next);
        put(room, b, k as u32);
    }
}

// The chains of the first n whose numbers stand from a word on.
pub(crate) fn fill_chains(room: &mut [u32], numbers: u32, links: u32, n: u32)
    ensures { ChainsFilled numbers links n room.old room.new }
{
    clear_chains(room, links);
    link_all(room, numbers, links, n);
}
