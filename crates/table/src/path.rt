// The words of a slot behind its bindings: as many of the numbers of a path as there is room for, put there and taken from there.
// Kept: the room comes with the word that a frame or a table begins or ends at, since the room is one memory that the caller lends, and which parts it has is the definition's (specs/Layout of crate `room`).
ghost use Rattle.std.specs.Prelude.{◌≡◌, ◌+◌, ◌≤◌, length};
ghost use Rattle.table.specs.Slots.{numbers_of, numbers_word, Carried};

use places::plus;
use room::{put_after, word_after};

// How many words a slot has behind its bindings.
pub fn numbers(room: &[u32], at: usize) -> usize
    ensures { result ≡ numbers_of room.now at }
{
    8_usize.saturating_sub(word_after(room, at, 2) as usize)
}

// The first of them.
pub(crate) fn numbers_word(room: &[u32], at: usize) -> usize
    ensures { at + 16 ≤ length room.now → result ≡ numbers_word room.now at }
{
    plus(at, 16_usize.saturating_sub(numbers(room, at)))
}

// So many words copied from one part of the room to another.
pub(crate) fn carry(room: &mut [u32], from: usize, n: usize, to: usize)
    ensures { Carried room.old room.new from n to }
{
    for k in 0..n {
        let w = word_after(room, from, k);
        put_after(room, to, k, w);
    }
}

// The numbers that a slot has, copied on top of the stack.
pub fn take(room: &mut [u32], at: usize, top: usize)
    ensures { at + 16 ≤ length room.old → Carried room.old room.new (numbers_word room.old at) (numbers_of room.old at) top }
{
    let n = numbers(room, at);
    let from = numbers_word(room, at);
    carry(room, from, n, top);
}
