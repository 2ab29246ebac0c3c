// The slots of the table: which one a key has, whether a word begins one, and the spot of its atom.
ghost use Rattle.std.specs.Prelude.{◌≡◌, ◌&&◌, ◌+◌, ◌%◌, ◌≤◌, leb, length};
ghost use Rattle.table.specs.Slots.{table_word, slot_for, slot_spot};

use places::plus;
use room::{Source, Spot, word_after};

// The slot of a key: which one does not matter for what is true. 0 where the room has none.
pub fn slot_for(room: &[u32], key: usize) -> usize
    ensures { (result ≡ slot_for (length room.now) key) × (result % 16 ≡ 0) }
{
    let words = room.len();
    if words < 5392 {
        return 0;
    }
    5376 + 16 * (key % ((words - 5376) / 16))
}

// Whether 16 words of the table are there from a word on.
pub(crate) fn inside(words: usize, at: usize) -> bool
    ensures { result ≡ leb table_word at && leb (at + 16) words }
{
    5376 <= at && 16 <= words && at <= words - 16
}

// The spot of a slot's atom.
pub(crate) fn spot(room: &[u32], at: usize) -> Spot
    ensures { at + 16 ≤ length room.now → result ≡ slot_spot room.now at }
{
    Spot {
        source: Source::from(word_after(room, at, 0)),
        at: word_after(room, at, 1) as usize,
        base: plus(at, 8),
        count: word_after(room, at, 2) as usize,
    }
}
