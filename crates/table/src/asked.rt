// What the table says of the atom at a place: nothing, unless a slot has that very atom, under as many supposed clauses and parameters.
// Kept: files, room and place stay parameters of their own, as the search has them; a struct of them would be made for these calls alone.
ghost use Rattle.table.specs.Recall.{IsThis, Recalls, Chose};

use crate::slot::{inside, spot};
use crate::words::marks;
use equal::same_atoms;
use room::{Files, Where, word_after};

// Whether a slot has the atom at a place. The atoms are compared in full.
pub(crate) fn is_this(files: &Files, room: &[u32], w: Where, at: usize) -> bool
    ensures { IsThis files.now room.now w at result }
{
    if !inside(room.len(), at) {
        return false;
    }
    if !marks(word_after(room, at, 3), w.supposed) {
        return false;
    }
    if word_after(room, at, 4) as usize != w.parameters {
        return false;
    }
    let x = spot(room, at);
    same_atoms(files, room, x, w.goal)
}

// Whether the atom is proved within a height, if the table tells. A failure is believed up to the height at which it was found, a success from there on.
pub fn recall(files: &Files, room: &[u32], w: Where, height: usize, at: usize) -> Option<bool>
    ensures { Recalls files.now room.now w height at result }
{
    if height == 0 {
        return None;
    }
    if !is_this(files, room, w, at) {
        return None;
    }
    if height <= word_after(room, at, 5) as usize {
        return Some(false);
    }
    let proved = word_after(room, at, 6) as usize;
    if proved == 0 {
        return None;
    }
    if proved <= height {
        return Some(true);
    }
    None
}

// The clause that serves the atom first, by its number, if the slot says it. It is believed at the height at which it was found, and at no other.
pub fn chosen(files: &Files, room: &[u32], w: Where, height: usize, at: usize) -> Option<usize>
    ensures { Chose files.now room.now w height at result }
{
    let k = word_after(room, at, 7) as usize;
    if k == 0 {
        return None;
    }
    if word_after(room, at, 6) as usize != height {
        return None;
    }
    if !is_this(files, room, w, at) {
        return None;
    }
    Some(k - 1)
}
