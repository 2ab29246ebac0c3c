// Entries kept in the table and forgotten. Nothing below the table is written.
// Kept: the room comes with the word that a frame or a table begins or ends at, since the room is one memory that the caller lends, and which parts it has is the definition's (specs/Layout of crate `room`).
ghost use Rattle.std.specs.Prelude.{◌≡◌, ◌+◌, ◌≤◌, length};
ghost use Rattle.table.specs.Slots.{entered, Notes, emptied};
ghost use Rattle.table.specs.Recall.{FitsSlot, TableOnly, Keeps, Forgets, Empty};

use crate::asked::is_this;
use crate::path::{carry, numbers, numbers_word};
use crate::slot::inside;
use crate::words::marks;
use places::plus;
use room::{Files, Spot, Where, copy, hold, put_after, word_after};

// Whether an atom's numbers fit a slot's words, and its bindings stand below the table.
fn fits(x: Spot, supposed: usize, parameters: usize, height: usize) -> bool
    ensures { FitsSlot x supposed parameters height result }
{
    if 8 < x.count {
        return false;
    }
    if 5240 < x.base {
        return false;
    }
    if 0xffff_ffff < x.at {
        return false;
    }
    if 0xffff_fffe < supposed {
        return false;
    }
    if 0xffff_ffff < parameters {
        return false;
    }
    height <= 0xffff_ffff
}

// An atom entered in a slot; nothing is known of it yet.
fn enter(room: &mut [u32], x: Spot, supposed: usize, parameters: usize, at: usize)
    ensures { at + 16 ≤ length room.old → room.new ≡ entered room.old x supposed parameters at }
{
    put_after(room, at, 0, u32::from(x.source));
    put_after(room, at, 1, hold(x.at));
    put_after(room, at, 2, hold(x.count));
    put_after(room, at, 3, hold(plus(supposed, 1)));
    put_after(room, at, 4, hold(parameters));
    put_after(room, at, 5, 0);
    put_after(room, at, 6, 0);
    put_after(room, at, 7, 0);
    copy(room, x.base, x.count, plus(at, 8));
}

// The height noted at which a slot's atom is proved, with the clause that serves it first and the numbers of the path from word `top` on; or at which it failed.
fn note(room: &mut [u32], at: usize, height: usize, found: bool, choice: usize, top: usize)
    ensures { at + 16 ≤ length room.old → Notes room.old room.new at height found choice top }
{
    if found {
        put_after(room, at, 6, hold(height));
        put_after(room, at, 7, hold(choice));
        let n = numbers(room, at);
        let to = numbers_word(room, at);
        carry(room, top, n, to);
        return;
    }
    put_after(room, at, 5, hold(height));
}

// Kept of the atom at a place: that it is proved within a height, by which clause (one more than its number, or 0) and with the numbers on top of the stack; or that it failed. An entry of the same atom stays and gets the height; any other makes room.
pub fn keep(
    files: &Files,
    room: &mut [u32],
    w: Where,
    height: usize,
    at: usize,
    found: bool,
    choice: usize,
)
    ensures only { TableOnly room.old room.new }
    ensures kept { Keeps files.now room.old room.new w height at found choice }
{
    if !inside(room.len(), at) {
        return;
    }
    if !fits(w.goal, w.supposed, w.parameters, height) {
        return;
    }
    if is_this(files, room, w, at) {
        note(room, at, height, found, choice, w.top);
        return;
    }
    enter(room, w.goal, w.supposed, w.parameters, at);
    note(room, at, height, found, choice, w.top);
}

// A slot emptied, if what it holds was found under so many supposed clauses.
fn empty(room: &mut [u32], at: usize, supposed: usize)
    ensures { room.new ≡ emptied room.old at supposed }
{
    if marks(word_after(room, at, 3), supposed) {
        put_after(room, at, 3, 0);
    }
}

// All slots emptied of what was found under so many supposed clauses, as when another clause is supposed there.
pub fn forget(room: &mut [u32], supposed: usize)
    ensures only { TableOnly room.old room.new }
    ensures gone { Forgets room.old room.new supposed }
{
    let mut at: usize = 5376;
    // Kept: the last slot has to fit whole, which a range with a step does not say more plainly.
    while inside(room.len(), at) {
        empty(room, at, supposed);
        at += 16;
    }
}

// All slots emptied, as when a search begins. What the words held before does not matter.
pub fn empty_all(room: &mut [u32])
    ensures only { TableOnly room.old room.new }
    ensures none { Empty room.new }
{
    let mut at: usize = 5376;
    // Kept: as in `forget`.
    while inside(room.len(), at) {
        put_after(room, at, 3, 0);
        at += 16;
    }
}
