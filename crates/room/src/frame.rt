// Bindings in frames on the stack (document 01, "When a strip fits"): read, pushed and copied. Nothing below the top is ever written.
// Kept: the room comes with the word that a frame or a table begins or ends at, since the room is one memory that the caller lends, and which parts it has is the definition's (specs/Layout of crate `room`).
ghost use Rattle.std.specs.Prelude.{◌≡◌, ◌+◌, ◌≤◌, ◌&&◌, leb, get_or, set, length};
ghost use Rattle.room.specs.Frame.{binding_word, binding_of, held, bindings_in, bound_to, copied};

use crate::words::{hold, put, word_after};
use harrop::Binding;

// What a word of the room stands for.
fn binding_of(w: u32) -> Binding
    ensures { result ≡ binding_of w }
{
    let h = w / 2;
    if w % 2 == 0 {
        return Binding::Candidate(h);
    }
    Binding::Parameter(h)
}

// The word for a binding.
// Kept: an `impl From<Binding> for u32` can only stand in the crate of `Binding`, which knows of no room.
fn word_of(b: Binding) -> u32
    ensures { result ≡ held (binding_word b) }
{
    match b {
        Binding::Candidate(i) => hold((i as usize) * 2),
        Binding::Parameter(k) => hold((k as usize) * 2 + 1),
    }
}

// What variable i of a frame is bound to.
pub fn variable(room: &[u32], base: usize, count: usize, i: usize) -> Binding
    ensures { result ≡ bound_to (bindings_in room.now base count) i }
{
    if i < count {
        let n = count - 1 - i;
        return binding_of(word_after(room, base, n));
    }
    Binding::Parameter(0)
}

// A binding put on top of the stack, if there is room.
pub fn push(room: &mut [u32], top: usize, b: Binding)
    ensures { room.new ≡ set room.old top (held (binding_word b)) }
{
    put(room, top, word_of(b));
}

// Whether a frame may be copied: it ends at most at the top, and there is room above the top.
fn copies(words: usize, base: usize, count: usize, top: usize) -> bool
    ensures { result ≡ leb (base + count) top && leb (top + count) words }
{
    if top < base {
        return false;
    }
    if top - base < count {
        return false;
    }
    if words < top {
        return false;
    }
    count <= words - top
}

// A frame copied on top of the stack, if there is room.
pub fn copy(room: &mut [u32], base: usize, count: usize, top: usize)
    ensures { room.new ≡ copied room.old base count top }
{
    if copies(room.len(), base, count, top) {
        room.copy_within(base..base + count, top);
    }
}
