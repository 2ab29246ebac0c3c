// From a place to the places of its parts (document 01, "When a strip fits"): the word of what stands at a spot, where its parts stand, and the places there.
ghost use Rattle.std.specs.Prelude.{◌≡◌, ◌+◌, min, drop};
ghost use Rattle.sexp.specs.Past.{PastAt};
ghost use Rattle.reader.specs.WordAt.{WordAt};
ghost use Rattle.room.specs.Files.{file_of};
ghost use Rattle.room.specs.Where as places;

use packet::Word;
use reader::word_at;
use room::{Files, Spot, Where};
use sexp::past;

// A sum that no packet makes too large.
pub fn plus(a: usize, b: usize) -> usize
    ensures { result ≡ places.plus a b }
{
    a.saturating_add(b)
}

// The spot of a part, n bytes further on.
// Kept: the spot alone, and `within` the place around it; `bound` and `supposes` need both.
pub fn further(x: Spot, n: usize) -> Spot
    ensures { result ≡ places.further x n }
{
    Spot {
        at: plus(x.at, n),
        ..x
    }
}

// The place of a part of the goal, with the same clauses, parameters and bindings.
pub fn within(w: Where, n: usize) -> Where
    ensures { result ≡ places.within w n }
{
    Where {
        goal: further(w.goal, n),
        ..w
    }
}

// The same with one variable more, which is on top of the stack, where p parameters are open.
pub fn bound(w: Where, n: usize, p: usize) -> Where
    ensures { result ≡ places.bound w n p }
{
    let x = w.goal;
    let y = Spot {
        at: plus(x.at, n),
        count: plus(x.count, 1),
        ..x
    };
    Where {
        goal: y,
        parameters: p,
        top: plus(w.top, 1),
        ..w
    }
}

// The same under one clause more.
pub fn supposes(w: Where, n: usize) -> Where
    ensures { result ≡ places.supposes w n }
{
    Where {
        goal: further(w.goal, n),
        supposed: plus(w.supposed, 1),
        ..w
    }
}

// The word of what stands at a spot.
pub fn word_there(files: &Files, x: Spot) -> Word
    ensures { WordAt (drop x.at (file_of files.now x.source)) 1 result }
{
    word_at(files.part(x), 1)
}

// Past the part of it that begins n bytes on, counted from the spot.
pub fn past_part(files: &Files, x: Spot, n: usize) -> Option<usize>
    ensures { PastAt (drop x.at (file_of files.now x.source)) n 64 result }
{
    past(files.part(x), n, 64)
}
