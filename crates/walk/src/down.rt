// The walk down the strip: each node judged at its own place, then its parts at theirs (document 01, "When a strip fits").
ghost use Rattle.std.specs.Prelude.{◌≡◌, ◌+◌, ◌≤◌, ◌<◌, ℕ, length};
ghost use Rattle.uses.specs.Walk.{Entering, Judging, Bounded, fitting};

use enter::{enter_all, enter_and, enter_imp, enter_left, enter_right, enter_some, enter_top};
use packet::Word;
use places::plus;
use reader::word_at;
use room::{Files, Where};
use uses::{Entered, Fit, enter_use};

// A node judged at its own place, by its word; nothing, if it does not fit.
fn enter(
    files: &Files,
    strip: &[u8],
    at: usize,
    room: &mut [u32],
    w: Where,
    nest: usize,
) -> Option<Entered>
    ensures { Entering files.now strip.now room.old room.new at w nest result }
{
    match word_at(strip, plus(at, 1)) {
        Word::Top => enter_top(files, at, w),
        Word::And => enter_and(files, at, w),
        Word::Some => enter_some(files, strip, at, room, w),
        Word::All => enter_all(files, at, room, w),
        Word::Imp => enter_imp(files, at, room, w),
        Word::Left => enter_left(files, at, w),
        Word::Right => enter_right(files, at, w),
        Word::Use => enter_use(files, strip, at, room, w, nest),
        _ => None,
    }
}

// A node whose parts end before its closing parenthesis, with the height of the highest and the nodes of all.
fn close(size: usize, at: usize, parts: Fit, nest: usize) -> Result<Fit, usize>
    ensures sure { Bounded size at nest result }
    ensures closed { parts.next < size → at + parts.nodes ≤ parts.next → parts.height < nest → result ≡ fitting (parts.next + 1) (parts.height + 1) (parts.nodes + 1) }
{
    if size <= parts.next {
        return Err(at);
    }
    if parts.next < at {
        return Err(at);
    }
    if parts.next - at < parts.nodes {
        return Err(at);
    }
    if nest <= parts.height {
        return Err(at);
    }
    Ok(Fit {
        next: parts.next + 1,
        height: parts.height + 1,
        nodes: parts.nodes + 1,
    })
}

// A node with all its parts: what it comes to, or the offset of the first node that does not fit.
// Kept: strip, offset, room and place stay apart; offset and place are others at each part, and a struct of the four would be taken apart and made anew at each call.
pub fn node(
    files: &Files,
    strip: &[u8],
    at: usize,
    room: &mut [u32],
    w: Where,
    nest: usize,
) -> Result<Fit, usize>
    ensures sure { Bounded (length strip.now) at nest result }
    ensures judged { Judging files.now strip.now room.old room.new at w nest result }
{
    if nest == 0 {
        return Err(at);
    }
    match enter(files, strip, at, room, w, nest) {
        None => Err(at),
        Some(Entered::Leaf(next)) => leaf(strip.len(), at, next),
        Some(Entered::One(start, part)) => {
            let one = node(files, strip, start, room, part, nest - 1)?;
            close(strip.len(), at, one, nest)
        }
        Some(Entered::Two(start, first, second)) => {
            let one = node(files, strip, start, room, first, nest - 1)?;
            // Kept: with `?` the edit `second_part_nodded_through` has no value to change.
            match node(files, strip, one.next, room, second, nest - 1) {
                Err(o) => Err(o),
                Ok(two) => {
                    let both = Fit {
                        next: two.next,
                        height: one.height.max(two.height),
                        nodes: one.nodes + two.nodes,
                    };
                    close(strip.len(), at, both, nest)
                }
            }
        }
    }
}

// A node without parts that ends before `next`.
fn leaf(size: usize, at: usize, next: usize) -> Result<Fit, usize>
    ensures sure { (nest : ℕ) → 0 < nest → Bounded size at nest result }
    ensures ends { next ≤ size → at < next → result ≡ fitting next 1 1 }
{
    if size < next {
        return Err(at);
    }
    if next <= at {
        return Err(at);
    }
    Ok(Fit {
        next,
        height: 1,
        nodes: 1,
    })
}
