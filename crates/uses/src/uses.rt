// The node `use` k path (document 01, "When a strip fits"): clause k is at hand, the path takes it apart from outside and ends exactly at an atom or at G implies atom,
// and that atom, variables replaced, equals the goal's. The remaining clause bytes are handed on as a part that starts in the middle of its file.
// Kept: files, strip, room and place stay parameters of their own, as the walk has them. A struct of them would be made for these calls alone, and its clauses would name the room before and after all the same.
ghost use Rattle.std.specs.Prelude.{◌≡◌, ◌+◌, ◌≤◌, length, get_or, take};
ghost use Rattle.packet.specs.declared.Word.TheVariants as W;
ghost use Rattle.room.specs.Files.{file_of};
ghost use Rattle.uses.specs.Walk.{EnteringAs};
ghost use Rattle.uses.specs.Use.{AtAnd, AtAll, Turned, Small, Binds, Followed, Opened, Headed, Concluding, Uses, AsksAt, Inside};

use crate::Entered;
use equal::same_atoms;
use hand::at_hand;
use harrop::Binding;
use room::{Files, Spot, Where, copy, push};
use sexp::{closes, is_word, number, past};
use start::may_use;

// What the next step of a path does to a clause: the path has ended; it leads so many bytes into the clause, or binds the clause's variable to a candidate, by number,
// and then the next step stands at an offset of the strip.
// Kept: three answers, each of which is gone on with.
#[derive(Clone, Copy)]
pub(crate) enum Turn {
    Ended,
    Into(usize, usize),
    Bound(usize, usize),
}

// Where a path ended: so many bytes before the end of the clause's file, and where the frame ends that the path filled.
#[derive(Clone, Copy)]
pub(crate) struct Reached {
    left: usize,
    end: usize,
}

// What a path ended at: an atom, or a goal that implies an atom.
// Kept: either kind is an answer with a value, and none of them a failure.
#[derive(Clone, Copy)]
pub(crate) enum Head {
    Fact(Spot),
    Implies(Spot, Spot),
}

// Which clause a node asks for, and where its path stands.
#[derive(Clone, Copy)]
pub(crate) struct Asked {
    clause: usize,
    path: usize,
}

// A step at an `and`: left or right.
fn at_and(clause: &[u8], strip: &[u8], at: usize, next: usize) -> Option<Turn>
    ensures small { Small result }
    ensures turned { AtAnd clause.now strip.now at next result }
{
    if is_word(strip, at, b"l") {
        return Some(Turn::Into(6, next));
    }
    if !is_word(strip, at, b"r") {
        return None;
    }
    let i = past(clause, 6, 64)?;
    Some(Turn::Into(i, next))
}

// A step at an `all`: a number.
fn at_all(strip: &[u8], at: usize, next: usize) -> Option<Turn>
    ensures small { Small result }
    ensures turned { AtAll strip.now at next result }
{
    let n = number(strip, at)?;
    Some(Turn::Bound(n, next))
}

// The next step of a path, at a clause.
fn next_turn(clause: &[u8], strip: &[u8], at: usize) -> Option<Turn>
    ensures small { Small result }
    ensures turned { Turned clause.now strip.now at result }
{
    if closes(strip, at) {
        return Some(Turn::Ended);
    }
    let next = past(strip, at, 0)?;
    if is_word(clause, 1, b"and") {
        return at_and(clause, strip, at, next);
    }
    if is_word(clause, 1, b"all") {
        return at_all(strip, at, next);
    }
    None
}

// A variable bound to candidate n, on top of the stack, if that may be used.
fn bind(room: &mut [u32], top: usize, n: usize, parameters: usize) -> bool
    requires { n ≤ 999 }
    ensures { Binds room.old room.new top n parameters result }
{
    if room.len() <= top {
        return false;
    }
    if !may_use(room, parameters, n) {
        return false;
    }
    push(room, top, Binding::Candidate(n as u32));
    true
}

// Follows a path through a clause, of which the part that is left is handed on. What is left of the nesting falls.
fn follow(
    clause: &[u8],
    strip: &[u8],
    at: usize,
    room: &mut [u32],
    top: usize,
    parameters: usize,
    nest: usize,
) -> Option<Reached>
    ensures kept { take top room.new ≡ take top room.old }
    ensures followed { Followed clause.now strip.now room.old room.new at top parameters nest result }
{
    if nest == 0 {
        return None;
    }
    match next_turn(clause, strip, at)? {
        Turn::Ended => Some(Reached {
            left: clause.len(),
            end: top,
        }),
        Turn::Into(i, next) => {
            if clause.len() < i {
                return None;
            }
            follow(&clause[i..], strip, next, room, top, parameters, nest - 1)
        }
        Turn::Bound(n, next) => {
            if clause.len() < 6 {
                return None;
            }
            if !bind(room, top, n, parameters) {
                return None;
            }
            follow(
                &clause[6..],
                strip,
                next,
                room,
                top + 1,
                parameters,
                nest - 1,
            )
        }
    }
}

// Clause k with a new frame on top of the stack, which holds its bindings.
fn open_clause(room: &mut [u32], k: usize, supposes: usize, top: usize) -> Option<Spot>
    ensures { Opened room.old room.new k supposes top result }
{
    let x = at_hand(room, k, supposes)?;
    if room.len() < top {
        return None;
    }
    if room.len() - top < x.count {
        return None;
    }
    copy(room, x.base, x.count, top);
    Some(Spot { base: top, ..x })
}

// What kind of clause a path ended at, and where its parts stand.
fn head_of(files: &Files, x: Spot) -> Option<Head>
    ensures { Headed (file_of files.now x.source) x result }
{
    let s = files.part(x);
    if is_word(s, 1, b"atom") {
        return Some(Head::Fact(x));
    }
    if !is_word(s, 1, b"imp") {
        return None;
    }
    let n = past(s, 6, 64)?;
    Some(Head::Implies(x.moved(x.at + 6), x.moved(x.at + n)))
}

// What the node says whose path ended at a clause, with a frame that ends at `end`.
fn conclude(
    files: &Files,
    strip: &[u8],
    path: usize,
    room: &[u32],
    w: Where,
    x: Spot,
    end: usize,
) -> Option<Entered>
    ensures { Concluding files.now strip.now room.now path w x end result }
{
    let next = past(strip, path, 1)?;
    match head_of(files, x)? {
        Head::Fact(a) => {
            if !closes(strip, next) {
                return None;
            }
            if !same_atoms(files, room, a, w.goal) {
                return None;
            }
            Some(Entered::Leaf(next + 1))
        }
        Head::Implies(g, a) => {
            if closes(strip, next) {
                return None;
            }
            if !same_atoms(files, room, a, w.goal) {
                return None;
            }
            let above = Where {
                goal: g,
                supposed: w.supposed,
                parameters: w.parameters,
                top: end,
            };
            Some(Entered::One(next, above))
        }
    }
}

// Clause k used: its path followed, and what the node says where that ends.
fn use_clause(
    files: &Files,
    strip: &[u8],
    path: usize,
    room: &mut [u32],
    w: Where,
    k: usize,
) -> Option<Entered>
    requires { path ≤ length strip.now }
    ensures { Uses files.now strip.now room.old room.new path k w result }
{
    let x = open_clause(room, k, w.supposed, w.top)?;
    let clause = files.part(x);
    let reached = follow(
        clause,
        strip,
        path + 1,
        room,
        x.base + x.count,
        w.parameters,
        64,
    )?;
    let whole = files.file(x.source);
    if whole.len() < reached.left {
        return None;
    }
    if reached.end < w.top {
        return None;
    }
    let y = Spot {
        source: x.source,
        at: whole.len() - reached.left,
        base: w.top,
        count: reached.end - w.top,
    };
    conclude(files, strip, path, room, w, y, reached.end)
}

// The number of a `use` node and the offset of its path.
fn asked_for(strip: &[u8], at: usize) -> Option<Asked>
    ensures inside { Inside strip.now result }
    ensures asks { AsksAt strip.now at result }
{
    if strip.len() <= at {
        return None;
    }
    let clause = number(strip, at + 6)?;
    let path = past(strip, at + 6, 0)?;
    Some(Asked { clause, path })
}

// The node `use` at its place.
pub fn enter_use(
    files: &Files,
    strip: &[u8],
    at: usize,
    room: &mut [u32],
    w: Where,
    nest: usize,
) -> Option<Entered>
    ensures { EnteringAs W.Use files.now strip.now room.old room.new at w nest result }
{
    let asked = asked_for(strip, at)?;
    let g = files.part(w.goal);
    if !is_word(g, 1, b"atom") {
        return None;
    }
    use_clause(files, strip, asked.path, room, w, asked.clause)
}
