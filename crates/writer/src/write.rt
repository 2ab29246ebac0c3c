// The first strip at a place that has a proof, drawn node by node: of each option in order crate provable is asked, and the walk goes on in the first that has a proof; the numbers of a path that the search has left in the room are taken from there
// (document 01, "Which strip the search writes"). A node draws its head, lends the remaining part of the buffer to the writer of each of its parts, and draws its closing parenthesis behind them. `at` is 0 but for a part
// that begins beyond the buffer's end, where nothing is written and the strip is only measured.
// Kept: files, room and place stay parameters of their own. The room is written and comes back as another, the place is another at each call, and a struct of them would be made anew there.
ghost use Rattle.std.specs.Prelude.{ℕ, false};
ghost use Rattle.packet.specs.declared.Word.TheVariants as W;
ghost use Rattle.drawing.specs.Writing.{Writing, WritingAs, Pathing, PathingAs};

use drawing::{
    Drawn, behind, beside, close, cut, first_clause, first_with, nothing, number_through, shut, top,
};
use harrop::Binding;
use packet::Word;
use pen::{put, put_number};
use places::{bound, further, past_part, plus, supposes, within, word_there};
use provable::{prove_goal, through};
use proving::{deeper, is_plain, open_clause};
use room::{Files, Spot, Where, push, suppose};
use table::forget;

// The first strip of the goal of a place, within this height.
#[cycle(write)]
pub fn write_goal(
    files: &Files,
    room: &mut [u32],
    strip: &mut [u8],
    w: Where,
    height: usize,
    at: usize,
) -> Drawn
    ensures { Writing files.now room.old room.new strip.old strip.new w height at result }
{
    if height == 0 {
        return nothing(at);
    }
    match word_there(files, w.goal) {
        Word::Top => top(strip, at),
        Word::Atom => write_use(files, room, strip, w, height - 1, at),
        Word::And => write_both(files, room, strip, w, height - 1, at),
        Word::Or => write_either(files, room, strip, w, height - 1, at),
        Word::Some => write_some(files, room, strip, w, height - 1, at),
        Word::All => write_all(files, room, strip, w, height - 1, at),
        Word::Imp => write_under(files, room, strip, w, height - 1, at),
        _ => nothing(at),
    }
}

// The same from a place in the buffer on, in the part of it that is left there.
#[cycle(write)]
fn write_part(
    files: &Files,
    room: &mut [u32],
    strip: &mut [u8],
    w: Where,
    height: usize,
    at: usize,
) -> Drawn
    ensures { Writing files.now room.old room.new strip.old strip.new w height at result }
{
    let from = cut(at, strip.len());
    behind(
        from,
        write_goal(files, room, &mut strip[from..], w, height, at - from),
    )
}

// Both parts of an `and`, each with what is left of the height.
#[cycle(write)]
fn write_both(
    files: &Files,
    room: &mut [u32],
    strip: &mut [u8],
    w: Where,
    left: usize,
    at: usize,
) -> Drawn
    ensures { WritingAs W.And files.now room.old room.new strip.old strip.new w left at result }
{
    let Some(n) = past_part(files, w.goal, 6) else {
        return nothing(at);
    };
    let m = put(strip, at, b"(3:and");
    let a = write_part(files, room, strip, within(w, 6), left, m);
    let b = write_part(files, room, strip, within(w, n), left, a.at);
    close(strip, beside(a, b))
}

// The left part of an `or`, if it has a proof, else the right one.
#[cycle(write)]
fn write_either(
    files: &Files,
    room: &mut [u32],
    strip: &mut [u8],
    w: Where,
    left: usize,
    at: usize,
) -> Drawn
    ensures { WritingAs W.Or files.now room.old room.new strip.old strip.new w left at result }
{
    let Some(n) = past_part(files, w.goal, 5) else {
        return nothing(at);
    };
    if prove_goal(files, room, within(w, 5), left) {
        let m = put(strip, at, b"(4:left");
        let a = write_part(files, room, strip, within(w, 5), left, m);
        return close(strip, a);
    }
    let m = put(strip, at, b"(5:right");
    let a = write_part(files, room, strip, within(w, n), left, m);
    close(strip, a)
}

// The part of a `some`, with the first candidate for which it has a proof.
#[cycle(write)]
fn write_some(
    files: &Files,
    room: &mut [u32],
    strip: &mut [u8],
    w: Where,
    left: usize,
    at: usize,
) -> Drawn
    ensures { WritingAs W.Some files.now room.old room.new strip.old strip.new w left at result }
{
    let i = first_with(files, room, w, left);
    push(room, w.top, Binding::Candidate(i));
    let m = put(strip, at, b"(4:some");
    let m = put_number(strip, m, i as usize);
    let a = write_part(files, room, strip, bound(w, 7, w.parameters), left, m);
    close(strip, a)
}

// The part of an `all`, with one more parameter.
#[cycle(write)]
fn write_all(
    files: &Files,
    room: &mut [u32],
    strip: &mut [u8],
    w: Where,
    left: usize,
    at: usize,
) -> Drawn
    ensures { WritingAs W.All files.now room.old room.new strip.old strip.new w left at result }
{
    if 64 <= w.parameters {
        return nothing(at);
    }
    let p = w.parameters + 1;
    push(room, w.top, Binding::Parameter(p as u32));
    let m = put(strip, at, b"(3:all");
    let a = write_part(files, room, strip, bound(w, 6, p), left, m);
    close(strip, a)
}

// The part of an `imp`, under its clause.
#[cycle(write)]
fn write_under(
    files: &Files,
    room: &mut [u32],
    strip: &mut [u8],
    w: Where,
    left: usize,
    at: usize,
) -> Drawn
    ensures { WritingAs W.Imp files.now room.old room.new strip.old strip.new w left at result }
{
    if left == 0 {
        return nothing(at);
    }
    let Some(n) = past_part(files, w.goal, 6) else {
        return nothing(at);
    };
    suppose(room, w.supposed, further(w.goal, 6));
    forget(room, plus(w.supposed, 1));
    let m = put(strip, at, b"(3:imp");
    let a = write_part(files, room, strip, supposes(w, n), left, m);
    close(strip, a)
}

// The use of the first clause that serves an atom: its number, the path into it, and the strip of its body.
#[cycle(write)]
fn write_use(
    files: &Files,
    room: &mut [u32],
    strip: &mut [u8],
    w: Where,
    left: usize,
    at: usize,
) -> Drawn
    ensures { WritingAs W.Atom files.now room.old room.new strip.old strip.new w left at result }
{
    let Some(k) = first_clause(files, room, w, left) else {
        return nothing(at);
    };
    let Some(x) = open_clause(room, k, w.supposed, w.top) else {
        return nothing(at);
    };
    let located = is_plain(files, x);
    let m = put(strip, at, b"(3:use");
    let m = put_number(strip, m, k);
    let m = put(strip, m, b"(");
    let a = path_part(files, room, strip, w, x, 64, left, m, located);
    close(strip, a)
}

// The path through the clause at a spot and, behind it, the strip of the body if there is one. Where the path is located, the search has left its numbers behind the clause's frame.
#[cycle(write)]
fn write_path(
    files: &Files,
    room: &mut [u32],
    strip: &mut [u8],
    w: Where,
    x: Spot,
    nest: usize,
    left: usize,
    at: usize,
    located: bool,
) -> Drawn
    ensures { Pathing files.now room.old room.new strip.old strip.new w x nest left at located result }
{
    if nest == 0 {
        return nothing(at);
    }
    match word_there(files, x) {
        Word::Atom => shut(strip, at),
        Word::Imp => write_body(files, room, strip, w, x, left, at),
        Word::And => path_and(files, room, strip, w, x, nest - 1, left, at),
        Word::All => path_all(files, room, strip, w, x, nest - 1, left, at, located),
        _ => nothing(at),
    }
}

// The same from a place in the buffer on, in the part of it that is left there.
#[cycle(write)]
fn path_part(
    files: &Files,
    room: &mut [u32],
    strip: &mut [u8],
    w: Where,
    x: Spot,
    nest: usize,
    left: usize,
    at: usize,
    located: bool,
) -> Drawn
    ensures { Pathing files.now room.old room.new strip.old strip.new w x nest left at located result }
{
    let from = cut(at, strip.len());
    behind(
        from,
        write_path(
            files,
            room,
            &mut strip[from..],
            w,
            x,
            nest,
            left,
            at - from,
            located,
        ),
    )
}

// The end of a path, and the strip of the body.
#[cycle(write)]
fn write_body(
    files: &Files,
    room: &mut [u32],
    strip: &mut [u8],
    w: Where,
    x: Spot,
    left: usize,
    at: usize,
) -> Drawn
    ensures { (nest : ℕ) → PathingAs W.Imp files.now room.old room.new strip.old strip.new w x nest left at false result }
{
    let m = put(strip, at, b")");
    let body = Where {
        goal: further(x, 6),
        supposed: w.supposed,
        parameters: w.parameters,
        top: plus(x.base, x.count),
    };
    write_part(files, room, strip, body, left, m)
}

// The left clause of an `and`, if a path through it ends well, else the right one.
#[cycle(write)]
fn path_and(
    files: &Files,
    room: &mut [u32],
    strip: &mut [u8],
    w: Where,
    x: Spot,
    nest: usize,
    left: usize,
    at: usize,
) -> Drawn
    ensures { PathingAs W.And files.now room.old room.new strip.old strip.new w x nest left at false result }
{
    let Some(n) = past_part(files, x, 6) else {
        return nothing(at);
    };
    if through(files, room, w, further(x, 6), nest, left) {
        let m = put(strip, at, b"1:l");
        return path_part(files, room, strip, w, further(x, 6), nest, left, m, false);
    }
    let m = put(strip, at, b"1:r");
    path_part(files, room, strip, w, further(x, n), nest, left, m, false)
}

// The clause of an `all`, with the first candidate for which a path through it ends well.
#[cycle(write)]
fn path_all(
    files: &Files,
    room: &mut [u32],
    strip: &mut [u8],
    w: Where,
    x: Spot,
    nest: usize,
    left: usize,
    at: usize,
    located: bool,
) -> Drawn
    ensures { PathingAs W.All files.now room.old room.new strip.old strip.new w x nest left at located result }
{
    let i = number_through(files, room, w, x, nest, left, located);
    push(room, plus(x.base, x.count), Binding::Candidate(i));
    let m = put_number(strip, at, i as usize);
    path_part(files, room, strip, w, deeper(x, 6), nest, left, m, located)
}
