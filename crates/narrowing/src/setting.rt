// The variables of a clause that stand in its head beside arguments of an atom that are set (document 02, Three: no verdict and no strip changes). They get the candidates that those are, by the word of the atom's arguments (crate arguments), before the clause's body narrows another variable.
// Kept: files, room and the parts of a clause stay parameters of their own. The room is written and comes back as another, and every clause would name it before and after all the same.
ghost use Rattle.narrowing.specs.Sets.{SetsOne, SetsFrom, SetsBeside};

use harrop::Binding;
use places::further;
use proving::{Parts, word_of};
use room::{Files, Spot, push};
use sexp::{closes, past};
use unset::open_at;

// By the argument of the head at a spot, beside one of the atom with this number: if that is a candidate's and an unset variable stands at the spot, it is set.
fn set_one(files: &Files, room: &mut [u32], p: Parts, x: Spot, n: u32)
    ensures { SetsOne files.now room.old room.new p x n }
{
    if n == 0 {
        return;
    }
    if 1021 <= n {
        return;
    }
    let Some(u) = open_at(files, room, x, p.own) else {
        return;
    };
    push(room, word_of(p.head, u), Binding::Candidate(n - 1));
}

// By the arguments of the head from an offset on, and the word of those of the atom beside them.
fn set_from(files: &Files, room: &mut [u32], p: Parts, i: usize, asked: u32)
    ensures { SetsFrom files.now room.old room.new p i asked }
{
    if asked == 0 {
        return;
    }
    let x = p.head;
    let s = files.part(x);
    if closes(s, i) {
        return;
    }
    let Some(n) = past(s, i, 64) else {
        return;
    };
    set_one(files, room, p, further(x, i), asked % 1024);
    set_from(files, room, p, n, asked / 1024);
}

// By the whole head.
pub(crate) fn set_beside(files: &Files, room: &mut [u32], p: Parts, asked: u32)
    ensures { SetsBeside files.now room.old room.new p asked }
{
    if asked == 0 {
        return;
    }
    let x = p.head;
    let s = files.part(x);
    let Some(n) = past(s, 7, 0) else {
        return;
    };
    set_from(files, room, p, n, asked);
}
