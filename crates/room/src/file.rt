// The file of a spot, the part of it that starts in the middle, and the supposed clauses kept in the room.
ghost use Rattle.std.specs.Prelude.{◌≡◌, ◌+◌, ◌*◌, ◌^◌, ◌<◌, length, get_or, set, drop};
ghost use Rattle.room.specs.Files.{files_of, file_of};
ghost use Rattle.room.specs.Spot.{source_number, source_of, supposing, supposed_in};

use crate::words::{hold, put, word};
use crate::{Source, Spot};
use std::marker::Model;

// The part of a slice from `at` on; past the end, nothing.
pub fn from(s: &[u8], at: usize) -> &[u8]
    ensures { result.now ≡ drop at s.now }
{
    s.get(at..).unwrap_or(&[])
}

// The files that a proof walks through: rules, goal and candidates. Clauses see their bytes.
#[derive(Drop)]
pub struct Files<'a> {
    rules: &'a [u8],
    goal: &'a [u8],
    terms: &'a [u8],
}

impl<'a> Model for Files<'a> {
    ghost use Rattle.room.specs.Files.{Files, files_of};

    ghost Value = { Files };

    ghost view = { λ f. files_of f.rules.now f.goal.now f.terms.now };
}

impl<'a> Files<'a> {
    pub fn new(rules: &'a [u8], goal: &'a [u8], terms: &'a [u8]) -> Self
        ensures { result ≡ files_of rules.now goal.now terms.now }
    {
        Files { rules, goal, terms }
    }

    // The whole of the file that is meant.
    pub fn file(&self, which: Source) -> &'a [u8]
        ensures { result.now ≡ file_of self.now which }
    {
        match which {
            Source::Rules => self.rules,
            Source::Goal => self.goal,
            Source::Terms => self.terms,
        }
    }

    // The part of a file from a spot on. A file is short: where it ends is a number.
    pub fn part(&self, x: Spot) -> &'a [u8]
        ensures bytes { result.now ≡ drop x.at (file_of self.now x.source) }
        ensures short { length (file_of self.now x.source) < 2 ^ 64 }
    {
        from(self.file(x.source), x.at)
    }
}

// A source as a word of the room, and back.
impl From<Source> for u32 {
    ghost from_gives = { λ s n. n ≡ source_number s };

    fn from(which: Source) -> u32 {
        match which {
            Source::Rules => 1,
            Source::Goal => 2,
            Source::Terms => 3,
        }
    }
}

impl From<u32> for Source {
    ghost from_gives = { λ n s. s ≡ source_of n };

    fn from(n: u32) -> Source {
        match n {
            1 => Source::Rules,
            2 => Source::Goal,
            _ => Source::Terms,
        }
    }
}

// Clause m supposed: its spot kept in the room.
pub fn suppose(room: &mut [u32], m: usize, x: Spot)
    ensures { room.new ≡ supposing room.old m x }
{
    if m < 63 {
        let i = 770 + 5 * m;
        put(room, i, u32::from(x.source));
        put(room, i + 1, hold(x.at));
        put(room, i + 2, hold(x.base));
        put(room, i + 3, hold(x.count));
    }
}

// Where supposed clause m stands.
pub fn supposed(room: &[u32], m: usize) -> Spot
    ensures { result ≡ supposed_in room.now m }
{
    if m < 63 {
        let i = 770 + 5 * m;
        return Spot {
            source: Source::from(word(room, i)),
            at: word(room, i + 1) as usize,
            base: word(room, i + 2) as usize,
            count: word(room, i + 3) as usize,
        };
    }
    Spot {
        source: Source::Terms,
        at: 0,
        base: 0,
        count: 0,
    }
}
