// The room when a walk starts, and when all is said: the tables of both files filled, the root place, and all words cleared.
ghost use Rattle.std.specs.Prelude.{◌≡◌, ◌≤◌, length, replicate};
ghost use Rattle.room.specs.Layout.{words};
ghost use Rattle.room.specs.Start.{start, Tabled};

use crate::table::{fill_candidates, fill_rules};
use room::{Source, Spot, Where};

// The tables of rules and of candidates. Whether the files are sound need not be known yet.
pub fn fill_tables(rules: &[u8], terms: &[u8], room: &mut [u32])
    ensures { words ≤ length room.old → Tabled room.new rules.now terms.now }
{
    fill_rules(rules, room);
    fill_candidates(terms, room);
}

// The root place: the goal file's goal, no clause supposed, no parameter open.
pub fn first_place() -> Where
    ensures { result ≡ start }
{
    Where {
        goal: Spot {
            source: Source::Goal,
            at: 0,
            base: 1085,
            count: 0,
        },
        supposed: 0,
        parameters: 0,
        top: 1085,
    }
}

// All words of the room zero.
pub fn clear(room: &mut [u32])
    ensures { room.new ≡ replicate (length room.old) 0 }
{
    room.fill(0);
}
