// The checker: is this strip a proof of this goal from these rules, with these candidates (document 01, "When a strip fits", "What comes back").
#![tactic(auto)]

mod request;

ghost use Rattle.judge.specs.Verdict.{Judgement};

use packet::{File, Reason};
use request::judge_files;
use start::clear;

// What comes back. The place of a refusal is 0 but for number 7.
// Kept: a refusal is a verdict as well as an acceptance is, and the theorems on `verdict_of` that docs/DEMANDS.md names say these two words.
#[derive(Clone, Copy)]
pub enum Verdict {
    Accepted {
        height: usize,
        nodes: usize,
    },
    Refused {
        reason: Reason,
        file: File,
        place: usize,
    },
}

// The verdict on four files, for any bytes and any room. The files are not written; the room is zero afterwards, or as it came if it is too short.
// Kept: rules, goal and terms one by one, as README and docs/ name this call; inside they are one `Files`.
pub fn judge<'a>(
    rules: &'a [u8],
    goal: &'a [u8],
    terms: &'a [u8],
    strip: &'a [u8],
    room: &mut [u32],
) -> Verdict
    ensures { Judgement rules.now goal.now terms.now strip.now room.old room.new result }
{
    if room.len() < 8192 {
        return Verdict::Refused {
            reason: Reason::Room,
            file: File::None,
            place: 0,
        };
    }
    let v = judge_files(rules, goal, terms, strip, room);
    clear(room);
    v
}
