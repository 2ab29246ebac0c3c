// The search: with rules, goal, terms and a height, the first strip within the height, or the word that there is none (document 01, "Which strip the search writes", "What comes back").
#![tactic(auto)]

mod request;

ghost use Rattle.proposal.specs.Proposed.{Proposes};

use packet::Reason;
use proposal::Proposal;
use request::{refused, search_files};
use start::clear;

// The search of any three files, with any height, buffer and room. The files are not written. The buffer gets the strip in front if there is one and it has room for
// it, else it is as it came; the room is zero afterwards, or as it came if it is too short.
pub fn propose<'a>(
    rules: &'a [u8],
    goal: &'a [u8],
    terms: &'a [u8],
    height: usize,
    strip: &mut [u8],
    room: &mut [u32],
) -> Proposal
    ensures { Proposes height rules.now goal.now terms.now strip.old strip.new room.old room.new result }
{
    if room.len() < 8192 {
        return refused(Reason::Room);
    }
    let r = search_files(rules, goal, terms, height, strip, room);
    clear(room);
    r
}
