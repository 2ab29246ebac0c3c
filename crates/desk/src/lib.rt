// Judging and searching, the answer as numbers. Crate desk_c has the same to link from C and Rust (include/desk.h).
#![tactic(auto)]

ghost use Rattle.std.specs.Prelude.{◌≡◌, length};
ghost use Rattle.room.specs.Start.{room_after};
ghost use Rattle.judge.specs.Verdict.{paper, verdict_of};
ghost use Rattle.proposal.specs.Proposed as P;
ghost use Rattle.desk.specs.Numbers.{verdict_numbers, proposal_numbers};

use judge::Verdict;
use proposal::Proposal;

// Judges a strip.
// Kept: a number and places to write to, since C calls this through crate desk_c with the same clauses.
pub fn desk_judge<'a>(
    rules: &'a [u8],
    goal: &'a [u8],
    terms: &'a [u8],
    strip: &'a [u8],
    room: &mut [u32],
    first: &mut u64,
    second: &mut u64,
) -> u32
    ensures answer { record { returned = result; first = first.new; second = second.new; third = 0 } ≡ verdict_numbers (paper (verdict_of (length room.old) rules.now goal.now terms.now strip.now)) }
    ensures cleared { room.new ≡ room_after room.old }
{
    let v = judge::judge(rules, goal, terms, strip, room);
    match v {
        Verdict::Accepted { height, nodes } => {
            *first = height as u64;
            *second = nodes as u64;
            0
        }
        Verdict::Refused {
            reason,
            file,
            place,
        } => {
            *first = packet::file_number(file) as u64;
            *second = place as u64;
            packet::reason_number(reason)
        }
    }
}

// Searches the first strip within a height.
// Kept: a number and places to write to, as above.
pub fn desk_propose<'a>(
    rules: &'a [u8],
    goal: &'a [u8],
    terms: &'a [u8],
    height: usize,
    strip: &mut [u8],
    room: &mut [u32],
    first: &mut u64,
    second: &mut u64,
    third: &mut u64,
) -> u32
    ensures answer { record { returned = result; first = first.new; second = second.new; third = third.new } ≡ proposal_numbers (P.paper (P.proposal_of height (length strip.old) (length room.old) rules.now goal.now terms.now)) }
    ensures written { strip.new ≡ P.buffer_after height (length room.old) rules.now goal.now terms.now strip.old }
    ensures cleared { room.new ≡ room_after room.old }
{
    let v = propose::propose(rules, goal, terms, height, strip, room);
    match v {
        Proposal::Found {
            height,
            nodes,
            length,
        } => {
            *first = height as u64;
            *second = nodes as u64;
            *third = length as u64;
            0
        }
        Proposal::Refused {
            reason,
            file,
            place,
        } => {
            *first = packet::file_number(file) as u64;
            *second = place as u64;
            *third = 0;
            packet::reason_number(reason)
        }
    }
}
