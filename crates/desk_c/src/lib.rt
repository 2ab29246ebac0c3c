// The desk for C and Rust to link (include/desk.h): crate desk's two calls under their names in C, each with the same clauses.
#![tactic(auto)]

ghost use Rattle.std.specs.Prelude.{◌≡◌, length};
ghost use Rattle.room.specs.Start.{room_after};
ghost use Rattle.judge.specs.Verdict.{paper, verdict_of};
ghost use Rattle.proposal.specs.Proposed as P;
ghost use Rattle.desk.specs.Numbers.{verdict_numbers, proposal_numbers};

// Judges a strip.
#[unsafe(no_mangle)]
pub extern "C" fn desk_judge<'a>(
    rules: &'a [u8],
    goal: &'a [u8],
    terms: &'a [u8],
    strip: &'a [u8],
    room: &mut [u32],
    first: &mut u64,
    second: &mut u64,
) -> u32
    ensures answer { record { returned = result; first = first.new; second = second.new; third = 0 } ≡ verdict_numbers (paper (verdict_of (length room.old) rules.now goal.now terms.now strip.now)) }
    ensures cleared { room.new ≡ room_after room.old }
{
    desk::desk_judge(rules, goal, terms, strip, room, first, second)
}

// Searches the first strip within a height.
#[unsafe(no_mangle)]
pub extern "C" fn desk_propose<'a>(
    rules: &'a [u8],
    goal: &'a [u8],
    terms: &'a [u8],
    height: usize,
    strip: &mut [u8],
    room: &mut [u32],
    first: &mut u64,
    second: &mut u64,
    third: &mut u64,
) -> u32
    ensures answer { record { returned = result; first = first.new; second = second.new; third = third.new } ≡ proposal_numbers (P.paper (P.proposal_of height (length strip.old) (length room.old) rules.now goal.now terms.now)) }
    ensures written { strip.new ≡ P.buffer_after height (length room.old) rules.now goal.now terms.now strip.old }
    ensures cleared { room.new ≡ room_after room.old }
{
    desk::desk_propose(
        rules, goal, terms, height, strip, room, first, second, third,
    )
}
