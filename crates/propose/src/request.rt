// A search in three parts, once the room is set out: whether there is a strip, the strip drawn with its measures, and its bytes copied. The buffer is touched by the last of them alone,
// when the whole answer is known (document 01, "Which strip the search writes", "What comes back").
// Kept: files, height, strip and room stay parameters of their own. Strip and room are lent to be written, and a struct of them would be made anew at each call.
ghost use Rattle.std.specs.Prelude.{◌≡◌, min, ◌≤◌, length};
ghost use Rattle.packet.specs.File.{most_bytes};
ghost use Rattle.packet.specs.declared.File.TheVariants as F;
ghost use Rattle.packet.specs.declared.Reason.TheVariants as R;
ghost use Rattle.proposal.specs.Proposed.{Comes, proposal};
ghost use Rattle.propose.specs.Parts.{Setting, Telling, Measuring, Handing, Filling, Searching, Answering};

use drawing::Drawn;
use keys::fill_keys;
use narrow::{fill_arguments, fill_heads};
use packet::{File, Reason};
use pen::put;
use proposal::Proposal;
use provable::prove_goal;
use reader::read_books;
use room::{Files, Source};
use start::{fill_tables, first_place};
use table::empty_all;
use writer::write_goal;

// The room as a search needs it: the tables of rules and candidates, their numbers, the heads of rules and their arguments, and an empty table of atoms.
fn set_out(files: &Files, room: &mut [u32])
    ensures { Setting files.now room.old room.new }
{
    let rules = files.file(Source::Rules);
    let terms = files.file(Source::Terms);
    fill_tables(rules, terms, room);
    fill_keys(rules, terms, room);
    fill_heads(rules, room);
    fill_arguments(rules, terms, room);
    empty_all(room);
}

// Whether there is a strip within the height.
fn has_proof(files: &Files, height: usize, room: &mut [u32]) -> bool
    ensures { Telling height files.now room.old room.new result }
{
    prove_goal(files, room, first_place(), height)
}

// The first strip drawn into the scratch buffer, as far as that has room, and its height, nodes and length.
fn measure(files: &Files, height: usize, scratch: &mut [u8], room: &mut [u32]) -> Drawn
    ensures { Measuring height files.now room.old room.new scratch.old scratch.new result }
{
    let w = first_place();
    write_goal(files, room, scratch, w, height, 0)
}

// The longest strip that a buffer of so many bytes may get.
fn longest(size: usize) -> usize
    ensures { result ≡ min size most_bytes }
{
    size.min(16384)
}

// A refusal that no file is at fault for.
pub(crate) fn refused(reason: Reason) -> Proposal
    ensures { result ≡ proposal (Comes.refuses reason F.None) }
{
    Proposal::Refused {
        reason,
        file: File::None,
        place: 0,
    }
}

// The answer where a strip is longer than the buffer, or than any may be.
fn too_long() -> Proposal
    ensures { result ≡ proposal (Comes.refuses R.Buffer F.None) }
{
    refused(Reason::Buffer)
}

// A strip that is drawn whole, in the front of a scratch buffer: copied if the buffer has room for it.
fn hand_over(strip: &mut [u8], scratch: &[u8], first: Drawn) -> Proposal
    requires { first.at ≤ length scratch.now }
    ensures { Handing scratch.now first strip.old strip.new result }
{
    if longest(strip.len()) < first.at {
        return too_long();
    }
    put(strip, 0, &scratch[..first.at]);
    Proposal::Found {
        height: first.height,
        nodes: first.nodes,
        length: first.at,
    }
}

// The first strip, where there is one, drawn with as many bytes as a strip may have.
fn write_long(files: &Files, height: usize, strip: &mut [u8], room: &mut [u32]) -> Proposal
    ensures { Filling height files.now room.old strip.old strip.new result }
{
    let mut scratch = [0u8; 16384];
    let first = measure(files, height, &mut scratch, room);
    if 16384 < first.at {
        return too_long();
    }
    hand_over(strip, &scratch, first)
}

// The first strip, where there is one. Nearly every strip is short, and a short scratch buffer costs less to make; a longer strip is drawn once more. The buffers are made here, so
// that a search without a proof does not pay for them.
// Kept: the two sizes are two functions; one with the size as a const parameter would need a `requires` that so many bytes are no more than there can be.
fn write(files: &Files, height: usize, strip: &mut [u8], room: &mut [u32]) -> Proposal
    ensures { Filling height files.now room.old strip.old strip.new result }
{
    let mut scratch = [0u8; 2048];
    let first = measure(files, height, &mut scratch, room);
    if 2048 < first.at {
        return write_long(files, height, strip, room);
    }
    hand_over(strip, &scratch, first)
}

// The search of a packet that is read.
fn search_goal(files: &Files, height: usize, strip: &mut [u8], room: &mut [u32]) -> Proposal
    ensures { Searching height files.now room.old strip.old strip.new result }
{
    set_out(files, room);
    if !has_proof(files, height, room) {
        return refused(Reason::NoProof);
    }
    write(files, height, strip, room)
}

// The height and the three files, with room enough. What is left in the room does not matter.
pub(crate) fn search_files<'a>(
    rules: &'a [u8],
    goal: &'a [u8],
    terms: &'a [u8],
    height: usize,
    strip: &mut [u8],
    room: &mut [u32],
) -> Proposal
    ensures { Answering height rules.now goal.now terms.now room.old strip.old strip.new result }
{
    if 32 < height {
        return refused(Reason::Height);
    }
    match read_books(rules, goal, terms) {
        Err(x) => Proposal::Refused {
            reason: x.reason,
            file: x.file,
            place: 0,
        },
        Ok(_) => search_goal(&Files::new(rules, goal, terms), height, strip, room),
    }
}
