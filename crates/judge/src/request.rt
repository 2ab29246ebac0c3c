// A packet judged in two halves: rules and terms read and their tables filled; then one goal and strip, with the tables left as they were. The first refusal is that
// of files 1, 2, 3, 4 in turn, whichever half reads them (document 01, "What comes back").
ghost use Rattle.std.specs.Prelude.{◌≡◌, ◌≤◌, length};
ghost use Rattle.packet.specs.File.{packet_of};
ghost use Rattle.room.specs.Layout.{words};
ghost use Rattle.judge.specs.Verdict.{files_verdict};
ghost use Rattle.judge.specs.Halves.{Opens, ReadsAll, Stripping, Requesting};

use crate::Verdict;
use packet::{File, Kind, Reason};
use reader::{Counts, Refusal, read_file};
use room::{Files, Source};
use start::{fill_tables, first_place};
use walk::node;

// What is found of the rules and of the terms.
#[derive(Clone, Copy)]
pub struct Books {
    pub rules: Result<usize, Refusal>,
    pub terms: Result<usize, Refusal>,
}

// The first half: rules and terms read, and their tables filled.
fn open_books(rules: &[u8], terms: &[u8], room: &mut [u32]) -> Books
    ensures { Opens rules.now terms.now room.old room.new result }
{
    fill_tables(rules, terms, room);
    Books {
        rules: read_file(rules, Kind::Rules, File::Rules),
        terms: read_file(terms, Kind::Terms, File::Terms),
    }
}

// The files in turn: what is found of goal and strip stands between and after what is found of rules and terms.
fn read_files(books: Books, goal: &[u8], strip: &[u8]) -> Result<Counts, Refusal>
    ensures { ReadsAll goal.now strip.now books result }
{
    let n = books.rules?;
    read_file(goal, Kind::Goal, File::Goal)?;
    let m = books.terms?;
    read_file(strip, Kind::Strip, File::Strip)?;
    Ok(Counts {
        rules: n,
        candidates: m,
    })
}

// The strip of a packet that is read, judged from the root place on.
fn judge_strip(files: &Files, strip: &[u8], room: &mut [u32]) -> Verdict
    ensures { Stripping files.now strip.now room.old room.new result }
{
    match node(files, strip, 0, room, first_place(), 64) {
        Ok(fit) => Verdict::Accepted {
            height: fit.height,
            nodes: fit.nodes,
        },
        Err(place) => Verdict::Refused {
            reason: Reason::Misfit,
            file: File::Strip,
            place,
        },
    }
}

// The second half: one goal and strip judged, where rules and terms are read and their tables filled.
fn judge_request(files: &Files, strip: &[u8], room: &mut [u32], books: Books) -> Verdict
    ensures { Requesting files.now strip.now room.old room.new books result }
{
    match read_files(books, files.file(Source::Goal), strip) {
        Err(x) => Verdict::Refused {
            reason: x.reason,
            file: x.file,
            place: 0,
        },
        Ok(_) => judge_strip(files, strip, room),
    }
}

// The four files, with room enough. What is left in the room does not matter.
pub(crate) fn judge_files<'a>(
    rules: &'a [u8],
    goal: &'a [u8],
    terms: &'a [u8],
    strip: &[u8],
    room: &mut [u32],
) -> Verdict
    ensures { words ≤ length room.old → result ≡ files_verdict (packet_of rules.now goal.now terms.now strip.now) }
{
    let books = open_books(rules, terms, room);
    judge_request(&Files::new(rules, goal, terms), strip, room, books)
}
