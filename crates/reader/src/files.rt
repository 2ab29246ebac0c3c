// One file judged, and the files in turn (document 01, "Sizes", "What comes back"): 1, 2, 3, 4, 6, 5 in each file, each asked of the whole file before the next.
ghost use Rattle.std.specs.Prelude.{◌≡◌, true, ◌≤◌};
ghost use Rattle.std.proofs.Math.Option.{none};
ghost use Rattle.sexp.specs.Sexp.{Sexp, Stands, nesting};
ghost use Rattle.packet.specs.Wrong.{wrong};
ghost use Rattle.packet.specs.File.{counted, holds, books_of, packet_of};
ghost use Rattle.reader.specs.Judged.{at_fault, in_file, of_file, bars_judged, sizes_judged, words_judged, judged_of, books_read, packet_read};

use crate::bars::bars_at;
use crate::count::count_from;
use crate::shape::shape_at;
use packet::{File, Kind, Reason};
use sexp::Carrier;

// The sizes: bytes of a file, levels of lists.
const MOST_BYTES: usize = 16384;

const MOST_LEVELS: usize = 64;

// What is at fault in one file: the refusal, and its place.
#[derive(Clone, Copy)]
pub struct Fault {
    pub reason: Reason,
    pub place: usize,
}

// Why files are refused: the refusal, the file, and the place in it.
#[derive(Clone, Copy)]
pub struct Refusal {
    pub reason: Reason,
    pub file: File,
    pub place: usize,
}

// How many rules and candidates the files have.
#[derive(Clone, Copy)]
pub struct Counts {
    pub rules: usize,
    pub candidates: usize,
}

impl Fault {
    // The same, of this file.
    fn in_file(self, file: File) -> Refusal
        ensures { result ≡ in_file self file }
    {
        Refusal {
            reason: self.reason,
            file,
            place: self.place,
        }
    }
}

// The kind of file that may hold parameters.
#[tactic(auto, unfolding(packet::specs::File::holds))]
fn may_hold(kind: Kind) -> bool
    ensures { result ≡ holds kind }
{
    matches!(kind, Kind::Terms)
}

// The kinds of file whose members are counted.
#[tactic(auto, unfolding(packet::specs::File::counted))]
fn is_counted(kind: Kind) -> bool
    ensures { result ≡ counted kind }
{
    matches!(kind, Kind::Rules | Kind::Terms)
}

// This fault, at a place.
fn at_fault(reason: Reason, place: usize) -> Result<usize, Fault>
    ensures { result ≡ at_fault reason place }
{
    Err(Fault { reason, place })
}

// 5, of a file with n rules or candidates.
fn judge_bars(s: &[u8], kind: Kind, n: usize) -> Result<usize, Fault>
    ensures { (e : Sexp) → wrong kind 0 e ≡ none → Stands s.now 0 e → nesting e ≤ 64 → result ≡ bars_judged kind n e }
{
    match bars_at(s, 0, MOST_LEVELS, 0, may_hold(kind)) {
        Err(o) => at_fault(Reason::Barred, o),
        Ok(_) => Ok(n),
    }
}

// 6 and 5, of a file whose members are counted, the word among them.
fn judge_count(s: &[u8], kind: Kind) -> Result<usize, Fault>
    ensures { counted kind ≡ true → (e : Sexp) → wrong kind 0 e ≡ none → Stands s.now 0 e → nesting e ≤ 64 → result ≡ sizes_judged kind e }
{
    match count_from(s, 1) {
        Err(o) => at_fault(Reason::Many, o),
        Ok(n) => judge_bars(s, kind, n.saturating_sub(1)),
    }
}

// 6 and 5.
fn judge_sizes(s: &[u8], kind: Kind) -> Result<usize, Fault>
    ensures { (e : Sexp) → wrong kind 0 e ≡ none → Stands s.now 0 e → nesting e ≤ 64 → result ≡ sizes_judged kind e }
{
    if is_counted(kind) {
        return judge_count(s, kind);
    }
    judge_bars(s, kind, 0)
}

// 4, 6 and 5.
fn judge_words(s: &[u8], kind: Kind) -> Result<usize, Fault>
    ensures { (e : Sexp) → Stands s.now 0 e → nesting e ≤ 64 → result ≡ words_judged kind e }
{
    match shape_at(s, 0, MOST_LEVELS, kind) {
        Err(o) => at_fault(Reason::Words, o),
        Ok(_) => judge_sizes(s, kind),
    }
}

// One file of a kind: how many rules or candidates it has.
pub fn judge_file(s: &[u8], kind: Kind) -> Result<usize, Fault>
    ensures { result ≡ judged_of kind s.now }
{
    if MOST_BYTES < s.len() {
        return at_fault(Reason::Long, MOST_BYTES);
    }
    match sexp::canonical(s, MOST_LEVELS) {
        Carrier::Fault(o) => at_fault(Reason::Carrier, o),
        Carrier::Deep(o) => at_fault(Reason::Deep, o),
        Carrier::Sound => judge_words(s, kind),
    }
}

// One file in its turn: the same, told with the file.
pub fn read_file(s: &[u8], kind: Kind, file: File) -> Result<usize, Refusal>
    ensures { result ≡ of_file (judged_of kind s.now) file }
{
    judge_file(s, kind).map_err(|f| f.in_file(file))
}

// Rules, goal and terms, which a search reads.
pub fn read_books(rules: &[u8], goal: &[u8], terms: &[u8]) -> Result<Counts, Refusal>
    ensures { result ≡ books_read (books_of rules.now goal.now terms.now) }
{
    let n = read_file(rules, Kind::Rules, File::Rules)?;
    read_file(goal, Kind::Goal, File::Goal)?;
    let m = read_file(terms, Kind::Terms, File::Terms)?;
    Ok(Counts {
        rules: n,
        candidates: m,
    })
}

// And the strip, which a checker reads too.
pub fn read_packet(rules: &[u8], goal: &[u8], terms: &[u8], strip: &[u8]) -> Result<Counts, Refusal>
    ensures { result ≡ packet_read (packet_of rules.now goal.now terms.now strip.now) }
{
    let counts = read_books(rules, goal, terms)?;
    read_file(strip, Kind::Strip, File::Strip)?;
    Ok(counts)
}
