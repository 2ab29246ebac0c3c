// A rule book in TPTP (document 02, One): its axioms become a file of rules, its conjecture a goal file, both canonical; or one refusal of file 1.
// The lines are read twice: first to learn whether and how much there is to write, then to write. So on a refusal nothing was written.
#![tactic(auto)]

ghost use Rattle.std.specs.Prelude.{◌≡◌, min, leb};
ghost use Rattle.packet.specs.File.{most_bytes};
ghost use Rattle.tptp.specs.Converted as converted;
ghost use Rattle.tptp.specs.Comes.{Converts};
ghost use Rattle.tptp.specs.Parts.{Measures, Reasons};

use fof_grammar::sound_text;
use fof_lines::{Passed, pass};

// The lengths of both files, which stand in front of what the buffers held.
#[derive(Clone, Copy)]
pub struct Written {
    pub rules: usize,
    pub goal: usize,
}

// Why nothing was written; both buffers are as they came.
// Kept: the reason is a number, document 01's, since the answer prints it and the theorem refused-exactly (proofs/AnswerLaws) says it.
#[derive(Clone, Copy)]
pub struct Refusal {
    pub reason: usize,
    pub file: usize,
    pub place: usize,
}

// Whether a file of that length is allowed and has room.
fn fits(long: usize, room: usize) -> bool
    ensures { result ≡ leb long (min room most_bytes) }
{
    long <= 16384 && long <= room
}

// The number of the refusal of lines that are sound, if there is one.
fn reason(p: Passed, rules: usize, goal: usize) -> Option<usize>
    ensures { Reasons p rules goal result }
{
    if !p.ok {
        return Some(13);
    }
    if p.conjectures != 1 {
        return Some(13);
    }
    if 256 < p.axioms {
        return Some(6);
    }
    if p.rules.deep {
        return Some(3);
    }
    if p.goal.deep {
        return Some(3);
    }
    if !fits(p.rules.at, rules) {
        return Some(10);
    }
    if !fits(p.goal.at, goal) {
        return Some(10);
    }
    None
}

// What the lines would write.
fn measured(text: &[u8]) -> Passed
    ensures { Measures text.now result }
{
    let mut rules = [0u8; 1];
    let mut goal = [0u8; 1];
    pass(text, &mut rules, &mut goal)
}

fn refused(reason: usize) -> Result<Written, Refusal>
    ensures { result ≡ converted.refused reason 1 0 }
{
    Err(Refusal {
        reason,
        file: 1,
        place: 0,
    })
}

// A text of any bytes, with any two buffers.
pub fn tptp(text: &[u8], rules: &mut [u8], goal: &mut [u8]) -> Result<Written, Refusal>
    ensures { Converts text.now rules.old rules.new goal.old goal.new result }
{
    if 16384 < text.len() {
        return refused(1);
    }
    if !sound_text(text) {
        return refused(12);
    }
    if let Some(n) = reason(measured(text), rules.len(), goal.len()) {
        return refused(n);
    }
    let p = pass(text, rules, goal);
    Ok(Written {
        rules: p.rules.at,
        goal: p.goal.at,
    })
}
