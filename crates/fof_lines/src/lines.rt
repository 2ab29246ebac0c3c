// All lines: the axioms into the rules' file, the conjectures into the goal's.
ghost use Rattle.std.specs.Prelude.{◌≡◌, false, List, ℕ, ◌+◌, ◌<◌, length};
ghost use Rattle.fof_truth.specs.Formula as truth;
ghost use Rattle.fof_lines.specs.Lined.{Lines, Adds, Starts, Ends, PassesIn, Passes};

use crate::line::{Role, body, introduced};
use fof_pass::{Due, Pen, Sign, Sort, end, head, sign_ahead};

// What became of the lines: whether all are of the part, both pens, and how many rules and goals there are.
// Kept: the definitions Added, Filed, Starts and Ends, and Sized of tptp, have the flag as a field.
#[derive(Clone, Copy)]
pub struct Passed {
    pub ok: bool,
    pub at: usize,
    pub rules: Pen,
    pub goal: Pen,
    pub axioms: usize,
    pub conjectures: usize,
}

// A line is none of the part.
fn refused(p: Passed) -> Passed
    ensures { result.ok ≡ false }
{
    Passed { ok: false, ..p }
}

// An axiom, up to its end, into the rules' file.
// Kept: this and `conjecture` differ in the file, the pen and the count that go on, and not in a type or a constant; what they share is `body`.
fn axiom(
    text: &[u8],
    rules: &mut [u8],
    stack: &mut [Due<u16>],
    names: &mut [usize],
    p: Passed,
    at: usize,
) -> Passed
    ensures { (gs : List ℕ) → Lines truth.Role.as_axiom text.now stack.old stack.new names.old names.new rules.old rules.new gs gs p at result }
{
    let pen = p.rules;
    let n = body(text, stack, names, rules, pen, at, Sort::Clause);
    let axioms = p.axioms.saturating_add(1);
    Passed {
        ok: n.ok,
        at: n.at,
        rules: n.pen,
        axioms,
        ..p
    }
}

// A conjecture, up to its end, into the goal's.
// Kept: it differs from `axiom` in the file, the pen and the count that go on; what they share is `body`.
fn conjecture(
    text: &[u8],
    goal: &mut [u8],
    stack: &mut [Due<u16>],
    names: &mut [usize],
    p: Passed,
    at: usize,
) -> Passed
    ensures { (rs : List ℕ) → Lines truth.Role.as_conjecture text.now stack.old stack.new names.old names.new rs rs goal.old goal.new p at result }
{
    let pen = p.goal;
    let n = body(text, stack, names, goal, pen, at, Sort::Goal);
    let conjectures = p.conjectures.saturating_add(1);
    Passed {
        ok: n.ok,
        at: n.at,
        goal: n.pen,
        conjectures,
        ..p
    }
}

// One line, by its role.
fn line(
    text: &[u8],
    rules: &mut [u8],
    goal: &mut [u8],
    stack: &mut [Due<u16>],
    names: &mut [usize],
    p: Passed,
) -> Passed
    ensures { Adds text.now stack.old stack.new names.old names.new rules.old rules.new goal.old goal.new p result }
{
    let Some(o) = introduced(text, p.at) else {
        return refused(p);
    };
    match o.role {
        Role::Axiom => axiom(text, rules, stack, names, p, o.at),
        Role::Conjecture => conjecture(text, goal, stack, names, p, o.at),
    }
}

// No line is read yet; the head of the rules' file is written.
fn started(rules: &mut [u8]) -> Passed
    ensures { Starts rules.old rules.new result }
{
    let start = Pen {
        at: 0,
        depth: 0,
        deep: false,
    };
    let pen = head(rules, start, b"rules");
    Passed {
        ok: true,
        at: 0,
        rules: pen,
        goal: start,
        axioms: 0,
        conjectures: 0,
    }
}

// All lines are read; the end of the rules' file is written.
fn ended(rules: &mut [u8], p: Passed) -> Passed
    ensures { Ends rules.old rules.new p result }
{
    let pen = end(rules, p.rules);
    Passed { rules: pen, ..p }
}

// The lines one after the other, until no sign is ahead; a text of 16,384 bytes has fewer than 16,385 of them.
fn lines(
    text: &[u8],
    rules: &mut [u8],
    goal: &mut [u8],
    stack: &mut [Due<u16>],
    names: &mut [usize],
) -> Passed
    ensures { PassesIn text.now stack.old stack.new names.old names.new rules.old rules.new goal.old goal.new result }
{
    let mut p = started(rules);
    let mut left = 16385usize;
    // Kept: the turns are counted down behind the test for a sign; behind a `for` over them it would be made once more.
    loop {
        let a = sign_ahead(text, p.at);
        if a.sign == Sign::Nothing {
            return ended(rules, p);
        }
        if left == 0 {
            return refused(p);
        }
        p = line(text, rules, goal, stack, names, p);
        if !p.ok {
            return p;
        }
        left -= 1;
    }
}

// So many places, all the same.
// Kept: an array of `Due::Nothing` as such is filled twice, once more by a loop over its places; of a value that is handed in it is filled once.
fn filled<T: Copy, const N: usize>(x: T) -> [T; N]
    ensures { length result ≡ N }
{
    [x; N]
}

// All lines of a text, with work memory for the longest that is read.
pub fn pass(text: &[u8], rules: &mut [u8], goal: &mut [u8]) -> Passed
    ensures { Passes text.now rules.old rules.new goal.old goal.new result }
{
    let mut stack: [Due<u16>; 98400] = filled(Due::Nothing);
    let mut names = [0usize; 16385];
    lines(text, rules, goal, &mut stack, &mut names)
}
