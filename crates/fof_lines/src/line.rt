// A line: what stands before its formula, the formula, and what stands behind it.
ghost use Rattle.std.specs.Prelude.{◌≡◌, false, List};
ghost use Rattle.std.proofs.Math.Option.{some};
ghost use Rattle.fof_part.specs.Sign as part;
ghost use Rattle.fof_pass.specs.Ahead.{signs_at};
ghost use Rattle.fof_pass.specs.Dues.{sort_is};
ghost use Rattle.fof_pass.specs.Taking.{TakesTo};
ghost use Rattle.fof_lines.specs.Lined.{opened, labelled, roled, OpenedAs, Introduces, Bodies};

use fof_act::{Now, formula_short, stopped};
use fof_pass::{Due, Pen, Sign, Sort, cut, sign_ahead, take};
use sexp::{is_name_of, same};

// fof(
fn opening(text: &[u8], at: usize) -> Option<usize>
    ensures { (ss : List part.Sign) → signs_at text.now at ≡ some ss → TakesTo text.now result (opened ss) }
{
    let a = sign_ahead(text, at);
    if a.sign != Sign::Lower {
        return None;
    }
    if !same(cut(text, a.start, a.end), b"fof") {
        return None;
    }
    take(text, a.end, Sign::Opens)
}

// the label and a comma
fn label(text: &[u8], at: usize) -> Option<usize>
    ensures { (ss : List part.Sign) → signs_at text.now at ≡ some ss → TakesTo text.now result (labelled ss) }
{
    let a = sign_ahead(text, at);
    if a.sign != Sign::Lower {
        return None;
    }
    if !is_name_of(cut(text, a.start, a.end)) {
        return None;
    }
    take(text, a.end, Sign::Comma)
}

#[derive(Clone, Copy)]
pub enum Role {
    Axiom,
    Conjecture,
}

// the role
#[derive(Clone, Copy)]
pub struct Opened {
    pub role: Role,
    pub at: usize,
}

fn role_ahead(text: &[u8], at: usize) -> Option<Opened>
    ensures { (ss : List part.Sign) → signs_at text.now at ≡ some ss → OpenedAs (roled ss) text.now result }
{
    let a = sign_ahead(text, at);
    if a.sign != Sign::Lower {
        return None;
    }
    let n = take(text, a.end, Sign::Comma)?;
    if same(cut(text, a.start, a.end), b"axiom") {
        return Some(Opened {
            role: Role::Axiom,
            at: n,
        });
    }
    if same(cut(text, a.start, a.end), b"conjecture") {
        return Some(Opened {
            role: Role::Conjecture,
            at: n,
        });
    }
    None
}

// Up to the formula.
pub fn introduced(text: &[u8], at: usize) -> Option<Opened>
    ensures { Introduces text.now at result }
{
    let n = opening(text, at)?;
    let n = label(text, n)?;
    role_ahead(text, n)
}

// The formula and what closes the line.
pub fn body(
    text: &[u8],
    stack: &mut [Due<u16>],
    names: &mut [usize],
    buf: &mut [u8],
    pen: Pen,
    at: usize,
    sort: Sort,
) -> Now
    ensures { Bodies text.now stack.old stack.new names.old names.new buf.old buf.new pen at (sort_is sort) result }
{
    let n = formula_short(text, stack, names, buf, pen, at, sort);
    if !n.ok {
        return n;
    }
    let Some(m) = take(text, n.at, Sign::Closes) else {
        return stopped(n);
    };
    let Some(m) = take(text, m, Sign::Dot) else {
        return stopped(n);
    };
    Now {
        ok: true,
        at: m,
        ..n
    }
}
