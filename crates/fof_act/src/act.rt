// A plan carried out.
ghost use Rattle.std.specs.Prelude.{true, ◌≡◌, ◌+◌, ◌-◌, ◌≤◌, [], ◌∷◌, ◌++◌};
ghost use Rattle.basics.specs.Choice.{choose};
ghost use Rattle.basics.specs.Text.{octets};
ghost use Rattle.fof_truth.specs.Numbered.{Scope};
ghost use Rattle.fof_part.specs.Mark.{Mark};
ghost use Rattle.fof_part.specs.Due.{headed, many_headed, link_word, quantifier_word};
ghost use Rattle.fof_pass.specs.Ahead.{between};
ghost use Rattle.fof_pass.specs.Dues.{link_is, quantifier_is};
ghost use Rattle.fof_pass.specs.Ink.{Inks};
ghost use Rattle.fof_pass.specs.Names.{Scoped};
ghost use Rattle.fof_act.specs.Holding.{named_marks, variable_marks, WrittenAs, Writing, Binding, Pushing, Acts};

use fof_pass::{
    Ahead, Due, Pen, cut, end, enter, head, heads, number, number_of, push_short, string,
};
use fof_plan::{Plan, Writes};
use sexp::is_name_of;

// How far a formula is read: whether it is of the part so far, the place, the dues and the bound variables, and the pen.
// Kept: the definitions DoneAs and ReadAs, and Bodies of fof_lines, have the flag as a field.
#[derive(Clone, Copy)]
pub struct Now {
    pub ok: bool,
    pub at: usize,
    pub top: usize,
    pub bound: usize,
    pub pen: Pen,
}

// What was written, if it could be.
// Kept: the definitions WrittenAs and Writing have the flag as a field, and `act` hands both values on as they are.
#[derive(Clone, Copy)]
pub struct Wrote {
    pub ok: bool,
    pub pen: Pen,
}

// Something was written, and the pen is behind it.
fn done(pen: Pen) -> Wrote
    ensures { result ≡ record { ok = true; pen = pen } }
{
    Wrote { ok: true, pen }
}

// The head of an atom or a function with its name.
fn named(text: &[u8], buf: &mut [u8], pen: Pen, a: Ahead, word: &[u8]) -> Wrote
    ensures { WrittenAs (named_marks word.now (between text.now a.start a.end)) result pen buf.old buf.new }
{
    let w = cut(text, a.start, a.end);
    if !is_name_of(w) {
        return Wrote { ok: false, pen };
    }
    let p = head(buf, pen, word);
    done(string(buf, p, w))
}

// A variable by its number.
// Kept: what is bound is the front of `names`, of which `bind` writes the next place; the text isn't what ends there.
fn variable(text: &[u8], names: &[usize], bound: usize, buf: &mut [u8], pen: Pen, a: Ahead) -> Wrote
    ensures { (sc : Scope) → Scoped text.now names.now bound sc → WrittenAs (variable_marks sc (between text.now a.start a.end)) result pen buf.old buf.new }
{
    match number_of(text, names, bound, cut(text, a.start, a.end)) {
        None => Wrote { ok: false, pen },
        Some(i) => {
            let p = head(buf, pen, b"v");
            let p = number(buf, p, i);
            done(end(buf, p))
        }
    }
}

// The whole of `top`.
fn top_written(buf: &mut [u8], pen: Pen) -> Pen
    ensures { Inks (headed (octets "top") ++ (Mark.end ∷ [])) pen buf.old buf.new result }
{
    let p = head(buf, pen, b"top");
    end(buf, p)
}

// So many heads of `and` or of `or`.
fn links(buf: &mut [u8], pen: Pen, conj: bool, number: usize) -> Pen
    ensures { Inks (many_headed (link_word (link_is conj)) number) pen buf.old buf.new result }
{
    if conj {
        return heads(buf, pen, b"and", number);
    }
    heads(buf, pen, b"or", number)
}

// The head of `all` or of `some`.
fn quantifier(buf: &mut [u8], pen: Pen, every: bool) -> Pen
    ensures { Inks (headed (quantifier_word (quantifier_is every))) pen buf.old buf.new result }
{
    if every {
        return head(buf, pen, b"all");
    }
    head(buf, pen, b"some")
}

// What a plan writes.
// Kept: `bound` is the front of `names`, as in `variable`; the memory is lent to each function apart, since each writes another part of it.
pub(crate) fn write(
    text: &[u8],
    names: &[usize],
    bound: usize,
    buf: &mut [u8],
    pen: Pen,
    a: Ahead,
    w: Writes,
) -> Wrote
    ensures { Writing text.now names.now bound buf.old buf.new pen a w result }
{
    match w {
        Writes::Nothing => done(pen),
        Writes::Heads { conj, number } => done(links(buf, pen, conj, number)),
        Writes::Implies => done(head(buf, pen, b"imp")),
        Writes::Binds(every) => done(quantifier(buf, pen, every)),
        Writes::Top => done(top_written(buf, pen)),
        Writes::Atom => named(text, buf, pen, a, b"atom"),
        Writes::Function => named(text, buf, pen, a, b"f"),
        Writes::Variable => variable(text, names, bound, buf, pen, a),
        Writes::End => done(end(buf, pen)),
        Writes::Leaves => done(end(buf, pen)),
    }
}

// How many variables are bound then.
// Kept: this writes the place where the slice would end.
pub(crate) fn bind(names: &mut [usize], bound: usize, at: usize, w: Writes) -> usize
    ensures { Binding names.old names.new bound at w result }
{
    match w {
        Writes::Nothing => bound,
        Writes::Heads { .. } => bound,
        Writes::Implies => bound,
        Writes::Binds(_) => {
            enter(names, bound, at);
            bound.saturating_add(1)
        }
        Writes::Top => bound,
        Writes::Atom => bound,
        Writes::Function => bound,
        Writes::Variable => bound,
        Writes::End => bound,
        Writes::Leaves => bound.saturating_sub(1),
    }
}

// What a plan leaves due, its first due on top.
// Kept: this writes the places from where the slice would end.
fn pushed(stack: &mut [Due<u16>], top: usize, p: Plan) -> usize
    ensures { Pushing stack.old stack.new top p result }
{
    let fourth = p.fourth;
    let third = p.third;
    let second = p.second;
    let first = p.first;
    let top = push_short(stack, top, fourth);
    let top = push_short(stack, top, third);
    let top = push_short(stack, top, second);
    push_short(stack, top, first)
}

// Where the signs left start.
pub(crate) fn place(takes: bool, end: usize, at: usize) -> usize
    ensures { result ≡ choose takes end at }
{
    if takes { end } else { at }
}

// A plan carried out, where the sign ahead is known.
pub fn act(
    text: &[u8],
    stack: &mut [Due<u16>],
    names: &mut [usize],
    buf: &mut [u8],
    n: Now,
    a: Ahead,
    p: Plan,
) -> Now
    ensures { Acts text.now stack.old stack.new names.old names.new buf.old buf.new n a p result }
{
    let pen = n.pen;
    if !p.ok {
        return Now { ok: false, ..n };
    }
    let writes = p.writes;
    let w = write(text, names, n.bound, buf, pen, a, writes);
    let bound = bind(names, n.bound, n.at, writes);
    let top = pushed(stack, n.top, p);
    let at = place(p.takes, a.end, n.at);
    let pen = w.pen;
    Now {
        ok: w.ok,
        at,
        top,
        bound,
        pen,
    }
}
