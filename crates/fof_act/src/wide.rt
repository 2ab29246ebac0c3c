// A plan carried out, and the due on top done, on a stack whose dues hold a number of any size.
// Kept: these three differ from those of src/act.rt and src/run.rt in the stack's type and in how a due goes onto it and comes back. One function over both would take the number's type by a trait, and its clauses would speak of what the stack's dues stand for where they speak of the stack.
ghost use Rattle.std.specs.Prelude.{◌-◌, ◌≡◌};
ghost use Rattle.fof_act.specs.Holding.{Pushing, Acts, Steps};

use crate::act::{Now, bind, place, write};
use fof_pass::{Ahead, Due, entry, push, sign_ahead};
use fof_plan::{Plan, plan_for};

// What a plan leaves due, its first due on top.
// Kept: this writes the places from where the slice would end.
fn pushed(stack: &mut [Due], top: usize, p: Plan) -> usize
    ensures { Pushing stack.old stack.new top p result }
{
    let fourth = p.fourth;
    let third = p.third;
    let second = p.second;
    let first = p.first;
    let top = push(stack, top, fourth);
    let top = push(stack, top, third);
    let top = push(stack, top, second);
    push(stack, top, first)
}

// A plan carried out, where the sign ahead is known.
fn act(
    text: &[u8],
    stack: &mut [Due],
    names: &mut [usize],
    buf: &mut [u8],
    n: Now,
    a: Ahead,
    p: Plan,
) -> Now
    ensures { Acts text.now stack.old stack.new names.old names.new buf.old buf.new n a p result }
{
    let pen = n.pen;
    if !p.ok {
        return Now { ok: false, ..n };
    }
    let writes = p.writes;
    let w = write(text, names, n.bound, buf, pen, a, writes);
    let bound = bind(names, n.bound, n.at, writes);
    let top = pushed(stack, n.top, p);
    let at = place(p.takes, a.end, n.at);
    let pen = w.pen;
    Now {
        ok: w.ok,
        at,
        top,
        bound,
        pen,
    }
}

// The due on top.
pub fn step(text: &[u8], stack: &mut [Due], names: &mut [usize], buf: &mut [u8], n: Now) -> Now
    ensures { Steps text.now stack.old stack.new names.old names.new buf.old buf.new n result }
{
    let top = n.top.saturating_sub(1);
    let d = entry(stack, top, Due::Nothing);
    let a = sign_ahead(text, n.at);
    let p = plan_for(text, n.at, d, a.sign);
    let m = Now { top, ..n };
    act(text, stack, names, buf, m, a, p)
}
