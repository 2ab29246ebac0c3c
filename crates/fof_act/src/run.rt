// The dues done one after the other, until none is left.
ghost use Rattle.std.specs.Prelude.{◌-◌, ◌≡◌, false};
ghost use Rattle.fof_pass.specs.Dues.{sort_is};
ghost use Rattle.fof_act.specs.Holding.{Steps, Formulas};

use crate::act::{Now, act};
use crate::wide;
use fof_pass::{Due, Pen, Sort, due_of, entry, push, push_short, sign_ahead};
use fof_plan::plan_for;

// The due on top.
fn step(text: &[u8], stack: &mut [Due<u16>], names: &mut [usize], buf: &mut [u8], n: Now) -> Now
    ensures { Steps text.now stack.old stack.new names.old names.new buf.old buf.new n result }
{
    let top = n.top.saturating_sub(1);
    let held = entry(stack, top, Due::Nothing);
    let d = due_of(held);
    let a = sign_ahead(text, n.at);
    let p = plan_for(text, n.at, d, a.sign);
    let m = Now { top, ..n };
    act(text, stack, names, buf, m, a, p)
}

// No formula of the part, or none of a line.
pub fn stopped(n: Now) -> Now
    ensures { result.ok ≡ false }
{
    Now { ok: false, ..n }
}

// A formula of a sort, with as many steps as the bytes left can need.
pub fn formula(
    text: &[u8],
    stack: &mut [Due],
    names: &mut [usize],
    buf: &mut [u8],
    pen: Pen,
    at: usize,
    sort: Sort,
) -> Now
    ensures { Formulas text.now stack.old stack.new names.old names.new buf.old buf.new pen at (sort_is sort) result }
{
    let top = push(stack, 0, Due::Formula(sort));
    let mut n = Now {
        ok: true,
        at,
        top,
        bound: 0,
        pen,
    };
    let mut left = 98400usize;
    // Kept: the turns are counted down beside the loop's own test, which comes first; behind a `for` over them it would be made once more.
    while 0 < n.top {
        if left == 0 {
            return stopped(n);
        }
        if !n.ok {
            return stopped(n);
        }
        n = wide::step(text, stack, names, buf, n);
        left -= 1;
    }
    n
}

// The same, on a stack that holds its dues in fewer bytes.
// Kept: a function of its own beside `formula`, as src/wide.rt says.
pub fn formula_short(
    text: &[u8],
    stack: &mut [Due<u16>],
    names: &mut [usize],
    buf: &mut [u8],
    pen: Pen,
    at: usize,
    sort: Sort,
) -> Now
    ensures { Formulas text.now stack.old stack.new names.old names.new buf.old buf.new pen at (sort_is sort) result }
{
    let top = push_short(stack, 0, Due::Formula(sort));
    let mut n = Now {
        ok: true,
        at,
        top,
        bound: 0,
        pen,
    };
    let mut left = 98400usize;
    // Kept: the turns are counted down beside the loop's own test, which comes first; behind a `for` over them it would be made once more.
    while 0 < n.top {
        if left == 0 {
            return stopped(n);
        }
        if !n.ok {
            return stopped(n);
        }
        n = step(text, stack, names, buf, n);
        left -= 1;
    }
    n
}
