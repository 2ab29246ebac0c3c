// Marks of candidates, a byte for each: 0 where there is none. There are at most 256 candidates; the byte behind them may count what was done for the marks.
ghost use Rattle.std.specs.Prelude.{◌≡◌, length, replicate, set};
ghost use Rattle.narrow.specs.Narrow.{More};

// No marks.
pub fn unmark_all(marks: &mut [u8])
    ensures { marks.new ≡ replicate (length marks.old) 0 }
{
    marks.fill(0);
}

// A candidate marked, if there is a mark for it.
pub(crate) fn mark(marks: &mut [u8], i: u32)
    ensures { marks.new ≡ set marks.old i 1 }
{
    let k = i as usize;
    if k < marks.len() {
        marks[k] = 1;
    }
}

// One more body is looked at for the marks: the byte behind those of candidates counts them. No: there were 32.
// Kept: the count lies behind the marks in the memory that the caller lends, since nothing is allocated here.
pub fn spend(marks: &mut [u8]) -> bool
    ensures { More marks.old marks.new }
{
    if marks.len() <= 256 {
        return false;
    }
    let n = marks[256];
    if 32 <= n {
        return false;
    }
    marks[256] = n + 1;
    true
}
