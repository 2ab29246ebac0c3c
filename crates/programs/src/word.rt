// A height or a size as a program is given it: a word of digits.
ghost use Rattle.std.specs.Prelude.{◌≡◌, ◌+◌, ◌-◌, ◌*◌, ◌≤◌, min};
ghost use Rattle.sexp.specs.Number.{largest};
ghost use Rattle.programs.specs.Said.{said, held};

// One digit more.
fn grow(v: usize, b: u8) -> usize
    requires { (48 ≤ b) × (b ≤ 57) }
    ensures { result ≡ min (v * 10 + (b - 48)) largest }
{
    v.saturating_mul(10).saturating_add(usize::from(b - b'0'))
}

// What a word says, if it is of digits alone; a number that no machine word holds says the largest.
// Kept: `parse` takes a sign too, and refuses a number that no machine word holds (`said`, `held`).
pub fn number(w: &[u8]) -> Option<usize>
    ensures { result ≡ held (said w.now) }
{
    if w.is_empty() {
        return None;
    }
    let mut v = 0;
    for b in w {
        if !b.is_ascii_digit() {
            return None;
        }
        v = grow(v, *b);
    }
    Some(v)
}
