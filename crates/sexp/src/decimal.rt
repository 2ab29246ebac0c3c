// Decimal lengths in bytes (document 01, "The carrier and the words"): any number of digits, no leading zero save 0 itself.
ghost use Rattle.std.specs.Prelude.{◌≡◌, true, ◌+◌, ◌-◌, ◌*◌, ◌<◌, ◌≤◌, min, length, get_or};
ghost use Rattle.sexp.specs.Decimal.{is_digit};
ghost use Rattle.sexp.specs.Number.{largest, Number};

// What a number says, and where it ends. A number too large for any file says the largest.
#[derive(Clone, Copy)]
pub(crate) struct Num {
    pub(crate) value: usize,
    pub(crate) next: usize,
}

pub(crate) fn digit(b: u8) -> bool
    ensures { result ≡ is_digit b }
{
    b.is_ascii_digit()
}

// One digit more.
fn grow(v: usize, b: u8) -> usize
    requires { (48 ≤ b) × (b ≤ 57) }
    ensures { result ≡ min (v * 10 + (b - 48)) largest }
{
    v.saturating_mul(10).saturating_add((b - b'0') as usize)
}

// The number whose first digit is at `at`: 0 alone, or as many digits as follow.
pub(crate) fn number(s: &[u8], at: usize) -> Num
    requires { (at < length s.now) × (is_digit (get_or s.now at 0) ≡ true) }
    ensures { Number s.now at result.value result.next }
{
    let mut v = (s[at] - b'0') as usize;
    for i in at + 1..s.len() {
        if v == 0 {
            return Num { value: v, next: i };
        }
        let b = s[i];
        if !digit(b) {
            return Num { value: v, next: i };
        }
        v = grow(v, b);
    }
    Num {
        value: v,
        next: s.len(),
    }
}
