// The carrier's judgement of a whole file (document 01, refusals 2 and 3): is it one canonical expression and not a byte more, and nested at most so deep?
ghost use Rattle.std.specs.Prelude.{◌≡◌, ℕ, ◌≤◌, length, drop};
ghost use Rattle.sexp.specs.Scan.{after, owed, hints_read, deeper, scan, carrier_of};

use crate::text::text;

// Kept: three answers, and no Result: reading goes on after a list that is too deep, since a fault behind it comes first.
#[derive(Clone, Copy)]
pub enum Carrier {
    // One canonical expression, and no list lies deeper than the limit.
    Sound,
    // Not one canonical expression: so many bytes could begin one.
    Fault(usize),
    // One canonical expression, and here opens its first list above the limit.
    Deep(usize),
}

// Whether display hints are read. Document 01 wants a bracket to be a fault.
const HINTS_READ: bool = false;

// The verdict so far, after a list is opened at `at`, in `lists` lists.
fn deepen(v: Carrier, lists: usize, at: usize, limit: usize) -> Carrier
    ensures { result ≡ deeper limit lists at v }
{
    match v {
        Carrier::Sound => {
            if lists == limit {
                Carrier::Deep(at)
            } else {
                Carrier::Sound
            }
        }
        Carrier::Fault(o) => Carrier::Fault(o),
        Carrier::Deep(o) => Carrier::Deep(o),
    }
}

// The verdict v, unless something follows the expression that ends at `at`.
fn finish(s: &[u8], at: usize, v: Carrier) -> Carrier
    requires { at ≤ length s.now }
    ensures { (limit : ℕ) → result ≡ scan hints_read limit (owed (after 0) 0) at v (drop at s.now) }
{
    if at == s.len() { v } else { Carrier::Fault(at) }
}

// The verdict on a file of any bytes, for any limit of nesting. `lists` lists are open at `at`.
pub fn canonical(s: &[u8], limit: usize) -> Carrier
    ensures { result ≡ carrier_of limit s.now }
{
    let mut v = Carrier::Sound;
    let mut at = 0;
    let mut lists = 0;
    // Kept: a string is jumped over by its length, so the offset runs over no range.
    while at < s.len() {
        let c = s[at];
        if c == b'(' {
            v = deepen(v, lists, at, limit);
            lists += 1;
            at += 1;
            continue;
        }
        if c == b')' {
            if lists == 0 {
                return Carrier::Fault(at);
            }
            if lists == 1 {
                return finish(s, at + 1, v);
            }
            lists -= 1;
            at += 1;
            continue;
        }
        match text(s, at, HINTS_READ) {
            Err(o) => {
                return Carrier::Fault(o);
            }
            Ok((_, to)) => {
                if lists == 0 {
                    return finish(s, to, v);
                }
                at = to;
            }
        }
    }
    Carrier::Fault(at)
}
