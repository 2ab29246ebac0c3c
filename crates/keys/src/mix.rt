// The numbers of names, and how a number is mixed with another. All of them are below 1,073,741,824, so nothing here is ever too large.
ghost use Rattle.std.specs.Prelude.{◌≡◌, ◌+◌, ◌*◌, ◌%◌};
ghost use Rattle.room.specs.Frame.{held};
ghost use Rattle.keys.specs.Key as key;
ghost use Rattle.keys.specs.Walk.{TextAt};

use sexp::plain;

// A number mixed with another.
pub(crate) fn mix(h: u32, x: u32) -> u32
    ensures { result ≡ key.mix h x }
{
    let sum = (h as usize) * 1000003 + (x as usize) * 7919 + 12345;
    (sum % 1073741824) as u32
}

// A number with one more octet.
fn more(h: u32, octet: u8) -> u32
    ensures { result ≡ key.more h octet }
{
    let sum = (h as usize) * 257 + octet as usize;
    (sum % 1073741824) as u32
}

// The number of octets.
fn octets_key(w: &[u8]) -> u32
    ensures { result ≡ key.text_key w.now }
{
    w.iter().fold(1, |h, octet| more(h, *octet))
}

// The number of the name at an offset.
pub(crate) fn text_key(s: &[u8], at: usize) -> u32
    ensures { TextAt s.now at result }
{
    match plain(s, at) {
        None => 0,
        Some((from, count)) => {
            let to = from + count;
            octets_key(&s[from..to])
        }
    }
}

// The number of an atom: odd.
pub(crate) fn odd(k: u32) -> u32
    ensures { result ≡ k % 1073741824 * 2 + 1 }
{
    k % 1073741824 * 2 + 1
}

// The number of a predicate: even, and not 0.
pub(crate) fn even(k: u32) -> u32
    ensures { result ≡ k % 1073741824 * 2 + 2 }
{
    k % 1073741824 * 2 + 2
}
