// Bytes laid into a buffer, as far as it has room: a byte, a word, a number (document 01, "What comes back").
// A place may lie beyond the buffer's end, so that the same walk measures what it writes.
#![tactic(auto)]

ghost use Rattle.std.specs.Prelude.{◌≡◌, ◌+◌, ◌%◌, [], ◌∷◌, length};
ghost use Rattle.sexp.specs.Decimal.{decimal};
ghost use Rattle.pen.specs.Laid.{Puts};
ghost use Rattle.pen.specs.Numeral.{numeral};

// One byte; the place after it, counted no further than a machine word goes.
pub fn put_byte(buf: &mut [u8], at: usize, b: u8) -> usize
    ensures { Puts at (b ∷ []) buf.old buf.new result }
{
    let m = at.saturating_add(1);
    if at < buf.len() {
        buf[at] = b;
        return m;
    }
    m
}

// Some bytes; the place after them.
pub fn put(buf: &mut [u8], at: usize, word: &[u8]) -> usize
    ensures { Puts at word.now buf.old buf.new result }
{
    let mut m = at;
    for b in word {
        m = put_byte(buf, m, *b);
    }
    m
}

// The last digit of a number; the place after it.
fn put_digit(buf: &mut [u8], at: usize, n: usize) -> usize
    ensures { Puts at ((48 + n % 10) ∷ []) buf.old buf.new result }
{
    put_byte(buf, at, b'0' + (n % 10) as u8)
}

// A number in decimal; the place after it. Each turn has one digit less to write.
pub fn put_decimal(buf: &mut [u8], at: usize, n: usize) -> usize
    ensures { Puts at (decimal n) buf.old buf.new result }
{
    if n < 10 {
        return put_digit(buf, at, n);
    }
    let m = put_decimal(buf, at, n / 10);
    put_digit(buf, m, n)
}

// How many digits a number has.
fn digits(n: usize) -> usize
    ensures { result ≡ length (decimal n) }
{
    if n < 10 {
        return 1;
    }
    digits(n / 10) + 1
}

// A number, as a string of its digits; the place after it.
pub fn put_number(buf: &mut [u8], at: usize, i: usize) -> usize
    ensures { Puts at (numeral i) buf.old buf.new result }
{
    let m = put_decimal(buf, at, digits(i));
    let m = put_byte(buf, m, b':');
    put_decimal(buf, m, i)
}
