// How a slot's words are compared.
ghost use Rattle.std.specs.Prelude.{◌≡◌, ◌+◌, eqb};

// Whether a word is one more than a number.
pub(crate) fn marks(w: u32, n: usize) -> bool
    ensures { result ≡ eqb w (n + 1) }
{
    w != 0 && (w - 1) as usize == n
}
