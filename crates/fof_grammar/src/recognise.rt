// Whether a text is `fof` lines by TPTP's grammar (document 02, request One).
ghost use Rattle.std.specs.Prelude.{◌≡◌};
ghost use Rattle.fof_productions.specs.Sound.{sound_book};

use crate::machine::derived;
use crate::read::read;

// The answer for a text of at most 16,384 bytes; no longer one is a book.
pub fn sound_text(text: &[u8]) -> bool
    ensures { result ≡ sound_book text.now }
{
    if 16384 < text.len() {
        return false;
    }
    let mut codes = [0u8; 16384];
    let mut stack = [0u8; 196621];
    match read(text, &mut codes) {
        Err(_) => false,
        Ok(n) => derived(&codes[..n], &mut stack),
    }
}
