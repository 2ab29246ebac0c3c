// The next token from an offset on.
ghost use Rattle.std.specs.Prelude.{◌≡◌};
ghost use Rattle.fof_tokens.specs.Next.{lexed_at};

use crate::found::Found;
use crate::pieces::piece_at;
use crate::{NoToken, Token};

// What is next from `at` on: spaces and comments are passed; behind the end of the text nothing is.
pub fn next_token(text: &[u8], at: usize) -> Result<Option<Token>, NoToken>
    ensures { result ≡ lexed_at text.now at }
{
    let mut i = at;
    // Kept: each turn goes on behind the piece that it passed, which no range or adapter steps by.
    while i < text.len() {
        match piece_at(text, i) {
            None => {
                return Err(NoToken);
            }
            Some(Found::Token { kind, end }) => {
                return Ok(Some(Token {
                    kind,
                    start: i,
                    end,
                }));
            }
            Some(Found::Gap { end }) => {
                i = end;
            }
        }
    }
    Ok(None)
}
