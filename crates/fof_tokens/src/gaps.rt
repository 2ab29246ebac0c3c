// Block comments: where they first can end.
ghost use Rattle.std.specs.Prelude.{◌≡◌, ◌&&◌, ◌+◌, eqb, drop, get_or};
ghost use Rattle.fof_tokens.specs.Machine.{soonest};
ghost use Rattle.fof_tokens.specs.Begins.{comment_text, comment_star};
ghost use Rattle.fof_tokens.specs.Found.{end_of};

use sexp::byte;

// Whether a block comment closes at an offset.
fn shuts(text: &[u8], at: usize) -> bool
    ensures { result ≡ eqb (get_or text.now at 0) 42 && eqb (get_or text.now (at + 1) 0) 47 }
{
    if byte(text, at) != 42 {
        return false;
    }
    byte(text, at + 1) == 47
}

// Where the comment ends whose text starts at `at`.
fn text_end(text: &[u8], at: usize) -> Option<usize>
    ensures { end_of result ≡ soonest comment_text at (drop at text.now) }
{
    for i in at..text.len() {
        if shuts(text, i) {
            return Some(i + 2);
        }
    }
    None
}

// Where the comment ends whose slash is before `at`.
pub(crate) fn block_end(text: &[u8], at: usize) -> Option<usize>
    ensures { end_of result ≡ soonest comment_star at (drop at text.now) }
{
    if byte(text, at) != 42 {
        return None;
    }
    text_end(text, at + 1)
}
