// Bytes of one class, one after another: as many as there are.
ghost use Rattle.std.specs.Prelude.{◌≡◌, ◌≤◌, ◌+◌, drop, length};
ghost use Rattle.std.specs.List.{prefix_len};
ghost use Rattle.fof_tokens.specs.Runs.{passes, span};

use crate::bytes::is_alnum;

#[derive(Clone, Copy)]
pub(crate) enum Class {
    // of a word, after its first letter
    Alnum,
    // of a number
    Digit,
    // of a line comment
    Line,
}

fn in_class(class: Class, c: u8) -> bool
    ensures { result ≡ passes class c }
{
    match class {
        Class::Alnum => is_alnum(c),
        Class::Digit => c.is_ascii_digit(),
        Class::Line => c != 10,
    }
}

// How many bytes of the class a text begins with.
fn run_length(text: &[u8], class: Class) -> usize
    ensures value { result ≡ prefix_len (passes class) text.now }
    ensures within { result ≤ length text.now }
{
    text.iter().take_while(|c| in_class(class, **c)).count()
}

// Where the bytes of the class from `at` on end.
pub(crate) fn run_end(text: &[u8], at: usize, class: Class) -> usize
    ensures { result ≡ at + span (passes class) (drop at text.now) }
{
    if text.len() <= at {
        return at;
    }
    at + run_length(&text[at..], class)
}
