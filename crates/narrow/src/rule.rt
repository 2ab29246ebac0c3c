// Where the one head of a clause stands: through `all` and `imp`, and nowhere behind an `and`.
ghost use Rattle.narrow.specs.Heads.{HeadAt};

use packet::Word;
use places::plus;
use reader::word_at;
use room::from;
use sexp::past;

// Where the head of the clause at an offset stands that nests at most `nest`, if it has one.
pub(crate) fn head_at(s: &[u8], at: usize, nest: usize) -> Option<usize>
    ensures { HeadAt s.now at nest result }
{
    if nest == 0 {
        return None;
    }
    let t = from(s, at);
    match word_at(t, 1) {
        Word::Atom => Some(at),
        Word::Imp => {
            let n = past(t, 6, 64)?;
            Some(plus(at, n))
        }
        Word::And => None,
        Word::All => head_at(s, plus(at, 6), nest - 1),
        _ => None,
    }
}
