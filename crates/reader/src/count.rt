// How many members a list has (document 01, refusal 6): at most 256 rules or candidates after the word.
ghost use Rattle.std.specs.Prelude.{◌≡◌, ◌≤◌};
ghost use Rattle.sexp.specs.Sexp.{Sexps, StandsAll, nestings};
ghost use Rattle.reader.specs.Judged.{count_in};

// The word and 256 members more.
const MOST: usize = 257;

// How many members a list has, its word among them, the first of which stands at an offset; or where the first above the number allowed opens.
pub(crate) fn count_from(s: &[u8], at: usize) -> Result<usize, usize>
    ensures { (xs : Sexps) → StandsAll s.now at xs → nestings xs ≤ 64 → result ≡ count_in at xs }
{
    let mut i = at;
    let mut n = 0;
    // Kept: n counts members and is no index; in a `for` over n the closing parenthesis would be asked for once more after it.
    while !sexp::closes(s, i) {
        if n == MOST {
            return Err(i);
        }
        let Some(to) = sexp::past(s, i, 64) else {
            return Ok(n);
        };
        i = to;
        n += 1;
    }
    Ok(n)
}
