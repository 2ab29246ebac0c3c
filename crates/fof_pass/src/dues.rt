// What is due, and the stack of it.
ghost use Rattle.std.specs.Prelude.{◌≡◌, ◌<◌, get_or, set};
ghost use Rattle.fof_pass.specs.Dues.{Few, Pushes};

// What a formula has to be.
#[derive(Clone, Copy)]
pub enum Sort {
    Goal,
    Clause,
    Head,
}

// What is due, with a number of one type or another; `Nothing` stands where nothing is.
// Kept: an Option beside it would be no plainer, since each of a plan's four places would wrap what it holds.
#[derive(Clone, Copy)]
pub enum Due<N = usize> {
    Nothing,
    Formula(Sort),
    Unit(Sort),
    More { conj: bool, sort: Sort, number: N },
    Arrow,
    Close,
    List { every: bool, sort: Sort },
    Variable { every: bool, sort: Sort },
    Behind { every: bool, sort: Sort },
    Over(Sort),
    Arguments,
    Term,
    Terms,
    Shut,
    Leave,
}

// An entry of a list; `none` behind its end.
pub fn entry<T: Copy>(list: &[T], i: usize, none: T) -> T
    ensures { result ≡ get_or list.now i none }
{
    list.get(i).copied().unwrap_or(none)
}

// An entry written, if there is room for it.
// Kept: room's `put` is of words alone, and a crate below both would hold this function only.
pub fn enter<T: Copy>(list: &mut [T], i: usize, x: T)
    ensures { list.new ≡ set list.old i x }
{
    if i < list.len() {
        list[i] = x;
    }
}

// A number of a due, as far as a text can have it.
fn few(n: usize) -> u16
    ensures { n < 16385 → result ≡ n }
{
    n.min(16385) as u16
}

// A due as the stack holds it, in fewer bytes.
fn short(d: Due) -> Due<u16>
    ensures { Few d → result ≡ d }
{
    match d {
        Due::Nothing => Due::Nothing,
        Due::Formula(s) => Due::Formula(s),
        Due::Unit(s) => Due::Unit(s),
        Due::More { conj, sort, number } => Due::More {
            conj,
            sort,
            number: few(number),
        },
        Due::Arrow => Due::Arrow,
        Due::Close => Due::Close,
        Due::List { every, sort } => Due::List { every, sort },
        Due::Variable { every, sort } => Due::Variable { every, sort },
        Due::Behind { every, sort } => Due::Behind { every, sort },
        Due::Over(s) => Due::Over(s),
        Due::Arguments => Due::Arguments,
        Due::Term => Due::Term,
        Due::Terms => Due::Terms,
        Due::Shut => Due::Shut,
        Due::Leave => Due::Leave,
    }
}

// The due that the stack holds so.
// Kept: it differs from `short` in the type of the number, and one function over both would be lent what it does with a number.
pub fn due_of(d: Due<u16>) -> Due
    ensures { result ≡ d }
{
    match d {
        Due::Nothing => Due::Nothing,
        Due::Formula(s) => Due::Formula(s),
        Due::Unit(s) => Due::Unit(s),
        Due::More { conj, sort, number } => Due::More {
            conj,
            sort,
            number: number as usize,
        },
        Due::Arrow => Due::Arrow,
        Due::Close => Due::Close,
        Due::List { every, sort } => Due::List { every, sort },
        Due::Variable { every, sort } => Due::Variable { every, sort },
        Due::Behind { every, sort } => Due::Behind { every, sort },
        Due::Over(s) => Due::Over(s),
        Due::Arguments => Due::Arguments,
        Due::Term => Due::Term,
        Due::Terms => Due::Terms,
        Due::Shut => Due::Shut,
        Due::Leave => Due::Leave,
    }
}

// One due more, and the height then; where nothing is due, none. The clause says it of a number that a text of 16,384 bytes can have; that a larger one stays as it is, a test of fof_act shows.
// Kept: behind the dues there are free places, up to 98,400, which a slice that ends at the top doesn't reach.
pub fn push(stack: &mut [Due], top: usize, d: Due) -> usize
    ensures { Pushes d stack.old stack.new top result }
{
    if matches!(d, Due::Nothing) {
        return top;
    }
    if top < 98400 {
        enter(stack, top, d);
        return top + 1;
    }
    top
}

// The same, on a stack that holds its dues in fewer bytes.
// Kept: it differs from `push` in the stack's type and in what is entered. One function over both would take the number's type by a trait, and its clause would speak of what the stack's dues stand for where it speaks of the stack.
pub fn push_short(stack: &mut [Due<u16>], top: usize, d: Due) -> usize
    ensures { Pushes d stack.old stack.new top result }
{
    if matches!(d, Due::Nothing) {
        return top;
    }
    if top < 98400 {
        enter(stack, top, short(d));
        return top + 1;
    }
    top
}
