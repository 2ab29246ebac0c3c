// The words, the kinds and what may be due, the refusals and the files, as names, with the paper's numbers (document 01, "The carrier and the words", "What comes back").
// What they mean is in specs/.
#![tactic(auto)]

ghost use Rattle.std.specs.Prelude.{◌≡◌};
ghost use Rattle.packet.specs.Numbers.{reason_number, file_number};

// The words of the table, and what is none of them.
// Kept: `Nothing` is a word of the definitions too (`word_of`, `rank` and `sort_of`, specs/), whose theorems are of every word; with an Option each of them would begin with one match more.
#[derive(Clone, Copy)]
pub enum Word {
    V,
    F,
    E,
    Atom,
    Top,
    And,
    Or,
    Some,
    All,
    Imp,
    Left,
    Right,
    Use,
    Rules,
    Terms,
    Nothing,
}

// What may stand at a place of the table: a string of some sort, a path, or a list that begins with a word.
#[derive(Clone, Copy)]
pub enum Kind {
    Name,
    Number,
    Step,
    Path,
    Term,
    Atom,
    Goal,
    Clause,
    Rules,
    Terms,
    Strip,
}

// What is due in a list after its word: nothing; one member or two; any number of one kind, perhaps after one other; two and perhaps a third.
#[derive(Clone, Copy)]
pub enum Due {
    End,
    One(Kind),
    Two(Kind, Kind),
    Each(Kind),
    OneEach(Kind, Kind),
    Perhaps(Kind),
    OnePerhaps(Kind, Kind),
    TwoPerhaps(Kind, Kind, Kind),
}

// Why a packet or a search is refused, with the numbers of document 01's table.
#[derive(Clone, Copy)]
pub enum Reason {
    // A file is over 16,384 bytes.
    Long = 1,
    // It is not one canonical expression.
    Carrier = 2,
    // A list lies at level 65 or deeper.
    Deep = 3,
    // It is not built from the table of words.
    Words = 4,
    // A variable or parameter is barred at its place.
    Barred = 5,
    // Over 256 rules or candidates.
    Many = 6,
    // The strip does not fit.
    Misfit = 7,
    // No proof within the height.
    NoProof = 8,
    // The height is over 32.
    Height = 9,
    // The strip is longer than its buffer or than a file may be.
    Buffer = 10,
    // The work room is too small.
    Room = 11,
}

// The file that a refusal is about, with its number.
#[derive(Clone, Copy)]
pub enum File {
    None = 0,
    Rules = 1,
    Goal = 2,
    Terms = 3,
    Strip = 4,
}

// The paper's number of a refusal.
pub fn reason_number(why: Reason) -> u32
    ensures { result ≡ reason_number why }
{
    why as u32
}

// The paper's number of a file.
pub fn file_number(file: File) -> u32
    ensures { result ≡ file_number file }
{
    file as u32
}
