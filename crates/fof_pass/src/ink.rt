// Marks written into a buffer, with how many lists are open and whether more than 64 ever were.
ghost use Rattle.std.specs.Prelude.{[], ◌∷◌};
ghost use Rattle.sexp.specs.Decimal.{decimal};
ghost use Rattle.fof_part.specs.Mark.{Mark};
ghost use Rattle.fof_part.specs.Due.{headed, many_headed};
ghost use Rattle.fof_pass.specs.Ink.{Inks};

use pen::{put, put_byte, put_decimal, put_number};

// The place behind what is written, the lists that are open there (no more than 64 are counted), and whether lists went deeper.
// Kept: `deep` doesn't say whether the other values are there, so no Option stands for it; and the buffer is no field, since two pens of `Passed` outlive what is lent to each line.
#[derive(Clone, Copy)]
pub struct Pen {
    pub at: usize,
    pub depth: usize,
    pub deep: bool,
}

// A list is begun.
pub fn begin(buf: &mut [u8], pen: Pen) -> Pen
    ensures { Inks (Mark.begin ∷ []) pen buf.old buf.new result }
{
    let at = put_byte(buf, pen.at, b'(');
    if pen.depth < 64 {
        return Pen {
            at,
            depth: pen.depth + 1,
            deep: pen.deep,
        };
    }
    Pen {
        at,
        depth: pen.depth,
        deep: true,
    }
}

// A string.
pub fn string(buf: &mut [u8], pen: Pen, word: &[u8]) -> Pen
    ensures { Inks (Mark.string word.now ∷ []) pen buf.old buf.new result }
{
    let m = put_decimal(buf, pen.at, word.len());
    let m = put_byte(buf, m, b':');
    let at = put(buf, m, word);
    Pen {
        at,
        depth: pen.depth,
        deep: pen.deep,
    }
}

// A number as a string.
pub fn number(buf: &mut [u8], pen: Pen, i: usize) -> Pen
    ensures { Inks (Mark.string (decimal i) ∷ []) pen buf.old buf.new result }
{
    let at = put_number(buf, pen.at, i);
    Pen {
        at,
        depth: pen.depth,
        deep: pen.deep,
    }
}

// The end of a list.
pub fn end(buf: &mut [u8], pen: Pen) -> Pen
    ensures { Inks (Mark.end ∷ []) pen buf.old buf.new result }
{
    let at = put_byte(buf, pen.at, b')');
    if pen.depth == 0 {
        return Pen {
            at,
            depth: 0,
            deep: pen.deep,
        };
    }
    Pen {
        at,
        depth: pen.depth - 1,
        deep: pen.deep,
    }
}

// A list is begun with a word.
pub fn head(buf: &mut [u8], pen: Pen, word: &[u8]) -> Pen
    ensures { Inks (headed word.now) pen buf.old buf.new result }
{
    let p = begin(buf, pen);
    string(buf, p, word)
}

// So many lists are begun with a word.
pub fn heads(buf: &mut [u8], pen: Pen, word: &[u8], n: usize) -> Pen
    ensures { Inks (many_headed word.now n) pen buf.old buf.new result }
{
    let mut p = pen;
    for _ in 0..n {
        p = head(buf, p, word);
    }
    p
}
