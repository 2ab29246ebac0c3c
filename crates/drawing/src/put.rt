// What is drawn of a strip (document 01, "What comes back": height, nodes, length).
ghost use Rattle.std.specs.Prelude.{◌≡◌, []};
ghost use Rattle.std.proofs.Math.Option.{none};
ghost use Rattle.harrop.specs.Formula.{Strip};
ghost use Rattle.drawing.specs.Drawn as drawing;

use crate::Drawn;
use pen::put;
use places::plus;

// Nothing drawn, at a place.
pub fn nothing(at: usize) -> Drawn
    ensures { result ≡ drawing.nothing at }
{
    Drawn {
        height: 0,
        nodes: 0,
        at,
    }
}

// Where the part of a buffer begins that is behind so many bytes; its end, if it has no more.
pub fn cut(m: usize, size: usize) -> usize
    ensures { drawing.Cuts m size result }
{
    m.min(size)
}

// What is drawn in a part of a buffer that begins behind so many bytes.
pub fn behind(i: usize, a: Drawn) -> Drawn
    ensures { result ≡ drawing.behind i a }
{
    Drawn {
        height: a.height,
        nodes: a.nodes,
        at: plus(i, a.at),
    }
}

// Two parts side by side: the height of the higher, the nodes of both, the place after the second.
pub fn beside(a: Drawn, b: Drawn) -> Drawn
    ensures { result ≡ drawing.beside a b }
{
    Drawn {
        height: a.height.max(b.height),
        nodes: plus(a.nodes, b.nodes),
        at: b.at,
    }
}

// A node closed behind its parts: one higher, one node more, and the closing parenthesis.
pub fn close(strip: &mut [u8], a: Drawn) -> Drawn
    ensures { drawing.Closes a strip.old strip.new result }
{
    let m = put(strip, a.at, b")");
    Drawn {
        height: plus(a.height, 1),
        nodes: plus(a.nodes, 1),
        at: m,
    }
}

// The closing parenthesis of a path, and nothing behind it.
pub fn shut(strip: &mut [u8], at: usize) -> Drawn
    ensures { drawing.DrawsRest at [] none strip.old strip.new result }
{
    let m = put(strip, at, b")");
    nothing(m)
}

// The strip of `top`.
pub fn top(strip: &mut [u8], at: usize) -> Drawn
    ensures { drawing.Draws at Strip.top strip.old strip.new result }
{
    let m = put(strip, at, b"(3:top");
    close(strip, nothing(m))
}
