// The connectives of the formula ahead: the first of them, and how many there are.
ghost use Rattle.std.specs.Prelude.{◌≡◌};
ghost use Rattle.fof_pass.specs.Codes.{code_is};
ghost use Rattle.fof_plan.specs.Chained.{opening, shutting, connecting, ended, first_of, Passes, Chains};

use fof_pass::{Sign, sign_ahead};

#[derive(Clone, Copy)]
pub enum First {
    Lone,
    Conj,
    Disj,
    Implied,
}

#[derive(Clone, Copy)]
pub struct Chain {
    pub first: First,
    pub number: usize,
}

// The first connective stays the first.
fn first_of(f: First, sign: Sign) -> First
    ensures { result ≡ first_of f (code_is sign) }
{
    match f {
        First::Lone => match sign {
            Sign::Both => First::Conj,
            Sign::Either => First::Disj,
            _ => First::Implied,
        },
        First::Conj => First::Conj,
        First::Disj => First::Disj,
        First::Implied => First::Implied,
    }
}

// What a sign does to the brackets that are open.
// Kept: each of the three tells other signs, named in its clause, and a function with the signs as a parameter would be `matches!` again.
fn opens(sign: Sign) -> bool
    ensures { result ≡ opening (code_is sign) }
{
    matches!(sign, Sign::Opens | Sign::Lists)
}

// Kept: as `opens`.
fn shuts(sign: Sign) -> bool
    ensures { result ≡ shutting (code_is sign) }
{
    matches!(sign, Sign::Closes | Sign::Ends)
}

fn connects(sign: Sign) -> bool
    ensures { result ≡ connecting (code_is sign) }
{
    matches!(sign, Sign::Both | Sign::Either | Sign::Then)
}

// The formula has its end before such a sign, where none of its own brackets is open.
fn stops(sign: Sign, depth: usize) -> bool
    ensures { result ≡ ended depth (code_is sign) }
{
    depth == 0 && (shuts(sign) || matches!(sign, Sign::Comma))
}

// What is known of the signs behind us: the brackets that are open, and the connectives outside brackets.
#[derive(Clone, Copy)]
struct Seen {
    depth: usize,
    first: First,
    number: usize,
}

// One sign more is behind us.
fn passed(sign: Sign, depth: usize, first: First, number: usize) -> Seen
    ensures { Passes (code_is sign) depth first number result }
{
    if opens(sign) {
        let depth = depth.saturating_add(1);
        return Seen {
            depth,
            first,
            number,
        };
    }
    if depth == 0 {
        if connects(sign) {
            let first = first_of(first, sign);
            let number = number.saturating_add(1);
            return Seen {
                depth,
                first,
                number,
            };
        }
        return Seen {
            depth,
            first,
            number,
        };
    }
    if shuts(sign) {
        return Seen {
            depth: depth - 1,
            first,
            number,
        };
    }
    Seen {
        depth,
        first,
        number,
    }
}

// The connectives of the formula that stands at an offset.
pub fn chain_ahead(text: &[u8], at: usize) -> Chain
    ensures { Chains text.now at result }
{
    let mut i = at;
    let mut depth = 0;
    let mut first = First::Lone;
    let mut number = 0;
    // Kept: each turn goes on behind the sign that it passed, which no range steps by.
    loop {
        let a = sign_ahead(text, i);
        if a.sign == Sign::Nothing {
            return Chain { first, number };
        }
        if stops(a.sign, depth) {
            return Chain { first, number };
        }
        let s = passed(a.sign, depth, first, number);
        depth = s.depth;
        first = s.first;
        number = s.number;
        i = a.end;
    }
}
