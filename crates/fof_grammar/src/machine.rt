// The machine that reads by the grammar: a stack of what is due, and the tokens of the text by their numbers (crate fof_productions, specs/Coded).
ghost use Rattle.std.specs.Prelude.{◌≡◌, true, List, [], ◌∷◌, ◌++◌, map, ℕ, ◌+◌, ◌<◌, ◌≤◌, length, drop, get_or};
ghost use Rattle.basics.specs.Tells.{Tells};
ghost use Rattle.grammar.specs.Derives.{Symbol, any, Has, Derives};
ghost use Rattle.grammar.specs.Machine.{ahead, chosen};
ghost use Rattle.fof_productions.specs.Terminal.{Terminal, code};
ghost use Rattle.fof_productions.specs.Name.{Name, file};
ghost use Rattle.fof_productions.specs.Decided.{choices, decided, looks};
ghost use Rattle.fof_productions.specs.Grammar.{productions};
ghost use Rattle.fof_productions.specs.Coded.{name_at, token_at, flat, alternative_at, Holds};

// Kept: tokens, names and alternatives are numbers of a byte here, since they index the tables, and a stack of bytes is the fixed memory that there is.
use crate::table::{choice, symbol, width};

// The number of the next token, or of the end.
// Kept: behind the end this answers the number of the end, 37, and sexp's `byte` and room's `word` answer 0; a parameter for that would stand in all their clauses.
fn next(codes: &[u8], at: usize) -> u8
    ensures { result ≡ get_or codes.now at 37 }
{
    codes.get(at).copied().unwrap_or(37)
}

// The number of the next token that is no `(`, or of the end.
fn beyond(codes: &[u8], at: usize) -> u8
    ensures { (w : List Terminal) → codes.now ≡ map code w → (result ≤ 37) × (ahead decided true (drop at w) ≡ token_at result) }
{
    for i in at..codes.len() {
        let c = codes[i];
        if c != 13 {
            return c;
        }
    }
    37
}

// The alternative that is decided for a name, by its number; 255 for none. A formula alone looks past `(`.
fn decide(codes: &[u8], at: usize, name: u8) -> u8
    requires { name < 45 }
    ensures decides { (w : List Terminal) → codes.now ≡ map code w → chosen decided (name_at name) (ahead decided (looks (name_at name)) (drop at w)) ≡ alternative_at result }
    ensures one { (result ≡ 255 → ⊥) → (result < 120) × Has (choices (name_at name)) (flat result) }
{
    if name == 6 {
        let c = beyond(codes, at);
        return choice(name, c);
    }
    let c = next(codes, at);
    choice(name, c)
}

// An alternative on top of the stack.
// Kept: free places are behind the top, and this writes them.
fn push(stack: &mut [u8], top: usize, k: u8) -> usize
    requires { (k < 120) × (top + length (flat k) ≤ length stack.old) }
    ensures { (ss : List (Symbol Terminal Name)) → Holds stack.old top ss → Holds stack.new result (flat k ++ ss) }
{
    let n = width(k);
    for i in 0..n {
        stack[top + i] = symbol(k, i);
    }
    top + n
}

// Whether the tokens are those of a file. The stack has room for what the tokens of 16,384 bytes can ask for.
pub fn derived(codes: &[u8], stack: &mut [u8]) -> bool
    requires { (length codes.now ≤ 16384) × (196621 ≤ length stack.old) }
    ensures { (w : List Terminal) → codes.now ≡ map code w → Tells result (Derives productions (any file ∷ []) w) }
{
    stack[0] = 75;
    let mut top = 1;
    let mut at = 0;
    // Kept: the stack goes up and down and the place in the tokens on by none or one, which no range steps by.
    while 0 < top {
        let s = stack[top - 1];
        if s < 75 {
            let c = next(codes, at);
            if s - 35 != c {
                return false;
            }
            top -= 1;
            at += 1;
            continue;
        }
        let k = decide(codes, at, s - 75);
        if k == 255 {
            return false;
        }
        top = push(stack, top - 1, k);
    }
    at == codes.len()
}
