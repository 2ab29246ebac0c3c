// What the words of two atoms say, argument by argument: they are not the same, or a variable of the first must be a candidate, or nothing.
ghost use Rattle.arguments.specs.Arguments.{Beside, Between};

use unset::Forced;

// Kept: the numbers are read from the ten bits of a word; the enum would be made of them here and taken apart at once.
// By one argument of each.
fn beside(a: u32, b: u32) -> Forced
    ensures { Beside a b result }
{
    if b == 0 {
        return Forced::Never;
    }
    if a == 1022 {
        return Forced::Nothing;
    }
    if b == 1022 {
        return Forced::Nothing;
    }
    if b == 1021 {
        return Forced::Nothing;
    }
    if a == 1021 {
        return if b == 1023 {
            Forced::Never
        } else {
            Forced::Candidate(b - 1)
        };
    }
    if a != b {
        return Forced::Never;
    }
    Forced::Nothing
}

// By at most so many arguments of each.
pub fn between(asked: u32, kept: u32, most: usize) -> Forced
    ensures { Between asked kept result }
{
    if most == 0 {
        return Forced::Nothing;
    }
    if asked == 0 {
        return if kept == 0 {
            Forced::Nothing
        } else {
            Forced::Never
        };
    }
    let one = beside(asked % 1024, kept % 1024);
    match one {
        Forced::Never => one,
        _ => match between(asked / 1024, kept / 1024, most - 1) {
            Forced::Nothing => one,
            rest => rest,
        },
    }
}
