// The words that a program is given.
// Kept: `std::env::args` copies them all to the heap, which this repository does not use; `Env` puts one of them into a buffer that is lent.
ghost use Rattle.programs.specs.Counts.{IsPrefixLen};

use std::env::{Env, FillError};

// Puts argument i at the start of the buffer, and answers its length. One that is missing, or longer than the buffer, counts as empty.
pub fn argument(env: &impl Env, i: usize, buf: &mut [u8]) -> usize
    ensures { IsPrefixLen result buf.new }
{
    env.arg(i, buf).unwrap_or(0)
}

fn is_given(env: &impl Env, i: usize) -> bool {
    let mut word = [0u8; 1];
    !matches!(env.arg(i, &mut word), Err(FillError::NotPresent))
}

// How many arguments there are, the program's name among them.
pub fn argument_count(env: &impl Env) -> usize {
    (0..usize::MAX).take_while(|i| is_given(env, *i)).count()
}
