// The words that a program is started with, known by their places.
ghost use Rattle.std.specs.Prelude.{◌≤◌, length};

use std::env::{Env, FillError};

// The most bytes of a word: those of a path, with the 0 that ends it.
pub const PATH_MAX: usize = 4096;

// How many words there are, the program's own name among them.
pub fn word_count(env: &impl Env) -> usize {
    let mut start = [0; 1];
    (0..usize::MAX)
        .find(|i| matches!(env.arg(*i, &mut start), Err(FillError::NotPresent)))
        .unwrap_or(usize::MAX)
}

// Word i, which is put at the start of the space: empty where there is none, or where it is longer than the space.
pub fn word<'a>(env: &impl Env, i: usize, space: &'a mut [u8]) -> &'a [u8]
    ensures { length result.now ≤ length space.old }
{
    let n = env.arg(i, space).unwrap_or(0);
    &space[..n]
}
