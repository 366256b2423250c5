// The words that the program is started with. One that begins with ratio= or id= says that; any other names a file.
ghost use Rattle.std.specs.Prelude.{◌≤◌};

use staff_files::PATH_MAX;
use std::env::Env;

pub const RATIO: &[u8] = b"ratio=";

pub const ID: &[u8] = b"id=";

// A word that is longer than the space has its start there, which tells as well.
fn is_file(env: &impl Env, i: usize) -> bool {
    let mut space = [0; PATH_MAX];
    let _ = env.arg(i, &mut space);
    !(space.starts_with(RATIO) || space.starts_with(ID))
}

// The first file from a place on, or the end; the place itself where the end is before it.
pub fn next_file(env: &impl Env, from: usize, end: usize) -> usize
    ensures { from ≤ result }
{
    (from..end)
        .find(|i| is_file(env, *i))
        .unwrap_or(end.max(from))
}

// The number with one digit more.
pub fn with_digit(n: u64, byte: u8) -> Option<u64> {
    let digit = char::from(byte).to_digit(10)?;
    n.checked_mul(10)?.checked_add(u64::from(digit))
}

// What a word such as id=8 says; digits alone, with no sign.
pub fn id_of(word: &[u8]) -> Option<u64> {
    let digits = word.strip_prefix(ID)?;
    if digits.is_empty() {
        return None;
    }
    digits.iter().copied().try_fold(0, with_digit)
}
