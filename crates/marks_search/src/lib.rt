// Marks searched: the smallest free number, and the last that is taken.
//
//     let first = marks_search::smallest_free(&table, 0);
#![tactic(auto)]

ghost use Rattle.std.specs.Prelude.{◌≡◌, ◌+◌, ◌<◌, ◌≤◌, length};
ghost use Rattle.marks.specs.Marks.{smallest_free, last_taken};

use marks::{FREE, has_other};

// Blocks that the search for the last taken one passes over, the wide ones first: the free ones above the tip are many.
const WIDE: usize = 256;

const MIDDLE: usize = 64;

const NARROW: usize = 16;

// The smallest free number that is at least `from`. Where there is none, the length; where `from` is past it, `from`.
pub fn smallest_free(marks: &[u8], from: usize) -> usize
    ensures { result ≡ smallest_free from marks.now }
{
    // Most searches end here, and a search by `memchr` takes three times as long.
    if marks.len() <= from || marks[from] == FREE {
        return from;
    }
    match memchr::memchr(FREE, &marks[from..]) {
        Some(at) => from + at,
        None => marks.len(),
    }
}

// The marks without the whole blocks at their end in which all are free.
fn trimmed<const WIDTH: usize>(marks: &[u8]) -> &[u8]
    requires { (0 < WIDTH) × (WIDTH ≤ 256) }
    ensures { (last_taken result.now ≡ last_taken marks.now)
        × (WIDTH ≤ length result.now → length result.now < last_taken marks.now + WIDTH) }
{
    let mut left = marks;
    while let Some((rest, block)) = left.split_last_chunk::<WIDTH>() {
        if has_other(block, FREE) {
            return left;
        }
        left = rest;
    }
    left
}

// The largest number whose mark is not 0, plus 1; 0 where there is none.
pub fn last_taken(marks: &[u8]) -> usize
    ensures { result ≡ last_taken marks.now }
{
    let near = trimmed::<NARROW>(trimmed::<MIDDLE>(trimmed::<WIDE>(marks)));
    trimmed::<1>(near).len()
}
