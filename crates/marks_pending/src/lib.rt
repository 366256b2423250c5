// What is pending becomes free.
//
//     let freed = marks_pending::release(&mut table, marks::FREE);
#![tactic(auto)]

ghost use Rattle.std.specs.Prelude.{◌≡◌, false, map, ◌≤◌, length};
ghost use Rattle.marks.specs.Marks.{is_pending, count_if};
ghost use Rattle.marks.specs.Turned.{released};

use marks::{FREE, HELD, PENDING, has, has_other, turned_mark};

// As many marks as a release looks at before it writes.
const RELEASED: usize = 64;

fn released_mark(mark: u8, zero: u8) -> u8
    ensures { result ≡ released zero mark }
{
    turned_mark(turned_mark(mark, FREE, zero), PENDING, FREE)
}

// Each pending mark of at most 255 becomes free, each 0 becomes `zero`; how many were pending.
fn release_part(marks: &mut [u8], zero: u8) -> u8
    requires { length marks.old ≤ 255 }
    ensures { (result ≡ count_if is_pending marks.old) × (marks.new ≡ map (released zero) marks.old) }
{
    let mut n: u8 = 0;
    for mark in marks {
        n += (*mark == PENDING) as u8;
        *mark = released_mark(*mark, zero);
    }
    n
}

// Whether a release may change any of these marks. Where a 0 stays, only a pending one is changed; where it does not, a held one never is.
fn stirs(marks: &[u8], zero: u8) -> bool
    ensures { result ≡ false → (count_if is_pending marks.now ≡ 0)
        × (marks.now ≡ map (released zero) marks.now) }
{
    if zero == FREE {
        return has(marks, PENDING);
    }
    has_other(marks, HELD)
}

// As `release_part`, but that nothing is written where nothing changes.
fn release_some(marks: &mut [u8], zero: u8) -> usize
    requires { length marks.old ≤ 255 }
    ensures { (result ≡ count_if is_pending marks.old) × (marks.new ≡ map (released zero) marks.old) }
{
    if stirs(marks, zero) {
        return release_part(marks, zero) as usize;
    }
    0
}

// Each pending mark becomes free, each 0 becomes `zero`; how many were pending.
pub fn release(marks: &mut [u8], zero: u8) -> usize
    ensures { (result ≡ count_if is_pending marks.old) × (marks.new ≡ map (released zero) marks.old) }
{
    // By places: once the parts of `chunks_exact_mut` are given back a proof knows the marks' length alone, and a loop over
    // `split_first_chunk_mut` gets no generated proof.
    let parts = marks.len() / RELEASED;
    let mut n: usize = 0;
    for part in 0..parts {
        let begin = part * RELEASED;
        n += release_some(&mut marks[begin..begin + RELEASED], zero);
    }
    n + release_some(&mut marks[parts * RELEASED..], zero)
}
