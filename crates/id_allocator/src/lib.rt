// The numbers of one allocator: which are free, held or pending (id_allocator.rs; document 01, "Ids, slots, pending").
//
//     let number = id_allocator::allocate(&mut marks, hint, 0);
//     if number == marks.len() { .. }  // none was free
//     hint = number + 1;
//     ..
//     hint = id_allocator::give_back(&mut marks, hint, number);
//
// The marks are lent, a byte for each number. Below the hint a 0 counts as held, so that a search starts there; specs/Counted.antt
// says how every list of marks counts under every hint. What is said of marks without a hint is in `marks`, `marks_search` and
// `marks_pending`.
//
// Marks and hint stay two parameters: the hint stands in a word of the tallies, so each call would make a struct of both and take it apart.
// That no number is free is said by the length and no Option: `smallest_free` of the specs, which the laws of the model cite, gives it.
#![tactic(auto)]

ghost use Rattle.std.specs.Prelude.{◌≡◌, map, get_or, set};
ghost use Rattle.marks.specs.Marks.{is_pending, is_held, is_taken, smallest_free, count_if, last_taken, tip, hold, let_go};
ghost use Rattle.id_allocator.specs.Counted.{hinted, counted, settle};
ghost use Rattle.id_allocator.specs.Written.{given_back, hint_back};

use marks::{FREE, HELD, PENDING};

// The smallest free number that is at least `from`. Where there is none, the length; where `from` is past it, `from`.
pub fn smallest_free(marks: &[u8], hint: usize, from: usize) -> usize
    ensures { result ≡ smallest_free from (hinted hint marks.now) }
{
    let start = from.max(hint.min(marks.len()));
    marks_search::smallest_free(marks, start)
}

// Held plus pending.
pub fn live(marks: &[u8], hint: usize) -> usize
    ensures { result ≡ count_if is_taken (hinted hint marks.now) }
{
    let start = hint.min(marks.len());
    marks.len() - marks::count(&marks[start..], FREE)
}

// The largest number not free, plus 1; 0 where all are free.
pub fn last_taken(marks: &[u8], hint: usize) -> usize
    ensures { result ≡ last_taken (hinted hint marks.now) }
{
    let below = hint.min(marks.len());
    below + marks_search::last_taken(&marks[below..])
}

// The tip. `used` is not 0 where any number was allocated, or held by a row, since fresh or rebuild.
pub fn tip(marks: &[u8], hint: usize, used: u64) -> usize
    ensures { result ≡ tip (hinted hint marks.now) used }
{
    let last = last_taken(marks, hint);
    if last != 0 {
        return last;
    }
    if used != 0 { 1 } else { 0 }
}

// Whether a number is held. `waiting` is 0 where no mark counts as pending.
pub fn is_held(marks: &[u8], hint: usize, waiting: u64, number: usize) -> bool
    ensures { result ≡ is_held (get_or (counted hint waiting marks.now) number 0) }
{
    if marks.len() <= number {
        return false;
    }
    let mark = marks[number];
    if mark == FREE {
        return number < hint;
    }
    mark != PENDING || waiting == 0
}

// Writes one mark; nothing where there is no such number.
pub fn put(marks: &mut [u8], number: usize, mark: u8)
    ensures { marks.new ≡ set marks.old number mark }
{
    if number < marks.len() {
        marks[number] = mark;
    }
}

// Takes the smallest free number that is at least `from`, and answers as `smallest_free` does. The new hint is one more, where a number
// was free.
pub fn allocate(marks: &mut [u8], hint: usize, from: usize) -> usize
    ensures { (result ≡ smallest_free from (hinted hint marks.old)) × (marks.new ≡ set marks.old result 1) }
{
    let number = smallest_free(marks, hint, from);
    put(marks, number, HELD);
    number
}

// Makes a free mark held; nothing where there is no such number.
pub fn hold(marks: &mut [u8], number: usize)
    ensures { marks.new ≡ set marks.old number (hold (get_or marks.old number 0)) }
{
    if marks.len() > number {
        marks[number] = marks::turned_mark(marks[number], FREE, HELD);
    }
}

// Each pending mark becomes held: how the marks count where nothing waits, before one of them becomes pending.
pub fn settle(marks: &mut [u8])
    ensures { marks.new ≡ map settle marks.old }
{
    marks::turn(marks, PENDING, HELD);
}

// Each pending number becomes free; how many there were. The hint is 0 from then on.
pub fn release(marks: &mut [u8], hint: usize) -> usize
    ensures { (result ≡ count_if is_pending (hinted hint marks.old))
        × (marks.new ≡ map let_go (hinted hint marks.old)) }
{
    let end = hint.min(marks.len());
    let below = marks_pending::release(&mut marks[..end], HELD);
    below + marks_pending::release(&mut marks[end..], FREE)
}

// A number becomes free; the new hint. From the number up to the hint the marks are first written as they count.
pub fn give_back(marks: &mut [u8], hint: usize, number: usize) -> usize
    ensures { (result ≡ hint_back hint number marks.old) × (marks.new ≡ given_back hint number marks.old) }
{
    if marks.len() <= number {
        return hint;
    }
    let end = number.max(hint.min(marks.len()));
    marks::turn(&mut marks[number..end], FREE, HELD);
    marks[number] = FREE;
    hint.min(number)
}
