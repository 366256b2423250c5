// A byte for each number of an allocator: free, held or pending (document 01, "Ids, slots, pending").
//
//     let free = marks::count(&table, marks::FREE);
//
// The inner loops here and in `marks_pending` run over a whole slice, each turn like the others and their results in a byte, so that the
// compiler makes vector instructions of them.
#![tactic(auto)]

ghost use Rattle.std.specs.Prelude.{◌≡◌, map, ◌≤◌, length};
ghost use Rattle.marks.specs.Marks.{count_if};
ghost use Rattle.marks.specs.Turned.{is_mark, has_mark, has_other, turned};

// Bytes and no enum: the C interface lends them, any byte counts, and one that counts as held stays as it is.
pub const FREE: u8 = 0;

// Any mark but 0 and 2 counts as held; this is the one that is written.
pub const HELD: u8 = 1;

pub const PENDING: u8 = 2;

// As many marks as a count in a byte takes, in whole vectors.
const PART: usize = 192;

// Whether any is this one. `contains` and `any` end at the first one: of parts of 64 marks `contains` took 2.5 times as long.
pub fn has(marks: &[u8], mark: u8) -> bool
    ensures { result ≡ has_mark mark marks.now }
{
    marks.iter().fold(false, |found, m| found | (*m == mark))
}

// Whether any is another one.
pub fn has_other(marks: &[u8], mark: u8) -> bool
    ensures { result ≡ has_other mark marks.now }
{
    marks.iter().fold(false, |found, m| found | (*m != mark))
}

// How many of at most 255 marks are `mark`: a count in a byte. With `filter` and `count`, a count in a word, it took 20 times as long.
fn count_part(marks: &[u8], mark: u8) -> u8
    requires { length marks.now ≤ 255 }
    ensures { result ≡ count_if (is_mark mark) marks.now }
{
    marks.iter().map(|m| (*m == mark) as u8).sum()
}

// How many of the marks are `mark`.
pub fn count(marks: &[u8], mark: u8) -> usize
    ensures { result ≡ count_if (is_mark mark) marks.now }
{
    let mut n: usize = 0;
    let mut left = marks;
    while let Some((part, rest)) = left.split_first_chunk::<PART>() {
        n += count_part(part, mark) as usize;
        left = rest;
    }
    n + count_part(left, mark) as usize
}

// `new` for `old`; any other mark as it is.
pub fn turned_mark(mark: u8, old: u8, new: u8) -> u8
    ensures { result ≡ turned old new mark }
{
    if mark == old { new } else { mark }
}

// Each mark `old` becomes `new`.
pub fn turn(marks: &mut [u8], old: u8, new: u8)
    ensures { marks.new ≡ map (turned old new) marks.old }
{
    for mark in marks {
        *mark = turned_mark(*mark, old, new);
    }
}
