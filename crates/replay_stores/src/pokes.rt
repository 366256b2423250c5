// poke AT VALUE: the word of a table is written; the line's kind says which table.
// peek TABLE AT VALUE: the word is this.
//
// A mark is said as document 01 reads it, where the tables read it by the hint and the waiting word of its allocator. At each poke of a
// mark the list sets these two besides, to 0 and to 1, by which every mark counts as it stands. A peek of a mark reads it by them, as 0, 1
// or 2: HINT_AT and WAITING_AT, which follow VALUE, are their places in the tallies, and NUMBER the mark's in its allocator.
//
// Of a row of what rows carry a poke has all bytes in place of VALUE, and a peek the check over them.
use crate::columns;
use crate::kinds::{NoKind, Table};
use crate::store::Tables;
use marks::{FREE, HELD, PENDING};
use replay_words::line::Line;

fn put<T: Copy>(words: &mut [T], at: usize, value: T) {
    if let Some(word) = words.get_mut(at) {
        *word = value;
    }
}

fn get(words: &[u64], at: usize) -> u64 {
    words.get(at).copied().unwrap_or(0)
}

// A mark as it counts: below the hint a 0 is held, and so is a 2 where nothing waits.
fn as_read(mark: u8, is_below_hint: bool, waiting: u64) -> u8 {
    match mark {
        FREE if !is_below_hint => FREE,
        PENDING if waiting != 0 => PENDING,
        _ => HELD,
    }
}

fn is_mark(marks: &[u8], tallies: &[u64], at: usize, value: u64, line: Line) -> bool {
    let hint = get(tallies, line.word(6) as usize);
    let waiting = get(tallies, line.word(7) as usize);
    let number = line.word(8);
    match marks.get(at) {
        Some(mark) => as_read(*mark, number < hint, waiting) as u64 == value,
        None => false,
    }
}

impl Tables<'_> {
    pub fn poke(&mut self, table: Table, line: Line) {
        let at = line.word(3) as usize;
        let value = line.word(4);
        match table {
            Table::IdMarks => put(self.id_marks, at, (value % 256) as u8),
            Table::Locations => put(self.locations, at, value),
            Table::SlotMarks => put(self.slot_marks, at, (value % 256) as u8),
            Table::Owners => put(self.owners, at, value),
            Table::Batch => put(self.batch, at, value),
            Table::Tallies => put(self.tallies, at, value),
            // No kind of line pokes it.
            Table::Used => {}
            Table::Carried => carried::put_row(self.carried, at, columns::carried(line, 4, 1)),
        }
    }

    pub fn peek(&self, line: Line) -> bool {
        let at = line.word(4) as usize;
        let value = line.word(5);
        match Table::try_from(line.word(3)) {
            Ok(Table::IdMarks) => is_mark(self.id_marks, self.tallies, at, value, line),
            Ok(Table::Locations) => get(self.locations, at) == value,
            Ok(Table::SlotMarks) => is_mark(self.slot_marks, self.tallies, at, value, line),
            Ok(Table::Owners) => get(self.owners, at) == value,
            Ok(Table::Batch) => get(self.batch, at) == value,
            Ok(Table::Tallies) => get(self.tallies, at) == value,
            Ok(Table::Used) => u64::from(get(self.tallies, at) != 0) == value,
            Ok(Table::Carried) => columns::check(carried::row(self.carried, at)) == value,
            Err(NoKind) => false,
        }
    }
}
