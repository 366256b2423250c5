// Columns of rows, for what a call is asked with and for what it answers.
ghost use Rattle.std.specs.Prelude.{◌≤◌};

use carried::WIDTH;
use replay_words::line::Line;

// The most ids of a store, the most slots of a slab, and the most rows of a call.
pub const MOST: usize = 512;

// What is lent for an answer holds some number before the call, and not 0, so that what the call leaves of it can be told.
pub const ANY: u64 = 165;

// As many rows as `len` says. No ghost field says that they fit, and so they are cut to MOST: the borrow checker has no rule for a slice of
// such a struct that is handed out as `&mut`.
#[derive(Drop)]
pub struct Column {
    space: [u64; MOST],
    len: usize,
}

impl Column {
    // n rows for an answer.
    pub fn lent(n: usize) -> Column {
        Column {
            space: [ANY; MOST],
            len: n,
        }
    }

    // The n words from word `from` on.
    pub fn said(line: Line, from: u32, n: usize) -> Column {
        let mut column = Column::lent(n);
        line.fill(from, column.rows_mut());
        column
    }

    pub fn rows(&self) -> &[u64] {
        let n = self.len.min(MOST);
        &self.space[..n]
    }

    pub fn rows_mut(&mut self) -> &mut [u64] {
        let n = self.len.min(MOST);
        &mut self.space[..n]
    }
}

// The kinds of n updates, 1 for a Store and 0 for a Free, as the bytes that an offer takes: 0 frees, and any other stores, so that Stores
// take 255 and down by their place, and not 1 alone.
pub fn are_stores(line: Line, from: usize, n: usize) -> [u8; MOST]
    requires { (from ≤ 2048) × (n ≤ 512) }
{
    let mut kinds = [0; MOST];
    for (i, kind) in kinds[..n].iter_mut().enumerate() {
        if line.word(from + i) == 1 {
            *kind = (255 - i % 255) as u8;
        }
    }
    kinds
}

// What n rows carry: WIDTH bytes each, from word `from` on; nothing where the line has not so many.
pub fn carried(line: Line<'_>, from: usize, n: usize) -> &[u8]
    requires { (from ≤ 2048) × (n ≤ 512) }
{
    let start = 8 * from;
    line.bytes.get(start..start + WIDTH * n).unwrap_or(&[])
}

// The check of what a call wrote, as the lists have it in place of the bytes.
pub fn check(bytes: &[u8]) -> u64 {
    exports::wentuhoro_crc32(bytes) as u64
}
