// A snapshot read row by row (requests 2026-01 and 2026-06). All its blocks are of one version, 1 or 2.
//
//     let mut at = Position::start();
//     loop {
//         match at.step(file) {
//             Ok(Some((row, next))) => { .. at = next; }
//             Ok(None) => break,
//             Err(refusal) => ..,  // 1, 4, 6 or 19, and the block's number
//         }
//     }
//
// A step judges the whole block that it reads from, so that a position of any origin is legal. Where the whole file is wanted,
// snapshot_lists judges each block once.
#![tactic(auto)]

ghost use Rattle.std.specs.Prelude.{◌≡◌, ◌+◌, ◌<◌, ◌≤◌, ◌^◌};
ghost use Rattle.snapshot_blocks.specs.declared.Row.{Row};
ghost use Rattle.snapshot_blocks.specs.Blocks.{count_in, version_in};
ghost use Rattle.snapshot_blocks.specs.Formats.{format_of, per_block};
ghost use Rattle.snapshot.specs.declared.Position.{Position};
ghost use Rattle.snapshot.specs.Snapshot.{is_place, follows, wrong_by, next_position, step_in, step_by};

use refusal::{Kind, Refusal};
use snapshot_blocks::{BLOCK, Row};

// Where the next row is: its block, and its place there.
#[derive(Clone, Copy)]
pub struct Position {
    pub block: usize,
    pub row: usize,
}

// Whether so many bytes are a whole number of blocks, and this is one of them.
#[tactic(auto, unfolding(crate::specs::Snapshot::is_place))]
pub fn is_place(number: usize, len: usize) -> bool
    ensures { result ≡ is_place number len }
{
    len % BLOCK == 0 && number < len / BLOCK
}

// Whether the block before one of a known version is of the same, and the block's first id is above the last of that full block.
fn follows_on(before: &[u8], block: &[u8]) -> bool
    requires { version_in block.now ≡ (format_of (version_in block.now)).version }
    ensures { result ≡ follows (format_of (version_in block.now)) before.now block.now }
{
    let last = snapshot_blocks::most_in(block) - 1;
    snapshot_blocks::version_in(before) == snapshot_blocks::version_in(block)
        && snapshot_blocks::id_at(before, last) < snapshot_blocks::id_at(block, 0)
}

// What is wrong with the block at `number`. The block before it is not judged again: of a file that is read from its start it was.
pub fn wrong_at(number: usize, file: &[u8]) -> Option<Kind>
    ensures { result ≡ wrong_by format_of number file.now }
{
    if !is_place(number, file.len()) {
        return Some(Kind::WrongShape);
    }
    let start = BLOCK * number;
    let end = start + BLOCK;
    let block = &file[start..end];
    if let Some(kind) = snapshot_blocks::wrong_in(block, number, end == file.len()) {
        return Some(kind);
    }
    if number == 0 {
        return None;
    }
    if !follows_on(&file[start - BLOCK..start], block) {
        return Some(Kind::WrongBlock);
    }
    None
}

// The position after a row.
#[tactic(auto, unfolding(crate::specs::Snapshot::next_position))]
fn next_of(number: usize, row: usize, count: usize, last: bool) -> Position
    requires { (row < 20) × (number < 2 ^ 55) }
    ensures { result ≡ next_position number row count last }
{
    if row + 1 < count || last {
        return Position {
            block: number,
            row: row + 1,
        };
    }
    Position {
        block: number + 1,
        row: 0,
    }
}

// A row with its key's place in the file, where its block starts at `start`.
fn placed(row: Row, start: usize) -> Row
    requires { start + row.key < 2 ^ 64 }
    ensures { ◌≡◌ {A = Row} result
        (record { id = row.id; collection = row.collection; location = row.location; key = start + row.key; length = row.length }) }
{
    Row {
        key: start + row.key,
        ..row
    }
}

// The step in a block that is right.
fn step_in(
    number: usize,
    row: usize,
    last: bool,
    block: &[u8],
) -> Result<Option<(Row, Position)>, Refusal>
    requires { (count_in block.now ≤ per_block (format_of (version_in block.now))) × (number < 2 ^ 55) }
    ensures { result ≡ step_in (format_of (version_in block.now)) number row last block.now }
{
    let count = snapshot_blocks::count_in(block);
    if row < count {
        let start = BLOCK * number;
        let shown = placed(snapshot_blocks::row_at(block, row), start);
        let after = next_of(number, row, count, last);
        return Ok(Some((shown, after)));
    }
    if last && row == count {
        return Ok(None);
    }
    Err(Refusal::at(Kind::WrongShape, number))
}

impl Position {
    // Before the first row.
    pub fn start() -> Position
        ensures { ◌≡◌ {A = Position} result (record { block = 0; row = 0 }) }
    {
        Position { block: 0, row: 0 }
    }

    // The row at this position with the next one, the end, or what is wrong.
    pub fn step(self, file: &[u8]) -> Result<Option<(Row, Position)>, Refusal>
        ensures { result ≡ step_by format_of self.block self.row file.now }
    {
        let number = self.block;
        let row = self.row;
        if let Some(kind) = wrong_at(number, file) {
            return Err(Refusal::at(kind, number));
        }
        let start = BLOCK * number;
        let end = start + BLOCK;
        step_in(number, row, end == file.len(), &file[start..end])
    }
}
