// Calls that read snapshots. The file stands in the line.
ghost use Rattle.std.specs.Prelude.{◌≤◌};

use crate::said;
use carried::WIDTH;
use replay_words::line::Line;

// The most rows of a list that a line lends.
const MOST: usize = 64;

const MOST_BYTES: usize = MOST * WIDTH;

// What each number and each byte of the lists is before the call, so that what it leaves of them can be told.
const ANY: u64 = 165;

const ANY_BYTE: u8 = 165;

// BLOCK ROW.
pub fn step(line: Line) -> bool {
    let mut space = said::space();
    let mut v = [0; 8];
    let file = said::bytes(line, 14, &mut space);
    let block = line.word(12) as usize;
    let row = line.word(13) as usize;
    let status = exports::wentuhoro_snapshot_step(file, block, row, &mut v);
    line.says(status, &v)
}

// Whether a list holds the words from word `from` on, and then what it held.
fn holds(line: Line, from: u32, list: &[u64; MOST], count: usize) -> bool
    requires { count ≤ 64 }
{
    line.holds(from, &list[..count]) && list[count..].iter().all(|number| *number == ANY)
}

// Likewise of what rows carry, byte for byte.
fn carries(line: Line, from: usize, list: &[u8; MOST_BYTES], count: usize) -> bool
    requires { (from ≤ 1024) × (count ≤ 64) }
{
    let n = count * WIDTH;
    let start = from * 8;
    let end = start + n;
    end <= line.bytes.len()
        && list[..n] == line.bytes[start..end]
        && list[n..].iter().all(|byte| *byte == ANY_BYTE)
}

fn read_in(line: Line, file: &[u8]) -> bool {
    let mut v = [0; 1];
    let mut ids = [ANY; MOST];
    let mut locations = [ANY; MOST];
    let mut carried = [ANY_BYTE; MOST_BYTES];
    let n = line.count(5, MOST);
    let status = exports::wentuhoro_snapshot_read(
        file,
        &mut ids[..n],
        &mut locations[..n],
        &mut carried[..n * WIDTH],
        &mut v,
    );
    let count = (v[0] % 65) as u32;
    let rows = count as usize;
    line.says(status, &v)
        & holds(line, 8, &ids, rows)
        & holds(line, 8 + count, &locations, rows)
        & carries(line, 8 + 2 * rows, &carried, rows)
}

// ROWS: as many as each of the lists has.
pub fn read(line: Line) -> bool {
    let mut space = said::space();
    read_in(line, said::bytes(line, 6, &mut space))
}
