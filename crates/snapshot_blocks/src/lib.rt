// One block of a snapshot, 512 bytes (requests 2026-01 and 2026-06): its number, how many rows, the version, the rows, zeros to 508, and the check of all
// before it. A row is an id, a collection and a location; in version 2 also a key, behind its length. A block has up to 20 rows of version 1, 5 of version 2.
// Both are read; version 2 is written.
//
//     snapshot_blocks::write(number, ids, locations, carried, block);
//     let wrong = snapshot_blocks::wrong_in(block, number, last);  // None, or 1, 4, 6 or 19
//     let first = snapshot_blocks::row_at(block, 0);
//
// A row is written straight from the store's tables: one copy of what is carried and three stores of eight bytes, the location and what is carried found
// by the id. What cannot be written leaves the block as it was.
#![tactic(auto)]

ghost use Rattle.std.specs.Prelude.{not, cond, ◌&&◌, ◌++◌, map, ◌≡◌, ◌*◌, ◌+◌, ◌≤◌, ◌<◌, min, eqb, ltb, length, take, drop};
ghost use Rattle.zeros.specs.Zeros.{all_zero};
ghost use Rattle.keys.specs.Keys.{is_normal};
ghost use Rattle.snapshot_blocks.specs.Formats.{Format, version2, format_of, row_length, per_block};
ghost use Rattle.snapshot_blocks.specs.Blocks.{entry_for, AreRows, row_bytes, rows_bytes, block_of, count_in, version_in, entry_of, entries_in, ascending, any_refused, padding_after, is_count, right_in, wrong_in, judged_in, id_at, key_length_in, row_at, can_write};
ghost use Rattle.std.specs.List.{list_all};

use carried::WIDTH;
use keys::MOST_KEY;
use refusal::Kind;

pub const BLOCK: usize = 512;
// The version that is written, and the one before, which is read.
const VERSION: u64 = 2;

const VERSION_BEFORE: u64 = 1;
// How many bytes a row of the version before carries: its collection.
const WIDTH_BEFORE: usize = 8;
// A row's bytes besides those that it carries: its id and its location.
pub const NUMBERS: usize = 16;
// As many rows as a block has room for.
pub const PER_BLOCK: usize = 480 / (NUMBERS + WIDTH);

const PER_BLOCK_BEFORE: usize = 480 / (NUMBERS + WIDTH_BEFORE);
// Where the count, the version and the rows start; where the check does.
const COUNT_AT: usize = 4;

const VERSION_AT: usize = 6;

pub const ROWS_AT: usize = 8;

const CHECK_AT: usize = 508;
// Where the key's length and the key stand in a row.
pub const LENGTH_AT: usize = 24;

pub const KEY_AT: usize = LENGTH_AT + 1;

// A row of a snapshot, with the place where its key starts and how long it is.
#[derive(Clone, Copy)]
pub struct Row {
    pub id: u64,
    pub collection: u64,
    pub location: u64,
    pub key: usize,
    pub length: usize,
}

// Where the row at `k` starts, or where so many rows end.
#[tactic(auto, using(crate::proofs::Turns::start_le))]
fn start_of(width: usize, k: usize) -> usize
    requires { (width ≤ 80) × (k ≤ 20) }
    ensures { result ≡ 8 + (16 + width) * k }
{
    let row = NUMBERS + width;
    ROWS_AT + row * k
}

// ---- reading

// How many rows a block says that it has, and of which version.
pub fn count_in(block: &[u8]) -> usize
    ensures { result ≡ count_in block.now }
{
    little_endian::get_at(block, COUNT_AT, VERSION_AT) as usize
}

pub fn version_in(block: &[u8]) -> u64
    ensures { result ≡ version_in block.now }
{
    little_endian::get_at(block, VERSION_AT, ROWS_AT)
}

#[tactic(auto, unfolding(crate::specs::Formats::format_of))]
fn is_known(version: u64) -> bool
    ensures { result ≡ eqb version (format_of version).version }
{
    version == VERSION || version == VERSION_BEFORE
}

// How many bytes a row of this block carries, and as many rows as it has room for. A block of an unknown version is read as one of the version before.
#[tactic(auto, unfolding(crate::specs::Formats::format_of))]
pub fn width_in(block: &[u8]) -> usize
    ensures { result ≡ (format_of (version_in block.now)).width }
{
    if version_in(block) == VERSION {
        WIDTH
    } else {
        WIDTH_BEFORE
    }
}

#[tactic(auto, using(crate::proofs::Turns::per_block_version1, crate::proofs::Turns::per_block_version2), unfolding(crate::specs::Formats::format_of))]
pub fn most_in(block: &[u8]) -> usize
    ensures { result ≡ per_block (format_of (version_in block.now)) }
{
    if version_in(block) == VERSION {
        PER_BLOCK
    } else {
        PER_BLOCK_BEFORE
    }
}

// Whether the first rows of so many ascend strictly by id.
fn is_ascending(rows: &[u8], width: usize, count: usize) -> bool
    requires { (width ≤ 80) × (count ≤ 20) }
    ensures { (f : Format) → f.width ≡ width → result ≡ ascending (entries_in f count rows.now) }
{
    let row = NUMBERS + width;
    let mut before = little_endian::get_at(rows, 0, 8);
    for i in 1..count {
        let start = row * i;
        let id = little_endian::get_at(rows, start, start + 8);
        if id <= before {
            return false;
        }
        before = id;
    }
    true
}

// Whether the block at `number` may have so many rows, where `most` are as many as fit one.
#[tactic(auto, unfolding(crate::specs::Blocks::is_count))]
fn is_count(most: usize, number: usize, last: bool, count: usize) -> bool
    ensures { (f : Format) → per_block f ≡ most → result ≡ is_count f number last count }
{
    if last {
        count <= most && (count > 0 || number == 0)
    } else {
        count == most
    }
}

// Whether what lies between so many rows and the check is zero.
fn is_padded(block: &[u8], count: usize) -> bool
    requires { (length block.now ≡ 512) × (count ≤ per_block (format_of (version_in block.now))) }
    ensures { result ≡ all_zero (padding_after (format_of (version_in block.now)) count block.now) }
{
    let width = width_in(block);
    let end = start_of(width, count);
    zeros::all_zero(&block[end..CHECK_AT])
}

// Whether the row at `start`, of version 2, is none that a store keeps: its key is too long, or what follows the key is not zero.
#[tactic(auto, using(crate::proofs::Refused::refused_long, crate::proofs::Refused::refused_behind))]
fn is_refused(rows: &[u8], start: usize) -> bool
    requires { start + 96 ≤ length rows.now }
    ensures { result ≡ not (is_normal (entry_of version2 (drop start rows.now)).carried) }
{
    let long = rows[start + LENGTH_AT] as usize;
    long > MOST_KEY || !zeros::all_zero(&rows[start + KEY_AT + long..start + (NUMBERS + WIDTH)])
}

// Whether some of the first rows, of version 2, is refused.
fn any_refused(rows: &[u8], count: usize) -> bool
    requires { (count ≤ 5) × (96 * count ≤ length rows.now) }
    ensures { result ≡ any_refused version2 (entries_in version2 count rows.now) }
{
    for i in 0..count {
        if is_refused(rows, (NUMBERS + WIDTH) * i) {
            return true;
        }
    }
    false
}

// Whether some of the first rows of a block is refused; version 1 refuses none.
#[tactic(auto, using(crate::proofs::Turns::format_of_now, crate::proofs::Turns::format_of_before, crate::proofs::Turns::per_block_version2, crate::proofs::Turns::any_refused_version1))]
fn has_refused(block: &[u8], count: usize) -> bool
    requires { (length block.now ≡ 512) × (count ≤ per_block (format_of (version_in block.now))) }
    ensures { result
        ≡ any_refused (format_of (version_in block.now))
        (entries_in (format_of (version_in block.now)) count (drop 8 block.now)) }
{
    version_in(block) == VERSION && any_refused(&block[ROWS_AT..], count)
}

// Whether what follows so many rows is zero, none of them is refused, and they ascend.
#[tactic(auto, using(crate::proofs::Turns::format_of_sound, crate::proofs::Turns::format_of_few))]
fn has_right_rows(block: &[u8], count: usize) -> bool
    requires { (length block.now ≡ 512) × (count ≤ per_block (format_of (version_in block.now))) }
    ensures { result
        ≡ (all_zero (padding_after (format_of (version_in block.now)) count block.now)
        && (not (any_refused (format_of (version_in block.now))
        (entries_in (format_of (version_in block.now)) count (drop 8 block.now)))
        && ascending (entries_in (format_of (version_in block.now)) count (drop 8 block.now)))) }
{
    is_padded(block, count)
        && !has_refused(block, count)
        && is_ascending(&block[ROWS_AT..], width_in(block), count)
}

// Whether the number, the rows and the padding of a block are right.
#[tactic(auto, using(crate::proofs::Blocks::is_count_per_block), unfolding(crate::specs::Blocks::right_in, crate::specs::Blocks::rows_in_block))]
fn is_right(block: &[u8], number: usize, last: bool) -> bool
    requires { length block.now ≡ 512 }
    ensures { result ≡ right_in (format_of (version_in block.now)) number last block.now }
{
    let count = count_in(block);
    little_endian::get_at(block, 0, COUNT_AT) == number as u64
        && is_count(most_in(block), number, last, count)
        && has_right_rows(block, count)
}

// What is wrong in a block that has its length.
#[tactic(auto, unfolding(crate::specs::Blocks::wrong_in))]
fn wrong_in_block(block: &[u8], number: usize, last: bool) -> Option<Kind>
    requires { length block.now ≡ 512 }
    ensures { result ≡ wrong_in (format_of (version_in block.now)) number last block.now }
{
    if !seal::agrees(block) {
        return Some(Kind::CheckDiffers);
    }
    if !is_known(version_in(block)) {
        return Some(Kind::UnknownVersion);
    }
    if !is_right(block, number, last) {
        return Some(Kind::WrongBlock);
    }
    None
}

// What is wrong in the block at `number` by itself.
#[tactic(auto, unfolding(crate::specs::Blocks::judged_in))]
pub fn wrong_in(block: &[u8], number: usize, last: bool) -> Option<Kind>
    ensures { result ≡ judged_in (format_of (version_in block.now)) number last block.now }
{
    if block.len() != BLOCK {
        return Some(Kind::WrongShape);
    }
    wrong_in_block(block, number, last)
}

// Where the row at `k` starts in a block; every place from 20 on is one past all rows.
fn start_in(block: &[u8], k: usize) -> usize
    ensures { (result ≡ 8 + row_length (format_of (version_in block.now)) * min k 20) × (result ≤ 1928) }
{
    let place = k.min(PER_BLOCK_BEFORE);
    let width = width_in(block);
    start_of(width, place)
}

// The id of the row at `k`.
pub fn id_at(block: &[u8], k: usize) -> u64
    ensures { result ≡ id_at (format_of (version_in block.now)) (min k 20) block.now }
{
    let start = start_in(block, k);
    little_endian::get_at(block, start, start + 8)
}

// How long the key of the row at `start` is; a row of version 1 has none.
#[tactic(auto, using(crate::proofs::Turns::key_length_none, crate::proofs::Turns::key_length_some))]
fn key_length(block: &[u8], start: usize) -> usize
    requires { start ≤ 2000 }
    ensures { result ≡ key_length_in (format_of (version_in block.now)) (drop start block.now) }
{
    if version_in(block) != VERSION {
        return 0;
    }
    little_endian::get_at(block, start + LENGTH_AT, start + KEY_AT) as usize
}

// The row at `k`, the place of its key counted from the block's start.
#[tactic(auto, using(crate::proofs::Turns::row_shown))]
pub fn row_at(block: &[u8], k: usize) -> Row
    ensures { result ≡ row_at (format_of (version_in block.now)) 0 (min k 20) block.now }
{
    let start = start_in(block, k);
    let id = little_endian::get_at(block, start, start + 8);
    let collection = little_endian::get_at(block, start + 8, start + 16);
    let location = little_endian::get_at(block, start + 16, start + 24);
    let length = key_length(block, start);
    Row {
        id,
        collection,
        location,
        key: start + KEY_AT,
        length,
    }
}

// ---- writing

// Writes the row of an id in the tables from `start` on. What it carries is copied whole, eight bytes too early: the location then takes the place of its
// first eight bytes, which stand before it.
fn put_row(block: &mut [u8], start: usize, id: u64, locations: &[u64], carried: &[u8])
    requires { (start + 96 ≤ length block.old) × (id < length locations.now) × (id * 80 + 80 ≤ length carried.now) }
    ensures { block.new
        ≡ take start block.old
        ++ (row_bytes (entry_for 80 locations.now carried.now id) ++ drop (start + 96) block.old) }
{
    let i = id as usize;
    let from = i * WIDTH;
    let to = from + WIDTH;
    let early = start + NUMBERS;
    let end = early + WIDTH;
    carried::put_row(&mut block[early..end], 0, &carried[from..to]);
    let collection = little_endian::get_at(carried, from, from + 8);
    let location = locations[i];
    little_endian::put_at(block, start, start + 8, id);
    little_endian::put_at(block, start + 8, start + 16, collection);
    little_endian::put_at(block, start + 16, start + 24, location);
}

// Writes the rows, each at its place.
fn put_rows(ids: &[u64], locations: &[u64], carried: &[u8], block: &mut [u8])
    requires { (length ids.now ≤ 5) × (length block.old ≡ 512) × AreRows 80 locations.now carried.now ids.now }
    ensures { block.new
        ≡ take 8 block.old
        ++ (rows_bytes (map (entry_for 80 locations.now carried.now) ids.now)
        ++ drop (8 + 96 * length ids.now) block.old) }
{
    for (i, id) in ids.iter().enumerate() {
        put_row(block, start_of(WIDTH, i), *id, locations, carried);
    }
}

// Writes a block that has its length and room for the rows, of ids that have one in both tables.
fn write_block(number: u64, ids: &[u64], locations: &[u64], carried: &[u8], block: &mut [u8])
    requires { (length ids.now ≤ 5) × (length block.old ≡ 512) × AreRows 80 locations.now carried.now ids.now }
    ensures { block.new
        ≡ block_of version2 number (map (entry_for 80 locations.now carried.now) ids.now) }
{
    let count = ids.len();
    let end = start_of(WIDTH, count);
    little_endian::put_at(block, 0, COUNT_AT, number);
    little_endian::put_at(block, COUNT_AT, VERSION_AT, count as u64);
    little_endian::put_at(block, VERSION_AT, ROWS_AT, VERSION);
    put_rows(ids, locations, carried, block);
    little_endian::put_at(block, end, CHECK_AT, 0);
    seal::write(block);
}

// Whether each id is below `rows`.
fn each_below(ids: &[u64], rows: usize) -> bool
    ensures { result ≡ list_all (λ i. ltb i rows) ids.now }
{
    ids.iter().all(|id| *id < rows as u64)
}

// Whether these ids' rows, of tables so long, can be written to a block so long.
#[tactic(auto, using(crate::proofs::Turns::per_block_version2, crate::proofs::CanWrite::told_each_below), unfolding(crate::specs::Blocks::can_write))]
fn can_write(ids: &[u64], locations: usize, carried: usize, block: usize) -> bool
    ensures { result ≡ can_write version2 ids.now locations carried block }
{
    ids.len() <= PER_BLOCK && block == BLOCK && each_below(ids, locations.min(carried / WIDTH))
}

// Writes the block at `number`: the rows of these ids. Where that cannot be, the block is left as it was.
#[tactic(auto, using(crate::proofs::CanWrite::can_write_rows))]
pub fn write(number: u64, ids: &[u64], locations: &[u64], carried: &[u8], block: &mut [u8])
    ensures { block.new
        ≡ cond
        (can_write version2 ids.now
        (length locations.now) (length carried.now) (length block.old))
        (block_of version2 number (map (entry_for 80 locations.now carried.now) ids.now))
        block.old }
{
    if can_write(ids, locations.len(), carried.len(), block.len()) {
        write_block(number, ids, locations, carried, block);
    }
}
