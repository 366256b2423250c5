// The key of a row (request 2026-06), up to MOST_KEY bytes. A row is brought with the key's length in eight bytes, and kept with the length in one and
// zeros behind the key.
//
//     let b = keys::is_store(stores[i]);                 // an offer's updates come with a byte each
//     let i = keys::first_long(stores, rows);            // the first update to store whose key is too long
//     let i = keys::first_long_row(ids.len(), rows);     // a rebuild, where each row is stored
//     keys::keep(column, first, stores, rows);           // an offer keeps its rows from row `first` on
//     keys::put_at(column, ids, rows);                   // a rebuild, each row at its id's
//
// Every function takes any lengths: where there are not as many rows as there have to be, none is too long and none is kept.
#![tactic(auto)]

ghost use Rattle.std.specs.Prelude.{◌≡◌, true, false, MatchOption, cond, ◌&&◌, ◌*◌, eqb, length, replicate};
ghost use Rattle.std.specs.Simd.{first_chunks};
ghost use Rattle.carried.specs.Carried.{width, put_row, put_rows, up_from};
ghost use Rattle.keys.specs.Keys.{key_is_long, kept_length, normal, normal_of, long_in, normal_rows, is_store, stores_of, all_stored, first_met};

use carried::WIDTH;

// How many bytes a key has at the most.
pub const MOST_KEY: usize = 64;

// The length follows the collection, in both forms of a row. It takes eight bytes in a row that is brought, and one in a row that is kept.
const LENGTH: usize = 8;

const BROUGHT_KEY: usize = LENGTH + 8;

const KEPT_KEY: usize = LENGTH + 1;

// The rows that the bytes are, where they are so many.
fn rows_in(bytes: &[u8], count: usize) -> Option<&[[u8; WIDTH]]>
    ensures { MatchOption result (eqb (length bytes.now) (count * width) ≡ false)
        (λ rows. (eqb (length bytes.now) (count * width) ≡ true) × (rows.now ≡ first_chunks width count bytes.now)) }
{
    let (rows, rest) = bytes.as_chunks::<WIDTH>();
    if rest.is_empty() && rows.len() == count {
        Some(rows)
    } else {
        None
    }
}

// Whether an update is a Store: 0 frees, any other byte stores, so that every byte has an answer.
pub fn is_store(byte: u8) -> bool
    ensures { result ≡ is_store byte }
{
    byte != 0
}

// Whether a row's key is too long.
fn key_is_long(row: &[u8; WIDTH]) -> bool
    ensures { result ≡ key_is_long row.now }
{
    (MOST_KEY as u64) < little_endian::get_at(row, LENGTH, BROUGHT_KEY)
}

// Whether a row is to be stored and its key is too long.
fn is_long(store: bool, row: &[u8; WIDTH]) -> bool
    ensures { result ≡ (store && key_is_long row.now) }
{
    store && key_is_long(row)
}

// The first row to be stored whose key is too long; as many as there are where none is.
pub fn first_long(stores: &[u8], rows: &[u8]) -> usize
    ensures { result
        ≡ cond (eqb (length rows.now) (length stores.now * width))
        (first_met (long_in (stores_of stores.now) rows.now))
        (length stores.now) }
{
    let Some(rows) = rows_in(rows, stores.len()) else {
        return stores.len();
    };
    // `zip` and `position` take twice as long: 1.3 ns a row in place of 0.7.
    for (i, row) in rows.iter().enumerate() {
        if is_long(is_store(stores[i]), row) {
            return i;
        }
    }
    stores.len()
}

// The same where each of `count` rows is stored.
pub fn first_long_row(count: usize, rows: &[u8]) -> usize
    ensures { result
        ≡ cond (eqb (length rows.now) (count * width)) (first_met (long_in (replicate count true) rows.now)) count }
{
    let Some(rows) = rows_in(rows, count) else {
        return count;
    };
    rows.iter().position(key_is_long).unwrap_or(count)
}

// How many bytes of its key are kept.
fn kept_length(row: &[u8; WIDTH]) -> usize
    ensures { result ≡ kept_length row.now }
{
    let said = little_endian::get_at(row, LENGTH, BROUGHT_KEY);
    said.min(MOST_KEY as u64) as usize
}

// A row as it is kept, written over zeros.
fn write_kept(kept: &mut [u8; WIDTH], row: &[u8; WIDTH])
    requires { kept.old ≡ replicate width 0 }
    ensures { kept.new ≡ normal row.now }
{
    let length = kept_length(row);
    let end = BROUGHT_KEY + length;
    let key = &row[BROUGHT_KEY..end];
    kept[..LENGTH].copy_from_slice(&row[..LENGTH]);
    kept[LENGTH] = length as u8;
    kept[KEPT_KEY..KEPT_KEY + key.len()].copy_from_slice(key);
}

// Keeps one row as row `index`: of one that is not stored zeros.
fn keep_row(column: &mut [u8], index: usize, store: bool, row: &[u8; WIDTH])
    ensures { column.new ≡ put_row width column.old index (normal_of store row.now) }
{
    let mut kept = [0u8; WIDTH];
    if store {
        write_kept(&mut kept, row);
    }
    carried::put_row(column, index, &kept);
}

// Keeps rows one after the other, from row `first` on. Those for which the column has no row are not kept.
pub fn keep(column: &mut [u8], first: usize, stores: &[u8], rows: &[u8])
    ensures { column.new
        ≡ cond (eqb (length rows.now) (length stores.now * width))
        (put_rows width (up_from first (length stores.now)) (normal_rows (stores_of stores.now) rows.now)
        column.old)
        column.old }
{
    let Some(rows) = rows_in(rows, stores.len()) else {
        return;
    };
    for (i, row) in rows.iter().enumerate() {
        // Where the sum would not fit there is no such row.
        let index = first.saturating_add(i);
        if column.len() / WIDTH <= index {
            return;
        }
        keep_row(column, index, is_store(stores[i]), row);
    }
}

// Keeps rows one after the other, each at its own number.
pub fn put_at(column: &mut [u8], ids: &[u64], rows: &[u8])
    ensures { column.new
        ≡ cond (eqb (length rows.now) (length ids.now * width))
        (put_rows width ids.now (normal_rows (all_stored ids.now) rows.now) column.old)
        column.old }
{
    let Some(rows) = rows_in(rows, ids.len()) else {
        return;
    };
    for (row, id) in rows.iter().zip(ids) {
        keep_row(column, *id as usize, true, row);
    }
}
