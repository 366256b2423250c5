// What a row carries beside its location (requests 2026-01 and 2026-06): WIDTH bytes, of which crate keys says the form. They stand in one column, a row
// for each id and then one for each kept update.
//
//     carried::put_row(carried, caps.ids + j, &row);     // an offer keeps the row of its update j
//     carried::settle(carried, caps.ids + j, id, location);  // a commit gives the row of update j to its id, and clears a freed id's
//     let row = carried::row(carried, id);               // what a lookup shows
//
// Every function takes any column: a row that is not in it reads as nothing and is not written.
#![tactic(auto)]

ghost use Rattle.std.specs.Prelude.{◌≡◌, length};
ghost use Rattle.carried.specs.Carried.{width, put_row, row_in, kept_row};

// How many bytes a row carries. Nothing here depends on more than that it is a number from 1 on.
pub const WIDTH: usize = 80;

// Row `index`; nothing where the column has no such row.
pub fn row(column: &[u8], index: usize) -> &[u8]
    ensures { result.now ≡ row_in width column.now index }
{
    if column.len() / WIDTH <= index {
        return &column[..0];
    }
    let start = index * WIDTH;
    let end = start + WIDTH;
    &column[start..end]
}

// Stores a whole row as row `index`.
pub fn put_row(column: &mut [u8], index: usize, row: &[u8])
    ensures { column.new ≡ put_row width column.old index row.now }
{
    if row.len() != WIDTH {
        return;
    }
    if column.len() / WIDTH <= index {
        return;
    }
    let start = index * WIDTH;
    let end = start + WIDTH;
    column[start..end].copy_from_slice(row);
}

// Gives row `kept` to row `id`, as the commit of one kept update does; where the update has no location, and so is a Free, zeros.
pub fn settle(column: &mut [u8], kept: usize, id: usize, location: u64)
    ensures { column.new ≡ put_row width column.old id (kept_row width column.old kept location) }
{
    let mut held = [0u8; WIDTH];
    if location == 0 {
        put_row(column, id, &held);
        return;
    }
    let own = row(column, kept);
    if own.len() != WIDTH {
        return;
    }
    held.copy_from_slice(own);
    put_row(column, id, &held);
}
