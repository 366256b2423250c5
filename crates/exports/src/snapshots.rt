// Snapshots: written from a store's tables, read row by row or whole.
ghost use Rattle.std.specs.Prelude.{◌≡◌};
ghost use Rattle.model.specs.Store.{ask, snapshot_length, snapshot};
ghost use Rattle.model.specs.Lent.{answered};
ghost use Rattle.model.specs.Outcomes.{outcome_of, list_in};
ghost use Rattle.snapshot_blocks.specs.Formats.{format_of};
ghost use Rattle.snapshot.specs.Snapshot.{step_by};
ghost use Rattle.snapshot.specs.Outcomes.{step_outcome};
ghost use Rattle.snapshot_lists.specs.Lists.{read_into};
ghost use Rattle.snapshot_lists.specs.Outcomes.{taken_outcome};
ghost use Rattle.exports_status.specs.Status.{status_of, or_zeros, Exported, exported};
ghost use Rattle.exports.specs.Answers.{where_fits};

use crate::values;
use exports_status::{WRONG_LENGTH, finished, status};
use snapshot::Position;
use tables::Capacities;

// How many bytes a snapshot of the store takes. One value.
pub fn wentuhoro_snapshot_length(
    ids: usize,
    slots: usize,
    id_marks: &[u8],
    locations: &[u64],
    batch: &[u64],
    tallies: &[u64],
    length: &mut [u64],
) -> u64
    ensures { ◌≡◌ {A = Exported} (record { status = result; lent = length.new })
        (exported 1 (outcome_of (answered (ask snapshot_length) ids slots
        id_marks.now
        locations.now
        batch.now
        tallies.now))
        length.old) }
{
    if length.len() != 1 {
        return WRONG_LENGTH;
    }
    let caps = Capacities { ids, slots };
    match snapshot_writer::snapshot_length(caps, id_marks, locations, batch, tallies) {
        Ok(n) => {
            length[0] = n as u64;
            0
        }
        Err(r) => status(r),
    }
}

// Writes a snapshot of the store into a file of just that many bytes.
pub fn wentuhoro_snapshot_write(
    ids: usize,
    slots: usize,
    id_marks: &[u8],
    locations: &[u64],
    slot_marks: &[u8],
    owners: &[u64],
    batch: &[u64],
    tallies: &[u64],
    carried: &[u8],
    file: &mut [u8],
) -> u64
    ensures status { result ≡ status_of (outcome_of (answered (ask (snapshot file.old)) ids slots
        id_marks.now
        locations.now
        slot_marks.now
        owners.now
        batch.now
        tallies.now
        carried.now)) }
    ensures file_after { file.new ≡ list_in 0 (answered (ask (snapshot file.old)) ids slots
        id_marks.now
        locations.now
        slot_marks.now
        owners.now
        batch.now
        tallies.now
        carried.now)
        file.old }
{
    let caps = Capacities { ids, slots };
    finished(snapshot_writer::snapshot_write(
        caps, id_marks, locations, slot_marks, owners, batch, tallies, carried, file,
    ))
}

// The row at a position of a snapshot. Eight values: 1, id, collection, location, block and row of the next position, and where in the file the
// key stands and how long it is; or eight zeros at the end.
pub fn wentuhoro_snapshot_step(file: &[u8], block: usize, row: usize, values: &mut [u64]) -> u64
    ensures { ◌≡◌ {A = Exported} (record { status = result; lent = values.new })
        (exported 8 (or_zeros 8 (step_outcome (step_by format_of block row file.now))) values.old) }
{
    if values.len() != 8 {
        return WRONG_LENGTH;
    }
    let at = Position { block, row };
    match at.step(file) {
        Ok(Some((found, next))) => {
            values::eight(
                values,
                1,
                found.id,
                found.collection,
                found.location,
                next.block as u64,
                next.row as u64,
                found.key as u64,
                found.length as u64,
            );
            0
        }
        Ok(None) => {
            values::eight(values, 0, 0, 0, 0, 0, 0, 0, 0);
            0
        }
        Err(r) => status(r),
    }
}

// Reads a whole snapshot into lists, which have room for 20 rows a block, 5 where the first block is of version 2. How many rows there are, one value.
pub fn wentuhoro_snapshot_read(
    file: &[u8],
    row_ids: &mut [u64],
    row_locations: &mut [u64],
    row_carried: &mut [u8],
    rows: &mut [u64],
) -> u64
    ensures answers { ◌≡◌ {A = Exported} (record { status = result; lent = rows.new })
        (exported 1
        (taken_outcome
        (read_into file.now row_ids.old row_locations.old row_carried.old).answer)
        rows.old) }
    ensures row_ids_after { row_ids.new
        ≡ where_fits 1 rows.old
        (read_into file.now row_ids.old row_locations.old row_carried.old).ids
        row_ids.old }
    ensures row_locations_after { row_locations.new
        ≡ where_fits 1 rows.old
        (read_into file.now row_ids.old row_locations.old row_carried.old).locations
        row_locations.old }
    ensures row_carried_after { row_carried.new
        ≡ where_fits 1 rows.old
        (read_into file.now row_ids.old row_locations.old row_carried.old).carried
        row_carried.old }
{
    if rows.len() != 1 {
        return WRONG_LENGTH;
    }
    match snapshot_lists::read(file, row_ids, row_locations, row_carried) {
        Ok(n) => {
            rows[0] = n as u64;
            0
        }
        Err(r) => status(r),
    }
}
