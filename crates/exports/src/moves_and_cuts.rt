// The night's work: what to move, and which files to cut.
ghost use Rattle.std.specs.Prelude.{◌≡◌};
ghost use Rattle.model.specs.Store.{ask, defrag, truncation, report};
ghost use Rattle.model.specs.Memory.{Memory};
ghost use Rattle.model.specs.Lent.{lent_to, answered, leaves};
ghost use Rattle.model.specs.Outcomes.{outcome_of, list_in};
ghost use Rattle.exports_status.specs.Status.{status_of, Exported, exported};
ghost use Rattle.exports.specs.Answers.{where_fits};

use crate::values;
use exports_status::{WRONG_LENGTH, finished, status};
use tables::Capacities;
use truncation::Cut;

// The objects to move, by slab, then slot, in the first rows of two lists of ids - 1 rows. One value: how many rows.
pub fn wentuhoro_defrag(
    ids: usize,
    slots: usize,
    locations: &[u64],
    slot_marks: &[u8],
    owners: &[u64],
    batch: &[u64],
    tallies: &[u64],
    ratio: f32,
    moved_ids: &mut [u64],
    moved_locations: &mut [u64],
    count: &mut [u64],
) -> u64
    ensures answers { ◌≡◌ {A = Exported} (record { status = result; lent = count.new })
        (exported 1 (outcome_of (answered (ask (defrag ratio moved_ids.old moved_locations.old)) ids slots
        locations.now
        slot_marks.now
        owners.now
        batch.now
        tallies.now))
        count.old) }
    ensures moved_ids_after { moved_ids.new
        ≡ where_fits 1 count.old
        (list_in 0 (answered (ask (defrag ratio moved_ids.old moved_locations.old)) ids slots
        locations.now
        slot_marks.now
        owners.now
        batch.now
        tallies.now)
        moved_ids.old)
        moved_ids.old }
    ensures moved_locations_after { moved_locations.new
        ≡ where_fits 1 count.old
        (list_in 1 (answered (ask (defrag ratio moved_ids.old moved_locations.old)) ids slots
        locations.now
        slot_marks.now
        owners.now
        batch.now
        tallies.now)
        moved_locations.old)
        moved_locations.old }
{
    if count.len() != 1 {
        return WRONG_LENGTH;
    }
    let caps = Capacities { ids, slots };
    match defrag::objects_to_defrag(
        caps,
        locations,
        slot_marks,
        owners,
        batch,
        tallies,
        ratio,
        moved_ids,
        moved_locations,
    ) {
        Ok(rows) => {
            count[0] = rows as u64;
            0
        }
        Err(r) => status(r),
    }
}

// Whether a slab's file is cut. Three values: 1, the length to cut it to, which is a whole number of slots, and the bytes from the length before
// down to it; or three zeros to keep it.
pub fn wentuhoro_truncation(
    ids: usize,
    slots: usize,
    slot_marks: &[u8],
    batch: &[u64],
    tallies: &mut [u64],
    slab: u64,
    t: u64,
    cut: &mut [u64],
) -> u64
    ensures answers { ◌≡◌ {A = Exported} (record { status = result; lent = cut.new })
        (exported 3 (outcome_of (answered (truncation slab t) ids slots
        slot_marks.now
        batch.now
        tallies.old))
        cut.old) }
    ensures tables_after { ◌≡◌ {A = Memory} (lent_to (truncation slab t) ids slots
        slot_marks.now
        batch.now
        tallies.new)
        (where_fits 3 cut.old
        (leaves (truncation slab t) ids slots
        slot_marks.now
        batch.now
        tallies.old)
        (lent_to (truncation slab t) ids slots
        slot_marks.now
        batch.now
        tallies.old)) }
{
    if cut.len() != 3 {
        return WRONG_LENGTH;
    }
    let caps = Capacities { ids, slots };
    match truncation::truncation(caps, slot_marks, batch, tallies, slab, t) {
        Ok(Some(Cut { length, given_back })) => {
            values::three(cut, 1, length, given_back);
            0
        }
        Ok(None) => {
            values::three(cut, 0, 0, 0);
            0
        }
        Err(r) => status(r),
    }
}

// A slab's file was cut.
pub fn wentuhoro_cut_done(
    ids: usize,
    slots: usize,
    slot_marks: &[u8],
    batch: &[u64],
    tallies: &mut [u64],
    slab: u64,
    t: u64,
) -> u64
    ensures status { result ≡ status_of (outcome_of (answered (report slab t) ids slots
        slot_marks.now
        batch.now
        tallies.old)) }
    ensures tables_after { ◌≡◌ {A = Memory} (lent_to (report slab t) ids slots
        slot_marks.now
        batch.now
        tallies.new)
        (leaves (report slab t) ids slots
        slot_marks.now
        batch.now
        tallies.old) }
{
    let caps = Capacities { ids, slots };
    finished(truncation::cut_done(caps, slot_marks, batch, tallies, slab, t))
}
