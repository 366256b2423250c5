// One object: its id, where it lies, and what was granted and freed.
ghost use Rattle.std.specs.Prelude.{◌≡◌};
ghost use Rattle.model.specs.Store.{new_id, ask, lookup, counters};
ghost use Rattle.model.specs.Memory.{Memory};
ghost use Rattle.model.specs.Lent.{lent_to, answered, leaves};
ghost use Rattle.model.specs.Outcomes.{outcome_of, list_in};
ghost use Rattle.object_ids.specs.Counts.{listed};
ghost use Rattle.exports_status.specs.Status.{status_of, Exported, exported};
ghost use Rattle.exports.specs.Answers.{where_fits};

use crate::values;
use exports_status::{WRONG_LENGTH, status};
use tables::Capacities;

// The smallest free id above 0, held from now on. One value.
pub fn wentuhoro_new_id(
    ids: usize,
    slots: usize,
    id_marks: &mut [u8],
    batch: &[u64],
    tallies: &mut [u64],
    id: &mut [u64],
) -> u64
    ensures answers { ◌≡◌ {A = Exported} (record { status = result; lent = id.new })
        (exported 1 (outcome_of (answered new_id ids slots
        id_marks.old
        batch.now
        tallies.old))
        id.old) }
    ensures tables_after { ◌≡◌ {A = Memory} (lent_to new_id ids slots
        id_marks.new
        batch.now
        tallies.new)
        (where_fits 1 id.old
        (leaves new_id ids slots
        id_marks.old
        batch.now
        tallies.old)
        (lent_to new_id ids slots
        id_marks.old
        batch.now
        tallies.old)) }
{
    if id.len() != 1 {
        return WRONG_LENGTH;
    }
    let caps = Capacities { ids, slots };
    match object_ids::allocate_object_id(caps, id_marks, batch, tallies) {
        Ok(found) => {
            id[0] = found;
            0
        }
        Err(r) => status(r),
    }
}

// The location of an object, one value, and what its row carries.
pub fn wentuhoro_lookup(
    ids: usize,
    slots: usize,
    id_marks: &[u8],
    locations: &[u64],
    slot_marks: &[u8],
    owners: &[u64],
    tallies: &[u64],
    carried: &[u8],
    id: u64,
    location: &mut [u64],
    row: &mut [u8],
) -> u64
    ensures answers { ◌≡◌ {A = Exported} (record { status = result; lent = location.new })
        (exported 1 (outcome_of (answered (ask (lookup id row.old)) ids slots
        id_marks.now
        locations.now
        slot_marks.now
        owners.now
        tallies.now
        carried.now))
        location.old) }
    ensures row_after { row.new
        ≡ where_fits 1 location.old
        (list_in 0 (answered (ask (lookup id row.old)) ids slots
        id_marks.now
        locations.now
        slot_marks.now
        owners.now
        tallies.now
        carried.now)
        row.old)
        row.old }
{
    if location.len() != 1 {
        return WRONG_LENGTH;
    }
    let caps = Capacities { ids, slots };
    match lookup::get_location_for_object(
        caps, id_marks, locations, slot_marks, owners, tallies, carried, id, row,
    ) {
        Ok(l) => {
            location[0] = l;
            0
        }
        Err(r) => status(r),
    }
}

// Ids granted, ids freed, slots granted, slots freed. Four values.
pub fn wentuhoro_stats(ids: usize, slots: usize, tallies: &[u64], sums: &mut [u64]) -> u64
    ensures { ◌≡◌ {A = Exported} (record { status = result; lent = sums.new })
        (exported 4 (outcome_of (answered (ask counters) ids slots
        tallies.now))
        sums.old) }
{
    if sums.len() != 4 {
        return WRONG_LENGTH;
    }
    let caps = Capacities { ids, slots };
    match object_ids::stats(caps, tallies) {
        Ok(stats) => {
            values::four(
                sums,
                stats.objects_allocated,
                stats.objects_freed,
                stats.heap_slots_allocated,
                stats.heap_slots_freed,
            );
            0
        }
        Err(r) => status(r),
    }
}

// What each allocator has granted and freed: the ids', then each slab's. 79 rows in both lists.
pub fn wentuhoro_counters(
    ids: usize,
    slots: usize,
    tallies: &[u64],
    granted: &mut [u64],
    freed: &mut [u64],
) -> u64
    ensures status { result ≡ status_of (outcome_of (listed granted.old freed.old
        (answered (ask counters) ids slots
        tallies.now))) }
    ensures granted_after { granted.new ≡ list_in 0 (listed granted.old freed.old
        (answered (ask counters) ids slots
        tallies.now))
        granted.old }
    ensures freed_after { freed.new ≡ list_in 1 (listed granted.old freed.old
        (answered (ask counters) ids slots
        tallies.now))
        freed.old }
{
    let caps = Capacities { ids, slots };
    match object_ids::counters(caps, tallies, granted, freed) {
        Ok(_) => 0,
        Err(r) => status(r),
    }
}
