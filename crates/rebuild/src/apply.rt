// The rows written into cleared tables. Nothing can fail any more.
ghost use Rattle.std.specs.Prelude.{◌≡◌, false, cond, ◌*◌, ◌/◌, min, length, replicate};
ghost use Rattle.carried.specs.Carried.{width, put_rows};
ghost use Rattle.keys.specs.Keys.{normal_rows, all_stored};
ghost use Rattle.address.specs.Address.{bad_slots, unit, is_location};
ghost use Rattle.model.specs.Tables.{write, write_all, locations_of};
ghost use Rattle.model.specs.Rebuild.{rows_of, held_by, located_by, owned_by};
ghost use Rattle.model.specs.Memory.{put_word, used_words};
ghost use Rattle.model.specs.MemoryAfter.{use_slots};

use crate::clear;
use address::SlabAddress;
use marks::HELD;

// The rows' ids are held, and have their locations.
fn hold_ids(id_marks: &mut [u8], locations: &mut [u64], ids: &[u64], row_locations: &[u64])
    ensures { (id_marks.new ≡ held_by (rows_of ids.now row_locations.now) id_marks.old)
        × (locations.new ≡ located_by (rows_of ids.now row_locations.now) locations.old) }
{
    for (id, location) in ids.iter().zip(row_locations) {
        id_allocator::put(id_marks, *id as usize, HELD);
        tables::put(locations, *id as usize, 0, *location);
    }
}

// A location's slot is held by its id, and its slab used.
fn hold_slot(
    slots: usize,
    slot_marks: &mut [u8],
    owners: &mut [u64],
    tallies: &mut [u64],
    id: u64,
    location: u64,
)
    requires { bad_slots slots ≡ false }
    ensures { (slot_marks.new ≡ write slots location 1 slot_marks.old)
        × (owners.new ≡ write slots location id owners.old)
        × (tallies.new
        ≡ cond (is_location slots location) (put_word tallies.old used_words (location / unit) 1) tallies.old) }
{
    let Ok(Some(address)) = SlabAddress::unpack(slots, location) else {
        return;
    };
    let slab = address.slab;
    let slot = address.slot;
    let base = slab * slots;
    id_allocator::put(slot_marks, base + slot, HELD);
    tables::put(owners, base, slot, id);
    tables::put(tallies, tables::USED, slab + 1, 1);
}

// The rows' slots are held, and owned.
fn hold_slots(
    slots: usize,
    slot_marks: &mut [u8],
    owners: &mut [u64],
    tallies: &mut [u64],
    ids: &[u64],
    row_locations: &[u64],
)
    requires { bad_slots slots ≡ false }
    ensures { (slot_marks.new
        ≡ write_all slots (locations_of (rows_of ids.now row_locations.now)) 1 slot_marks.old)
        × (owners.new ≡ owned_by slots (rows_of ids.now row_locations.now) owners.old)
        × (tallies.new
        ≡ use_slots slots tallies.old (locations_of (rows_of ids.now row_locations.now))) }
{
    for (id, location) in ids.iter().zip(row_locations) {
        hold_slot(slots, slot_marks, owners, tallies, *id, *location);
    }
}

// Every word and byte of the seven tables: the rows, and zeros elsewhere.
pub(crate) fn write(
    slots: usize,
    id_marks: &mut [u8],
    locations: &mut [u64],
    slot_marks: &mut [u8],
    owners: &mut [u64],
    batch: &mut [u64],
    tallies: &mut [u64],
    carried: &mut [u8],
    ids: &[u64],
    row_locations: &[u64],
    row_carried: &[u8],
)
    requires { (bad_slots slots ≡ false)
        × (length row_locations.now ≡ length ids.now)
        × (length row_carried.now ≡ length ids.now * width) }
    ensures { (id_marks.new
        ≡ held_by (rows_of ids.now row_locations.now) (replicate (length id_marks.old) 0))
        × (locations.new
        ≡ located_by (rows_of ids.now row_locations.now) (replicate (length locations.old) 0))
        × (slot_marks.new
        ≡ write_all slots (locations_of (rows_of ids.now row_locations.now)) 1
        (replicate (length slot_marks.old) 0))
        × (owners.new
        ≡ owned_by slots (rows_of ids.now row_locations.now) (replicate (length owners.old) 0))
        × (batch.new ≡ replicate (length batch.old) 0)
        × (tallies.new
        ≡ use_slots slots (put_word (replicate (length tallies.old) 0) used_words 0 (min 1 (length ids.now)))
        (locations_of (rows_of ids.now row_locations.now)))
        × (carried.new
        ≡ put_rows width ids.now (normal_rows (all_stored ids.now) row_carried.now)
        (replicate (length carried.old) 0)) }
{
    clear::all(
        id_marks, locations, slot_marks, owners, batch, tallies, carried,
    );
    tables::put(tallies, tables::USED, 0, ids.len().min(1) as u64);
    hold_ids(id_marks, locations, ids, row_locations);
    hold_slots(slots, slot_marks, owners, tallies, ids, row_locations);
    keys::put_at(carried, ids, row_carried);
}
