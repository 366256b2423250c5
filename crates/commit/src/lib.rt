// Commit: the open batch takes effect (document 01, "Ids, slots, pending"; request 2026-01 for what rows carry).
//
//     match commit::commit(caps, &mut id_marks, &mut locations, &mut slot_marks, &mut owners, &mut batch, &mut tallies, &mut carried) {
//         Ok(()) => ..,
//         Err(refusal) => ..,  // 1; 12, no batch is open; 13 with the update's index; nothing is written
//     }
//
// All kept updates are checked against the tables as they are found (check.rt), then applied in list order, where nothing can
// fail: what is written at a location that is none is written nowhere. An update takes a handful of loads and stores; only the
// first that makes a number of an allocator pending since its last release passes over the allocator's marks.
#![tactic(auto)]

mod check;

ghost use Rattle.std.specs.Prelude.{false, ◌≡◌, ◌+◌, ◌*◌, ◌<◌, ◌≤◌, length, get_or};
ghost use Rattle.address.specs.Address.{bad_slots, slabs};
ghost use Rattle.carried.specs.Carried.{width, committed};
ghost use Rattle.model.specs.Store.{commit, finished_answer};
ghost use Rattle.model.specs.Tables.{write, most_updates};
ghost use Rattle.model.specs.Memory.{Memory, memory_of, get_word, waiting_words, kept_ids_at, kept_locations_at};
ghost use Rattle.model.specs.Lent.{lent_to, answered, leaves};
ghost use Rattle.model.specs.MemoryAfter.{Slots, ready_slab, pend_slot, ready_marks, ready_words, commit_row, commit_all};
ghost use Rattle.batch_kept.specs.Kept.{kept_from};

use address::SlabAddress;
use check::check;
use marks::PENDING;
use refusal::Refusal;
use tables::{Capacities, KEPT_IDS, KEPT_LOCATIONS, WAITING};

// The ids' allocator is the first of tables::ALLOCATORS; slab k's is k + 1.
const IDS: usize = 0;

// Before a number of an allocator becomes pending: where none waits, what counts as held is written as held, and from then on some wait.
fn ready(marks: &mut [u8], tallies: &mut [u64], allocator: usize)
    ensures { (marks.new
        ≡ ready_marks (get_word tallies.old waiting_words allocator) marks.old)
        × (tallies.new
        ≡ ready_words tallies.old allocator (get_word tallies.old waiting_words allocator)) }
{
    if tables::get(tallies, WAITING, allocator) != 0 {
        return;
    }
    id_allocator::settle(marks);
    tables::put(tallies, WAITING, allocator, 1);
}

// The same before a slot of a slab becomes pending.
fn ready_slab(slots: usize, slot_marks: &mut [u8], tallies: &mut [u64], slab: usize)
    requires { (slab < slabs) × (bad_slots slots ≡ false) × (length slot_marks.old ≡ slabs * slots) }
    ensures { ◌≡◌ {A = Slots} (record { marks = slot_marks.new; words = tallies.new })
        (ready_slab slots slab (record { marks = slot_marks.old; words = tallies.old })) }
{
    let start = slab * slots;
    let end = start + slots;
    ready(&mut slot_marks[start..end], tallies, slab + 1);
}

// The slot of a location becomes pending.
fn pend_slot(slots: usize, slot_marks: &mut [u8], tallies: &mut [u64], location: u64)
    requires { (bad_slots slots ≡ false) × (length slot_marks.old ≡ slabs * slots) }
    ensures { ◌≡◌ {A = Slots} (record { marks = slot_marks.new; words = tallies.new })
        (pend_slot slots (record { marks = slot_marks.old; words = tallies.old }) location) }
{
    let Ok(Some(address)) = SlabAddress::unpack(slots, location) else {
        return;
    };
    let slab = address.slab;
    let slot = address.slot;
    ready_slab(slots, slot_marks, tallies, slab);
    id_allocator::put(slot_marks, slab * slots + slot, PENDING);
}

// The owner entry of a location's slot.
fn put_owner(slots: usize, owners: &mut [u64], location: u64, id: u64)
    requires { bad_slots slots ≡ false }
    ensures { owners.new ≡ write slots location id owners.old }
{
    let Ok(Some(address)) = SlabAddress::unpack(slots, location) else {
        return;
    };
    let slab = address.slab;
    let slot = address.slot;
    tables::put(owners, slab * slots, slot, id);
}

// The kept update at an index. A new location of 0 is a Free's.
fn apply_row(
    caps: Capacities,
    id_marks: &mut [u8],
    locations: &mut [u64],
    slot_marks: &mut [u8],
    owners: &mut [u64],
    batch: &[u64],
    tallies: &mut [u64],
    index: usize,
)
    requires { (bad_slots caps.slots ≡ false) × (length slot_marks.old ≡ slabs * caps.slots) }
    ensures { ◌≡◌ {A = Memory} (memory_of caps.ids caps.slots
        id_marks.new
        locations.new
        slot_marks.new
        owners.new
        batch.now
        tallies.new)
        (commit_row (memory_of caps.ids caps.slots
        id_marks.old
        locations.old
        slot_marks.old
        owners.old
        batch.now
        tallies.old)
        (get_or batch.now (kept_ids_at + index) 0)
        (get_or batch.now (kept_locations_at + index) 0)
        (get_or locations.old (get_or batch.now (kept_ids_at + index) 0) 0)) }
{
    let slots = caps.slots;
    let id = tables::get(batch, KEPT_IDS, index);
    let new = tables::get(batch, KEPT_LOCATIONS, index);
    let old = tables::get(locations, 0, id as usize);
    tables::put(locations, 0, id as usize, new);
    if new != 0 {
        pend_slot(slots, slot_marks, tallies, old);
        put_owner(slots, owners, new, id);
        return;
    }
    ready(id_marks, tallies, IDS);
    id_allocator::put(id_marks, id as usize, PENDING);
    pend_slot(slots, slot_marks, tallies, old);
    put_owner(slots, owners, old, 0);
}

// The n kept updates, in list order.
fn apply_rows(
    caps: Capacities,
    id_marks: &mut [u8],
    locations: &mut [u64],
    slot_marks: &mut [u8],
    owners: &mut [u64],
    batch: &[u64],
    tallies: &mut [u64],
    n: usize,
)
    requires { (bad_slots caps.slots ≡ false) × (length slot_marks.old ≡ slabs * caps.slots) }
    ensures { ◌≡◌ {A = Memory} (memory_of caps.ids caps.slots
        id_marks.new
        locations.new
        slot_marks.new
        owners.new
        batch.now
        tallies.new)
        (commit_all (memory_of caps.ids caps.slots
        id_marks.old
        locations.old
        slot_marks.old
        owners.old
        batch.now
        tallies.old) (kept_from batch.now n 0)) }
{
    for i in 0..n {
        apply_row(
            caps, id_marks, locations, slot_marks, owners, batch, tallies, i,
        );
    }
}

// What each of the n kept updates carries goes to its id; a freed id is left with zeros. The rows of the kept updates stand after those of the ids.
fn settle_rows(ids: usize, batch: &[u64], carried: &mut [u8], n: usize)
    requires { (ids ≤ 65536) × (n ≤ most_updates) }
    ensures { carried.new ≡ committed width ids (kept_from batch.now n 0) carried.old }
{
    for i in 0..n {
        let id = tables::get(batch, KEPT_IDS, i);
        let location = tables::get(batch, KEPT_LOCATIONS, i);
        carried::settle(carried, ids + i, id as usize, location);
    }
}

pub fn commit(
    caps: Capacities,
    id_marks: &mut [u8],
    locations: &mut [u64],
    slot_marks: &mut [u8],
    owners: &mut [u64],
    batch: &mut [u64],
    tallies: &mut [u64],
    carried: &mut [u8],
) -> Result<(), Refusal>
    ensures answers { finished_answer result
        ≡ answered commit caps.ids caps.slots
        id_marks.old
        locations.old
        slot_marks.old
        owners.old
        batch.old
        tallies.old
        carried.old }
    ensures leaves { ◌≡◌ {A = Memory} (lent_to commit caps.ids caps.slots
        id_marks.new
        locations.new
        slot_marks.new
        owners.new
        batch.new
        tallies.new
        carried.new)
        (leaves commit caps.ids caps.slots
        id_marks.old
        locations.old
        slot_marks.old
        owners.old
        batch.old
        tallies.old
        carried.old) }
{
    let n = check(
        caps, id_marks, locations, slot_marks, owners, batch, tallies, carried,
    )?;
    apply_rows(
        caps, id_marks, locations, slot_marks, owners, batch, tallies, n,
    );
    settle_rows(caps.ids, batch, carried, n);
    tables::put(batch, 0, 0, 0);
    Ok(())
}
