// Abandon: the open batch is dropped, and the slots that its offer took are free again (document 01, "Ids, slots, pending").
//
//     match abandon::abandon(caps, &mut slot_marks, &mut batch, &mut tallies) {
//         Ok(()) => ..,
//         Err(refusal) => ..,  // 1; 12, no batch is open; 13 with the update's index; nothing is written
//     }
//
// Batches that no offer made are legal input: an update whose id or location is out of range gives 13, and a slot that is there
// twice is given back twice.
#![tactic(auto)]

ghost use Rattle.std.specs.Prelude.{false, ◌≡◌, ◌*◌, pred, length, get_or};
ghost use Rattle.address.specs.Address.{bad_slots, slabs};
ghost use Rattle.model.specs.Store.{abandon, finished_answer};
ghost use Rattle.model.specs.Tables.{locations_of};
ghost use Rattle.model.specs.Memory.{Memory, read};
ghost use Rattle.model.specs.MemoryAfter.{Slots, give_slot, give_slots};
ghost use Rattle.model.specs.Step.{refusal};
ghost use Rattle.batch_kept.specs.Kept.{kept_from, rows_as};
ghost use Rattle.model.specs.Lent.{lent_to, answered, leaves};

use address::SlabAddress;
use refusal::{Kind, Refusal};
use tables::{Capacities, FREED, HINT, KEPT_LOCATIONS};

// How many kept updates are to be abandoned, or why none. Nothing is written.
fn check(
    caps: Capacities,
    slot_marks: &[u8],
    batch: &[u64],
    tallies: &[u64],
) -> Result<usize, Refusal>
    ensures { result
        ≡ rows_as (refusal (read (lent_to abandon caps.ids caps.slots
        slot_marks.now
        batch.now
        tallies.now)) abandon) (pred (get_or batch.now 0 0)) }
{
    if !tables::slab_fits(caps, slot_marks.len(), batch.len(), tallies.len()) {
        return Err(Refusal::of(Kind::WrongShape));
    }
    let n = batch_kept::opened(batch)?;
    batch_kept::in_range(caps.ids, caps.slots, batch, n)
}

// The slot of a location is given back; where that is none, nothing is written.
fn give_slot(slots: usize, slot_marks: &mut [u8], tallies: &mut [u64], location: u64)
    requires { (bad_slots slots ≡ false) × (length slot_marks.old ≡ slabs * slots) }
    ensures { ◌≡◌ {A = Slots} (record { marks = slot_marks.new; words = tallies.new })
        (give_slot slots (record { marks = slot_marks.old; words = tallies.old }) location) }
{
    let Ok(Some(address)) = SlabAddress::unpack(slots, location) else {
        return;
    };
    let slab = address.slab;
    let slot = address.slot;
    let start = slab * slots;
    let end = start + slots;
    let hint = tables::get(tallies, HINT, slab + 1) as usize;
    let back = id_allocator::give_back(&mut slot_marks[start..end], hint, slot);
    tables::add(tallies, FREED, slab + 1, 1);
    tables::put(tallies, HINT, slab + 1, back as u64);
}

// The slots of the n kept updates are given back, in list order.
fn give_slots(slots: usize, slot_marks: &mut [u8], batch: &[u64], tallies: &mut [u64], n: usize)
    requires { (bad_slots slots ≡ false) × (length slot_marks.old ≡ slabs * slots) }
    ensures { ◌≡◌ {A = Slots} (record { marks = slot_marks.new; words = tallies.new })
        (give_slots slots (record { marks = slot_marks.old; words = tallies.old })
        (locations_of (kept_from batch.now n 0))) }
{
    for i in 0..n {
        let location = tables::get(batch, KEPT_LOCATIONS, i);
        give_slot(slots, slot_marks, tallies, location);
    }
}

pub fn abandon(
    caps: Capacities,
    slot_marks: &mut [u8],
    batch: &mut [u64],
    tallies: &mut [u64],
) -> Result<(), Refusal>
    ensures answers { finished_answer result
        ≡ answered abandon caps.ids caps.slots
        slot_marks.old
        batch.old
        tallies.old }
    ensures leaves { ◌≡◌ {A = Memory} (lent_to abandon caps.ids caps.slots
        slot_marks.new
        batch.new
        tallies.new)
        (leaves abandon caps.ids caps.slots
        slot_marks.old
        batch.old
        tallies.old) }
{
    let n = check(caps, slot_marks, batch, tallies)?;
    give_slots(caps.slots, slot_marks, batch, tallies, n);
    tables::put(batch, 0, 0, 0);
    Ok(())
}
