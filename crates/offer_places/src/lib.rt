// What a granted offer writes (document 01, "Ids, slots, pending"): the slots' marks and words, the lent list, the kept batch.
//
//     offer_places::place(slots, &mut slot_marks, &mut tallies, &[0, 9, SlabAddress::SLABS], &mut placed);  // the first free slots of slabs 0 and 9; 0
//     offer_places::keep(&mut batch, &[4, 7, 5], &placed, 4);                                  // open, with three updates
//
// Neither can fail: where a slab has no free slot the location is 0, and nothing is taken.
#![tactic(auto)]

ghost use Rattle.std.specs.Prelude.{◌≡◌, true, false, set};
ghost use Rattle.std.proofs.lemmas.List.Edits.{sets};
ghost use Rattle.address.specs.Address.{bad_slots, is_location};
ghost use Rattle.model.specs.Memory.{kept_ids_at, kept_locations_at};
ghost use Rattle.model.specs.MemoryAfter.{take_slot, take_slots};
ghost use Rattle.offer_places.specs.Places.{slots_in, spot_in, place_in};

use address::SlabAddress;
use tables::{GRANTED, HINT, KEPT_IDS, KEPT_LOCATIONS, USED, add, get, put, slab_marks};

// The location of a slab's smallest free slot; 0 where it has none, and where there is no such slab.
fn spot(slots: usize, slot_marks: &[u8], tallies: &[u64], slab: usize) -> u64
    ensures { result ≡ spot_in slots (slots_in slot_marks.now tallies.now) slab }
{
    if slab >= SlabAddress::SLABS {
        return 0;
    }
    let hint = get(tallies, HINT, slab + 1) as usize;
    let slot = id_allocator::smallest_free(slab_marks(slot_marks, slots, slab), hint, 0);
    let Ok(address) = SlabAddress::from_slab_slot(slab, slot) else {
        return 0;
    };
    let Ok(location) = address.pack(slots) else {
        return 0;
    };
    location
}

// A location's slot is taken, and its allocator's words say so; nothing where it is no location.
fn take_slot(slots: usize, slot_marks: &mut [u8], tallies: &mut [u64], location: u64)
    requires { is_location slots location ≡ true → bad_slots slots ≡ false }
    ensures { slots_in slot_marks.new tallies.new
        ≡ take_slot slots (slots_in slot_marks.old tallies.old) location }
{
    let Ok(Some(address)) = SlabAddress::unpack(slots, location) else {
        return;
    };
    let slab = address.slab;
    let slot = address.slot;
    id_allocator::put(slot_marks, slab * slots + slot, marks::HELD);
    add(tallies, GRANTED, slab + 1, 1);
    put(tallies, USED, slab + 1, 1);
    put(tallies, HINT, slab + 1, slot as u64 + 1);
}

// A slot for each update, in list order.
pub fn place(
    slots: usize,
    slot_marks: &mut [u8],
    tallies: &mut [u64],
    slabs: &[usize],
    placed: &mut [u64],
)
    ensures { (placed.new
        ≡ sets placed.old 0
        (place_in slots (slots_in slot_marks.old tallies.old) slabs.now))
        × (slots_in slot_marks.new tallies.new
        ≡ take_slots slots (slots_in slot_marks.old tallies.old)
        (place_in slots (slots_in slot_marks.old tallies.old) slabs.now)) }
{
    for (i, slab) in slabs.iter().enumerate() {
        let location = spot(slots, slot_marks, tallies, *slab);
        take_slot(slots, slot_marks, tallies, location);
        put(placed, 0, i, location);
    }
}

fn copy(words: &mut [u64], base: usize, from: &[u64])
    ensures { words.new ≡ sets words.old base from.now }
{
    for (i, word) in from.iter().enumerate() {
        put(words, base, i, *word);
    }
}

// The store keeps the batch. The opened word says how many updates it has.
pub fn keep(batch: &mut [u64], ids: &[u64], placed: &[u64], opened: u64)
    ensures { batch.new
        ≡ set (sets (sets batch.old kept_ids_at ids.now) kept_locations_at placed.now) 0 opened }
{
    copy(batch, KEPT_IDS, ids);
    copy(batch, KEPT_LOCATIONS, placed);
    put(batch, 0, 0, opened);
}
