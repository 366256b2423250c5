// One id and one slot, as the tables have them.
ghost use Rattle.std.specs.Prelude.{◌≡◌};
ghost use Rattle.tables.specs.Entries.{held_in, slab_part, owns_in, bad_in};

use crate::{HINT, WAITING, get};
use address::SlabAddress;

// Whether an id above 0 is held.
pub fn held_id(ids: usize, id_marks: &[u8], tallies: &[u64], id: u64) -> bool
    ensures { result ≡ held_in ids id_marks.now tallies.now id }
{
    if id < 1 {
        return false;
    }
    if ids as u64 <= id {
        return false;
    }
    let hint = get(tallies, HINT, 0) as usize;
    let waiting = get(tallies, WAITING, 0);
    id_allocator::is_held(id_marks, hint, waiting, id as usize)
}

// The marks of a slab; none where there is no such slab or capacity.
pub fn slab_marks(slot_marks: &[u8], slots: usize, slab: usize) -> &[u8]
    ensures { result.now ≡ slab_part slots slot_marks.now slab }
{
    let length = slot_marks.len();
    if slab >= SlabAddress::SLABS || address::bad_slots(slots) {
        return &slot_marks[length..];
    }
    let start = slab * slots;
    if length <= start {
        return &slot_marks[length..];
    }
    if length - start <= slots {
        return &slot_marks[start..];
    }
    let end = start + slots;
    &slot_marks[start..end]
}

// Whether a slot is held and the id is its owner; no where there is no such slab or capacity.
pub fn is_owner(
    slots: usize,
    slot_marks: &[u8],
    owners: &[u64],
    tallies: &[u64],
    id: u64,
    address: SlabAddress,
) -> bool
    ensures { result ≡ owns_in slots slot_marks.now owners.now tallies.now id address }
{
    let slab = address.slab;
    let slot = address.slot;
    if slab >= SlabAddress::SLABS || address::bad_slots(slots) {
        return false;
    }
    let hint = get(tallies, HINT, slab + 1) as usize;
    let waiting = get(tallies, WAITING, slab + 1);
    if !id_allocator::is_held(slab_marks(slot_marks, slots, slab), hint, waiting, slot) {
        return false;
    }
    get(owners, slab * slots, slot) == id
}

// Whether a location cannot be the id's: it is out of range, its slot is not held, or its owner is another. Zero is no location, and fine.
pub fn bad_location(
    slots: usize,
    slot_marks: &[u8],
    owners: &[u64],
    tallies: &[u64],
    id: u64,
    location: u64,
) -> bool
    ensures { result ≡ bad_in slots slot_marks.now owners.now tallies.now id location }
{
    let Ok(Some(address)) = SlabAddress::unpack(slots, location) else {
        return location != 0;
    };
    !is_owner(slots, slot_marks, owners, tallies, id, address)
}
