// Where an id's object stands, and what its row carries (ObjectLocationMapper::get_location_for_object; document 01, "Refusal numbers": lookup 1, 8, 13;
// request 2026-01).
//
//     let mut row = [0u8; carried::WIDTH];
//     match lookup::get_location_for_object(caps, &id_marks, &locations, &slot_marks, &owners, &tallies, &carried, id, &mut row) {
//         Ok(location) => ..,  // packed, and not 0; row has what the id's row carries
//         Err(refusal) => ..,  // 1; 8, no such id, or none stored under it; 13, the tables contradict each other; row is as it was
//     }
//
// No table is written, and an open batch does not matter: what it stores is seen once it is committed.
#![tactic(auto)]

ghost use Rattle.std.specs.Prelude.{◌≡◌, false, cond, ◌&&◌, ◌*◌, ◌<◌, eqb, length, get_or};
ghost use Rattle.refusal.specs.Refusals.{no_such_id, tables_disagree};
ghost use Rattle.address.specs.Address.{bad_slots, slabs};
ghost use Rattle.carried.specs.Carried.{width};
ghost use Rattle.model.specs.Lending.{row_tables};
ghost use Rattle.model.specs.Lent.{fits_by, answered};
ghost use Rattle.model.specs.Outcomes.{list_in};
ghost use Rattle.model.specs.Store.{ask, lookup};
ghost use Rattle.tables.specs.Entries.{owns_in};
ghost use Rattle.lookup.specs.Lookup.{looked_answer, located_as, looked_in};

use address::SlabAddress;
use carried::WIDTH;
use refusal::{Kind, Refusal};
use tables::{Capacities, HINT, WAITING};

// Refusal 1, by lengths.
fn fits(
    caps: Capacities,
    id_marks: usize,
    locations: usize,
    slot_marks: usize,
    owners: usize,
    tallies: usize,
    carried: usize,
    row: usize,
) -> bool
    ensures { result
        ≡ (fits_by row_tables caps.ids caps.slots id_marks locations slot_marks owners tallies carried && eqb row width) }
{
    tables::both(
        tables::lookup_fits(
            caps, id_marks, locations, slot_marks, owners, tallies, carried,
        ),
        row == WIDTH,
    )
}

// Why a location without an address is refused: zero means no object, and any other number is out of range.
pub fn without_address(location: u64) -> Kind
    ensures { result ≡ cond (eqb location 0) no_such_id tables_disagree }
{
    if location == 0 {
        Kind::NoSuchId
    } else {
        Kind::TablesDisagree
    }
}

// Whether a slot of a slab is held and the id is its owner, of tables that fit.
#[tactic(auto, using(crate::proofs::Laws::slab_within))]
fn owns(
    slots: usize,
    slot_marks: &[u8],
    owners: &[u64],
    tallies: &[u64],
    id: u64,
    address: SlabAddress,
) -> bool
    requires { (address.slab < slabs) × (address.slot < slots) × (bad_slots slots ≡ false)
        × (length slot_marks.now ≡ slabs * slots) × (length owners.now ≡ slabs * slots) }
    ensures { result ≡ owns_in slots slot_marks.now owners.now tallies.now id address }
{
    let slab = address.slab;
    let slot = address.slot;
    let base = slab * slots;
    let end = base + slots;
    let hint = tables::get(tallies, HINT, slab + 1) as usize;
    let waiting = tables::get(tallies, WAITING, slab + 1);
    if !id_allocator::is_held(&slot_marks[base..end], hint, waiting, slot) {
        return false;
    }
    owners[base + slot] == id
}

// The id's location, or why it is not told, of tables that fit.
#[tactic(auto, using(crate::proofs::Laws::held_in_lt))]
fn locate(
    caps: Capacities,
    id_marks: &[u8],
    locations: &[u64],
    slot_marks: &[u8],
    owners: &[u64],
    tallies: &[u64],
    id: u64,
) -> Result<u64, Refusal>
    requires { (bad_slots caps.slots ≡ false) × (length locations.now ≡ caps.ids)
        × (length slot_marks.now ≡ slabs * caps.slots) × (length owners.now ≡ slabs * caps.slots) }
    ensures { result
        ≡ located_as (looked_in caps.ids caps.slots
        id_marks.now
        locations.now
        slot_marks.now
        owners.now
        tallies.now id) (get_or locations.now id 0) }
{
    let ids = caps.ids;
    let slots = caps.slots;
    if !tables::held_id(ids, id_marks, tallies, id) {
        return Err(Refusal::of(Kind::NoSuchId));
    }
    let location = locations[id as usize];
    let Ok(Some(address)) = SlabAddress::unpack(slots, location) else {
        return Err(Refusal::of(without_address(location)));
    };
    if !owns(slots, slot_marks, owners, tallies, id, address) {
        return Err(Refusal::of(Kind::TablesDisagree));
    }
    Ok(location)
}

pub fn get_location_for_object(
    caps: Capacities,
    id_marks: &[u8],
    locations: &[u64],
    slot_marks: &[u8],
    owners: &[u64],
    tallies: &[u64],
    carried: &[u8],
    id: u64,
    row: &mut [u8],
) -> Result<u64, Refusal>
    ensures answers { looked_answer result row.new
        ≡ answered (ask (lookup id row.old)) caps.ids caps.slots
        id_marks.now
        locations.now
        slot_marks.now
        owners.now
        tallies.now
        carried.now }
    ensures leaves { row.new
        ≡ list_in 0 (answered (ask (lookup id row.old)) caps.ids caps.slots
        id_marks.now
        locations.now
        slot_marks.now
        owners.now
        tallies.now
        carried.now) row.old }
{
    if !fits(
        caps,
        id_marks.len(),
        locations.len(),
        slot_marks.len(),
        owners.len(),
        tallies.len(),
        carried.len(),
        row.len(),
    ) {
        return Err(Refusal::of(Kind::WrongShape));
    }
    let location = locate(caps, id_marks, locations, slot_marks, owners, tallies, id)?;
    carried::put_row(row, 0, carried::row(carried, id as usize));
    Ok(location)
}
