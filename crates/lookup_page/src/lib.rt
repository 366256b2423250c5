// Up to 256 lookups in one call, for a page that opens as many icons (request 2026-09).
//
//     // asked: the ids, in any order and as often as one likes; numbers, found: as many rows; rows: as many times carried::WIDTH bytes
//     match lookup_page::get_locations_for_objects(caps, &id_marks, &locations, &slot_marks, &owners, &tallies, &carried, &asked, numbers, found, rows) {
//         Ok(()) => .. numbers[i] ..,    // 0: found[i] is the location of asked[i], and row i what its row carries; else 8 or 13, and zeros
//         Err(refusal) => ..,            // 1; 15, over 256 ids; the lists are as they were
//     }
//
// Row i is what a lookup of asked[i] answers: none depends on another. The lengths are looked at once.
#![tactic(auto)]

ghost use Rattle.std.specs.Prelude.{◌≡◌, false, ◌&&◌, map, ◌*◌, ◌<◌, ◌≤◌, eqb, length, get_or};
ghost use Rattle.refusal.specs.Outcomes.{finished_outcome};
ghost use Rattle.address.specs.Address.{bad_slots, slabs};
ghost use Rattle.carried.specs.Carried.{width};
ghost use Rattle.model.specs.Lending.{row_tables};
ghost use Rattle.model.specs.Lent.{fits_by};
ghost use Rattle.tables.specs.Entries.{owns_in};
ghost use Rattle.lookup.specs.Lookup.{located_as, looked_in};
ghost use Rattle.lookup_page.specs.Page.{Left, page, page_leaves};
ghost use Rattle.lookup_page.specs.Rows.{told_as, told_in, put_number, put_location, put_carried, written};

use address::SlabAddress;
use carried::WIDTH;
use refusal::{Kind, Refusal};
use tables::{Capacities, HINT, WAITING};

pub const MOST_ASKED: usize = 256;

// Refusal 1, by lengths.
fn fits(
    caps: Capacities,
    id_marks: usize,
    locations: usize,
    slot_marks: usize,
    owners: usize,
    tallies: usize,
    carried: usize,
    asked: usize,
    numbers: usize,
    found: usize,
    rows: usize,
) -> bool
    ensures { result
        ≡ (fits_by row_tables caps.ids caps.slots id_marks locations slot_marks owners tallies carried
        && (eqb numbers asked && eqb found asked && eqb rows (asked * width))) }
{
    tables::both(
        tables::lookup_fits(
            caps, id_marks, locations, slot_marks, owners, tallies, carried,
        ),
        tables::both(
            tables::both(numbers == asked, found == asked),
            tables::carries(asked, rows),
        ),
    )
}

// As a lookup's own `owns` and `locate`, which are private there: they ask that the tables fit, and no public function asks anything.
#[tactic(auto, using(lookup::proofs::Laws::slab_within))]
fn owns(
    slots: usize,
    slot_marks: &[u8],
    owners: &[u64],
    tallies: &[u64],
    id: u64,
    address: SlabAddress,
) -> bool
    requires { (address.slab < slabs) × (address.slot < slots) × (bad_slots slots ≡ false)
        × (length slot_marks.now ≡ slabs * slots) × (length owners.now ≡ slabs * slots) }
    ensures { result ≡ owns_in slots slot_marks.now owners.now tallies.now id address }
{
    let slab = address.slab;
    let slot = address.slot;
    let base = slab * slots;
    let end = base + slots;
    let hint = tables::get(tallies, HINT, slab + 1) as usize;
    let waiting = tables::get(tallies, WAITING, slab + 1);
    if !id_allocator::is_held(&slot_marks[base..end], hint, waiting, slot) {
        return false;
    }
    owners[base + slot] == id
}

#[tactic(auto, using(lookup::proofs::Laws::held_in_lt))]
fn locate(
    caps: Capacities,
    id_marks: &[u8],
    locations: &[u64],
    slot_marks: &[u8],
    owners: &[u64],
    tallies: &[u64],
    id: u64,
) -> Result<u64, Refusal>
    requires { (bad_slots caps.slots ≡ false) × (length locations.now ≡ caps.ids)
        × (length slot_marks.now ≡ slabs * caps.slots) × (length owners.now ≡ slabs * caps.slots) }
    ensures { result
        ≡ located_as (looked_in caps.ids caps.slots
        id_marks.now
        locations.now
        slot_marks.now
        owners.now
        tallies.now id) (get_or locations.now id 0) }
{
    let ids = caps.ids;
    let slots = caps.slots;
    if !tables::held_id(ids, id_marks, tallies, id) {
        return Err(Refusal::of(Kind::NoSuchId));
    }
    let location = locations[id as usize];
    let Ok(Some(address)) = SlabAddress::unpack(slots, location) else {
        return Err(Refusal::of(lookup::without_address(location)));
    };
    if !owns(slots, slot_marks, owners, tallies, id, address) {
        return Err(Refusal::of(Kind::TablesDisagree));
    }
    Ok(location)
}

// Writes what a lookup answered as row p: the row that was found, or a number and zeros.
fn put_told(
    looked: Result<u64, Refusal>,
    row: &[u8],
    p: usize,
    numbers: &mut [u8],
    found: &mut [u64],
    rows: &mut [u8],
)
    requires { (p < length numbers.old) × (p < length found.old) }
    ensures { (numbers.new ≡ put_number numbers.old p (told_as looked row.now))
        × (found.new ≡ put_location found.old p (told_as looked row.now))
        × (rows.new ≡ put_carried rows.old p (told_as looked row.now)) }
{
    match looked {
        Ok(location) => {
            numbers[p] = 0;
            found[p] = location;
            carried::put_row(rows, p, row);
        }
        Err(refusal) => {
            numbers[p] = refusal.kind.number();
            found[p] = 0;
            carried::put_row(rows, p, &[0; WIDTH]);
        }
    }
}

// A row for each id, in the order asked.
fn tell(
    caps: Capacities,
    id_marks: &[u8],
    locations: &[u64],
    slot_marks: &[u8],
    owners: &[u64],
    tallies: &[u64],
    carried: &[u8],
    asked: &[u64],
    numbers: &mut [u8],
    found: &mut [u64],
    rows: &mut [u8],
)
    requires { (length asked.now ≤ 256) × (length numbers.old ≡ length asked.now) × (length found.old ≡ length asked.now)
        × (bad_slots caps.slots ≡ false) × (length locations.now ≡ caps.ids)
        × (length slot_marks.now ≡ slabs * caps.slots) × (length owners.now ≡ slabs * caps.slots) }
    ensures { (numbers.new ≡ written put_number numbers.old 0 (map (told_in caps.ids caps.slots
        id_marks.now
        locations.now
        slot_marks.now
        owners.now
        tallies.now
        carried.now) asked.now))
        × (found.new ≡ written put_location found.old 0 (map (told_in caps.ids caps.slots
        id_marks.now
        locations.now
        slot_marks.now
        owners.now
        tallies.now
        carried.now) asked.now))
        × (rows.new ≡ written put_carried rows.old 0 (map (told_in caps.ids caps.slots
        id_marks.now
        locations.now
        slot_marks.now
        owners.now
        tallies.now
        carried.now) asked.now)) }
{
    for (p, id) in asked.iter().enumerate() {
        let looked = locate(caps, id_marks, locations, slot_marks, owners, tallies, *id);
        put_told(
            looked,
            carried::row(carried, *id as usize),
            p,
            numbers,
            found,
            rows,
        );
    }
}

pub fn get_locations_for_objects(
    caps: Capacities,
    id_marks: &[u8],
    locations: &[u64],
    slot_marks: &[u8],
    owners: &[u64],
    tallies: &[u64],
    carried: &[u8],
    asked: &[u64],
    numbers: &mut [u8],
    found: &mut [u64],
    rows: &mut [u8],
) -> Result<(), Refusal>
    ensures { ◌≡◌ {A = Left}
        (record { outcome = finished_outcome result; numbers = numbers.new; locations = found.new; carried = rows.new })
        (page_leaves (page asked.now numbers.old found.old rows.old) caps.ids caps.slots
        id_marks.now
        locations.now
        slot_marks.now
        owners.now
        tallies.now
        carried.now) }
{
    if !fits(
        caps,
        id_marks.len(),
        locations.len(),
        slot_marks.len(),
        owners.len(),
        tallies.len(),
        carried.len(),
        asked.len(),
        numbers.len(),
        found.len(),
        rows.len(),
    ) {
        return Err(Refusal::of(Kind::WrongShape));
    }
    if MOST_ASKED < asked.len() {
        return Err(Refusal::of(Kind::TooMany));
    }
    tell(
        caps, id_marks, locations, slot_marks, owners, tallies, carried, asked, numbers, found,
        rows,
    );
    Ok(())
}
