// The updates of an offer (document 01, "Ids, slots, pending"): the slab that each asks for a slot of, worked out once, and the refusals
// that are given per update: 8, 9, 2 and 13, in that order.
//
//     let all = offer_updates::kinds(&[1, 1, 0], &[3, 300, 0]);  // the slabs of 3 and of 300 bytes; a Free asks for none
//     match offer_updates::check(caps, &id_marks, &locations, &slot_marks, &owners, &tallies, &[4, 7, 5], &all[..3]) {
//         Ok(()) => ..,
//         Err(refusal) => ..,  // its index is the update's
//     }
#![tactic(auto)]

ghost use Rattle.std.specs.Prelude.{◌≡◌, false, [], ℕ, ◌+◌, ◌<◌, eqb, length, get_or};
ghost use Rattle.std.proofs.lemmas.List.Edits.{sets};
ghost use Rattle.list_parts.specs.Lists.{elem};
ghost use Rattle.keys.specs.Keys.{stores_of};
ghost use Rattle.model.specs.Tables.{most_updates};
ghost use Rattle.model.specs.Lending.{place_tables};
ghost use Rattle.model.specs.Lent.{lent_by};
ghost use Rattle.model.specs.Verdict.{judged_verdict};
ghost use Rattle.tables.specs.Entries.{held_in, bad_in};
ghost use Rattle.offer_updates.specs.Kinds.{no_class_kind, no_kinds, kind_of, kinds_of, before, wrong_by, check_in};

use address::SlabAddress;
use refusal::{Kind, Refusal};
use tables::{Capacities, MOST_UPDATES, bad_location, get, held_id};

// A Store whose object has no class, and a Free, among the slabs that updates ask for.
const NO_CLASS: usize = SlabAddress::SLABS;

const NO_SLAB: usize = NO_CLASS + 1;

// Ids with the same remainder share a byte that says whether one of them was seen.
const BUCKETS: u64 = 4096;

// The slab that an update asks for a slot of.
fn kind(store: bool, length: u64) -> usize
    ensures { result ≡ kind_of store length }
{
    if !store {
        return NO_SLAB;
    }
    match sizes::slab_for_size(length) {
        Ok(slab) => slab,
        Err(_) => NO_CLASS,
    }
}

// Of as many updates as a batch can have.
pub fn kinds(stores: &[u8], lengths: &[u64]) -> [usize; MOST_UPDATES]
    ensures { result ≡ sets no_kinds 0 (kinds_of (stores_of stores.now) lengths.now) }
{
    let mut slabs = [NO_SLAB; MOST_UPDATES];
    for (i, (store, length)) in stores.iter().zip(lengths).enumerate() {
        if MOST_UPDATES <= i {
            return slabs;
        }
        slabs[i] = kind(keys::is_store(*store), *length);
    }
    slabs
}

// Whether the id of update i is that of an earlier one.
fn repeated(ids: &[u64], i: usize) -> bool
    requires { i < length ids.now }
    ensures { result ≡ elem (get_or ids.now i 0) (before i ids.now) }
{
    ids[..i].contains(&ids[i])
}

// The same. `near` is false only where no earlier id is the same.
fn earlier(ids: &[u64], i: usize, near: bool) -> bool
    requires { (i < length ids.now) × (near ≡ false → elem (get_or ids.now i 0) (before i ids.now) ≡ false) }
    ensures { result ≡ elem (get_or ids.now i 0) (before i ids.now) }
{
    if !near {
        return false;
    }
    repeated(ids, i)
}

// The locations of as many ids as a batch can have. All are read before the first is judged, so that no read of a far place in memory
// waits for another.
fn locations_of(locations: &[u64], ids: &[u64]) -> [u64; MOST_UPDATES]
    ensures { (length result ≡ most_updates)
        × ((k : ℕ) → k < length ids.now → k < most_updates
        → get_or result k 0 ≡ get_or locations.now (0 + get_or ids.now k 0) 0) }
{
    let mut found = [0u64; MOST_UPDATES];
    for (i, id) in ids.iter().enumerate() {
        if MOST_UPDATES <= i {
            return found;
        }
        found[i] = get(locations, 0, *id as usize);
    }
    found
}

// The location of the id of update i: from those found, past them from the table.
fn location_of(found: &[u64], locations: &[u64], ids: &[u64], i: usize) -> u64
    requires { (i < length ids.now)
        × (length found.now ≡ most_updates)
        × ((k : ℕ) → k < length ids.now → k < most_updates
        → get_or found.now k 0 ≡ get_or locations.now (0 + get_or ids.now k 0) 0) }
    ensures { result ≡ get_or locations.now (0 + get_or ids.now i 0) 0 }
{
    if i < MOST_UPDATES {
        return found[i];
    }
    get(locations, 0, ids[i] as usize)
}

// Why update i is refused, where it is.
fn wrong(
    caps: Capacities,
    id_marks: &[u8],
    slot_marks: &[u8],
    owners: &[u64],
    tallies: &[u64],
    ids: &[u64],
    i: usize,
    slab: usize,
    location: u64,
    near: bool,
) -> Option<Kind>
    requires { (i < length ids.now) × (near ≡ false → elem (get_or ids.now i 0) (before i ids.now) ≡ false) }
    ensures { result
        ≡ wrong_by
        (held_in caps.ids id_marks.now tallies.now (get_or ids.now i 0))
        (elem (get_or ids.now i 0) (before i ids.now))
        (eqb slab no_class_kind)
        (bad_in caps.slots slot_marks.now owners.now tallies.now
        (get_or ids.now i 0) location) }
{
    let id = ids[i];
    if !held_id(caps.ids, id_marks, tallies, id) {
        return Some(Kind::NoSuchId);
    }
    if earlier(ids, i, near) {
        return Some(Kind::RepeatedId);
    }
    if slab == NO_CLASS {
        return Some(Kind::TooLarge);
    }
    if bad_location(caps.slots, slot_marks, owners, tallies, id, location) {
        return Some(Kind::TablesDisagree);
    }
    None
}

// The first refusal, in list order.
pub fn check(
    caps: Capacities,
    id_marks: &[u8],
    locations: &[u64],
    slot_marks: &[u8],
    owners: &[u64],
    tallies: &[u64],
    ids: &[u64],
    slabs: &[usize],
) -> Result<(), Refusal>
    ensures { judged_verdict result
        ≡ check_in (lent_by place_tables caps.ids caps.slots
        id_marks.now
        locations.now
        slot_marks.now
        owners.now
        tallies.now) [] 0 ids.now slabs.now }
{
    let found = locations_of(locations, ids);
    let mut seen = [false; BUCKETS as usize];
    for i in 0..ids.len().min(slabs.len()) {
        let bucket = (ids[i] % BUCKETS) as usize;
        let location = location_of(&found, locations, ids, i);
        if let Some(kind) = wrong(
            caps,
            id_marks,
            slot_marks,
            owners,
            tallies,
            ids,
            i,
            slabs[i],
            location,
            seen[bucket],
        ) {
            return Err(Refusal::at(kind, i));
        }
        seen[bucket] = true;
    }
    Ok(())
}
