// A batch is offered (document 01, "Ids, slots, pending"): its slots are taken in list order, and the store keeps it until it is committed
// or abandoned. What the updates carry is kept with it (requests 2026-01 and 2026-06).
//
//     // ids 4 and 7 get objects of 3 and 300 bytes, 5 is freed; update_carried has carried::WIDTH bytes for each: the collection, the
//     // key's length in 8 bytes, and 64 bytes that start with the key; a Free's are not looked at
//     match offer::offer(caps, &id_marks, &locations, &mut slot_marks, &owners, &mut batch, &mut tallies,
//         &mut carried, &[4, 7, 5], &[1, 1, 0], &[3, 300, 0], &update_carried, &mut placed) {
//         Ok(()) => ..,              // placed has a packed location for each update, 0 for the Free
//         Err(refusal) => ..,  // 1, 11, 15; by its update 8, 9, 21, 2, 13; by its slab 10; nothing is written
//     }
//
// What could refuse only reads (`offer_updates`, `keys`, `offer_room`); what is written comes after it and cannot fail (`offer_places`,
// `keys`).
#![tactic(auto)]

ghost use Rattle.std.specs.Prelude.{◌≡◌, ◌&&◌, ◌||◌, [], eqb, ltb};
ghost use Rattle.refusal.specs.Refusals.{key_too_long};
ghost use Rattle.keys.specs.Keys.{stores_of};
ghost use Rattle.model.specs.Columns.{before_keys};
ghost use Rattle.model.specs.Verdict.{◌⨾◌, test, earlier, judged_verdict};
ghost use Rattle.model.specs.Lending.{every_table, place_tables};
ghost use Rattle.model.specs.Lent.{lent_by};
ghost use Rattle.offer.specs.Outcome.{offered_answer, Left, offer_leaves};
ghost use Rattle.offer.specs.Verdicts.{offer_fits, keys_in};
ghost use Rattle.offer_updates.specs.Kinds.{check_in};
ghost use Rattle.offer_room.specs.Room.{room_in_all, tallied, none_asked};

use refusal::{Kind, Refusal};
use tables::{Capacities, MOST_UPDATES, all_fit, both, carries, get};

// Refusal 1, by lengths.
fn fits(
    caps: Capacities,
    id_marks: usize,
    locations: usize,
    slot_marks: usize,
    owners: usize,
    batch: usize,
    tallies: usize,
    carried: usize,
    ids: usize,
    stores: usize,
    lengths: usize,
    update_carried: usize,
    placed: usize,
) -> bool
    ensures { result ≡ offer_fits caps.ids caps.slots
        id_marks locations slot_marks owners batch tallies carried ids stores lengths update_carried placed }
{
    both(
        all_fit(
            caps, id_marks, locations, slot_marks, owners, batch, tallies, carried,
        ),
        both(
            both(both(stores == ids, lengths == ids), placed == ids),
            carries(ids, update_carried),
        ),
    )
}

// Whether such a refusal of an update comes before that of its key.
fn before_keys(kind: Kind) -> bool
    ensures { result ≡ before_keys kind }
{
    matches!(kind, Kind::NoSuchId | Kind::RepeatedId)
}

// Whether a refusal comes before that of a key which is too long, at this update.
fn decides(refusal: Refusal, long: usize) -> bool
    ensures { result ≡ (ltb refusal.index long || (eqb refusal.index long && before_keys refusal.kind)) }
{
    if refusal.index != long {
        return refusal.index < long;
    }
    before_keys(refusal.kind)
}

// What the other tests of the updates say, and that of the keys, of which `long` is the first that is too long.
fn with_keys(checked: Result<(), Refusal>, long: usize, updates: usize) -> Result<(), Refusal>
    ensures { judged_verdict result ≡ earlier before_keys (judged_verdict checked) (test (ltb long updates) key_too_long long) }
{
    if updates <= long {
        return checked;
    }
    let keyed = Err(Refusal::at(Kind::KeyTooLong, long));
    let Err(refusal) = checked else {
        return keyed;
    };
    if decides(refusal, long) {
        return checked;
    }
    keyed
}

// The refusals that speak of updates and of slabs. `slabs` has the slab of each update.
fn refused(
    caps: Capacities,
    id_marks: &[u8],
    locations: &[u64],
    slot_marks: &[u8],
    owners: &[u64],
    tallies: &[u64],
    ids: &[u64],
    stores: &[u8],
    update_carried: &[u8],
    slabs: &[usize],
) -> Result<(), Refusal>
    ensures { judged_verdict result
        ≡ (earlier before_keys (check_in (lent_by place_tables caps.ids caps.slots
        id_marks.now
        locations.now
        slot_marks.now
        owners.now
        tallies.now) [] 0 ids.now slabs.now)
        (keys_in (stores_of stores.now) update_carried.now)
        ⨾ room_in_all caps.slots slot_marks.now tallies.now (tallied none_asked slabs.now)) }
{
    let slots = caps.slots;
    let checked = offer_updates::check(
        caps, id_marks, locations, slot_marks, owners, tallies, ids, slabs,
    );
    let long = keys::first_long(stores, update_carried);
    with_keys(checked, long, stores.len())?;
    let asked = offer_room::tally(slabs);
    offer_room::room(slots, slot_marks, tallies, &asked)
}

// The refusals in their order; then the slots are taken, the list is written, and the batch is kept.
pub fn offer(
    caps: Capacities,
    id_marks: &[u8],
    locations: &[u64],
    slot_marks: &mut [u8],
    owners: &[u64],
    batch: &mut [u64],
    tallies: &mut [u64],
    carried: &mut [u8],
    ids: &[u64],
    stores: &[u8],
    lengths: &[u64],
    update_carried: &[u8],
    placed: &mut [u64],
) -> Result<(), Refusal>
    ensures { ◌≡◌ {A = Left} (record {
      answer = offered_answer result placed.new;
      slot_marks = slot_marks.new;
      batch = batch.new;
      tallies = tallies.new;
      carried = carried.new;
      placed = placed.new;
    })
        (offer_leaves
        (lent_by every_table caps.ids caps.slots
        id_marks.now
        locations.now
        slot_marks.old
        owners.now
        batch.old
        tallies.old
        carried.old)
        (record {
          ids = ids.entry.now;
          stores = stores_of stores.now;
          lengths = lengths.now;
          carried = update_carried.now;
          placed = placed.old;
        })) }
{
    let n = ids.len();
    let slots = caps.slots;
    if !fits(
        caps,
        id_marks.len(),
        locations.len(),
        slot_marks.len(),
        owners.len(),
        batch.len(),
        tallies.len(),
        carried.len(),
        n,
        stores.len(),
        lengths.len(),
        update_carried.len(),
        placed.len(),
    ) {
        return Err(Refusal::of(Kind::WrongShape));
    }
    if get(batch, 0, 0) != 0 {
        return Err(Refusal::of(Kind::BatchOpen));
    }
    if n > MOST_UPDATES {
        return Err(Refusal::of(Kind::TooMany));
    }
    let all = offer_updates::kinds(stores, lengths);
    let slabs = &all[..n];
    refused(
        caps,
        id_marks,
        locations,
        slot_marks,
        owners,
        tallies,
        ids,
        stores,
        update_carried,
        slabs,
    )?;
    offer_places::place(slots, slot_marks, tallies, slabs, placed);
    offer_places::keep(batch, ids, placed, n as u64 + 1);
    keys::keep(carried, caps.ids, stores, update_carried);
    Ok(())
}
