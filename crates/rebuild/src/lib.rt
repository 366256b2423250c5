// A store made anew: from rows of an id, a location and what the row carries, or from none (object_location_mapper.rs, new; document 01,
// "Ids, slots, pending"; requests 2026-01 and 2026-06).
//
//     // ids, row_locations, row_carried: the rows, in any order; row_carried has carried::WIDTH bytes for each: the collection, the key's
//     // length in 8 bytes, and 64 bytes that start with the key
//     match rebuild::rebuild(caps, &mut id_marks, &mut locations, &mut slot_marks, &mut owners, &mut batch, &mut tallies, &mut carried,
//         &ids, &row_locations, &row_carried) {
//         Ok(()) => ..,
//         Err(refusal) => ..,  // 1; by its row 8, 9, 3, 16, 21
//     }
//
// Every word and byte of the seven tables is written, or none where the call is refused.
#![tactic(auto)]

ghost use Rattle.std.specs.Prelude.{◌≡◌, true, ◌&&◌, ◌*◌, eqb, ltb};
ghost use Rattle.refusal.specs.Refusals.{key_too_long};
ghost use Rattle.carried.specs.Carried.{width};
ghost use Rattle.model.specs.Store.{fresh, rebuild, finished_answer};
ghost use Rattle.model.specs.Lent.{lent_to, answered, leaves};
ghost use Rattle.model.specs.Verdict.{test, earlier};
ghost use Rattle.rebuild_rows.specs.Checks.{wrong_verdict};

use refusal::{Kind, Refusal};
use tables::Capacities;

mod apply;
mod clear;

// An empty store.
pub fn fresh(
    caps: Capacities,
    id_marks: &mut [u8],
    locations: &mut [u64],
    slot_marks: &mut [u8],
    owners: &mut [u64],
    batch: &mut [u64],
    tallies: &mut [u64],
    carried: &mut [u8],
) -> Result<(), Refusal>
    ensures { (finished_answer result
        ≡ answered fresh caps.ids caps.slots
        id_marks.old
        locations.old
        slot_marks.old
        owners.old
        batch.old
        tallies.old
        carried.old)
        × (lent_to fresh caps.ids caps.slots
        id_marks.new
        locations.new
        slot_marks.new
        owners.new
        batch.new
        tallies.new
        carried.new
        ≡ leaves fresh caps.ids caps.slots
        id_marks.old
        locations.old
        slot_marks.old
        owners.old
        batch.old
        tallies.old
        carried.old) }
{
    if !tables::all_fit(
        caps,
        id_marks.len(),
        locations.len(),
        slot_marks.len(),
        owners.len(),
        batch.len(),
        tallies.len(),
        carried.len(),
    ) {
        return Err(Refusal::of(Kind::WrongShape));
    }
    clear::all(
        id_marks, locations, slot_marks, owners, batch, tallies, carried,
    );
    Ok(())
}

// There is a location for each id, and as many bytes as they carry.
fn rows_fit(ids: usize, locations: usize, carried: usize) -> bool
    ensures { result ≡ (eqb locations ids && eqb carried (ids * width)) }
{
    locations == ids && tables::carries(ids, carried)
}

// The first row that is refused, where `long` is the first whose key is too long: of one row's refusals that of the key comes last.
fn with_keys(said: Result<(), Refusal>, long: usize, rows: usize) -> Result<(), Refusal>
    ensures { wrong_verdict result ≡ earlier (λ n. true) (wrong_verdict said) (test (ltb long rows) key_too_long long) }
{
    if rows <= long {
        return said;
    }
    match said {
        Err(refusal) if refusal.index <= long => said,
        _ => Err(Refusal::at(Kind::KeyTooLong, long)),
    }
}

// A store that holds the rows' ids and slots, and nothing else.
pub fn rebuild(
    caps: Capacities,
    id_marks: &mut [u8],
    locations: &mut [u64],
    slot_marks: &mut [u8],
    owners: &mut [u64],
    batch: &mut [u64],
    tallies: &mut [u64],
    carried: &mut [u8],
    ids: &[u64],
    row_locations: &[u64],
    row_carried: &[u8],
) -> Result<(), Refusal>
    ensures { (finished_answer result
        ≡ answered (rebuild (record { ids = ids.entry.now; locations = row_locations.now; carried = row_carried.now }))
        caps.ids caps.slots
        id_marks.old
        locations.old
        slot_marks.old
        owners.old
        batch.old
        tallies.old
        carried.old)
        × (lent_to (rebuild (record { ids = ids.entry.now; locations = row_locations.now; carried = row_carried.now }))
        caps.ids caps.slots
        id_marks.new
        locations.new
        slot_marks.new
        owners.new
        batch.new
        tallies.new
        carried.new
        ≡ leaves (rebuild (record { ids = ids.entry.now; locations = row_locations.now; carried = row_carried.now }))
        caps.ids caps.slots
        id_marks.old
        locations.old
        slot_marks.old
        owners.old
        batch.old
        tallies.old
        carried.old) }
{
    let fit = tables::all_fit(
        caps,
        id_marks.len(),
        locations.len(),
        slot_marks.len(),
        owners.len(),
        batch.len(),
        tallies.len(),
        carried.len(),
    );
    if !fit || !rows_fit(ids.len(), row_locations.len(), row_carried.len()) {
        return Err(Refusal::of(Kind::WrongShape));
    }
    let first = rebuild_rows::first_refused(caps, ids, row_locations);
    let long = keys::first_long_row(ids.len(), row_carried);
    with_keys(first, long, ids.len())?;
    apply::write(
        caps.slots,
        id_marks,
        locations,
        slot_marks,
        owners,
        batch,
        tallies,
        carried,
        ids,
        row_locations,
        row_carried,
    );
    Ok(())
}
