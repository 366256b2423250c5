// Whether a commit is refused: 1, 12, 13 in that order. Nothing is written.
ghost use Rattle.std.specs.Prelude.{◌≡◌, pred, get_or};
ghost use Rattle.model.specs.Store.{commit};
ghost use Rattle.model.specs.Memory.{read};
ghost use Rattle.model.specs.Lent.{lent_to};
ghost use Rattle.model.specs.Step.{refusal};
ghost use Rattle.batch_kept.specs.Kept.{kept_from, first_bad, rows_as};
ghost use Rattle.tables.specs.Entries.{bad_in};
ghost use Rattle.commit.specs.Commit.{own_as, row_bad};

use address::SlabAddress;
use refusal::{Kind, Refusal};
use tables::{Capacities, KEPT_IDS, KEPT_LOCATIONS};

// Refusal 13 of update i by the present location of its id: it is out of range, its slot is not held, or its owner is another. Zero means no object: an id
// that was never stored passes. Stays beside tables::bad_location, which tests the same: document 01 names `let .. else` in a commit's check.
fn own_location(
    slots: usize,
    slot_marks: &[u8],
    owners: &[u64],
    tallies: &[u64],
    id: u64,
    location: u64,
    i: usize,
) -> Result<(), Refusal>
    ensures { result
        ≡ own_as (bad_in slots slot_marks.now owners.now tallies.now id location) i }
{
    if location == 0 {
        return Ok(());
    }
    let Ok(Some(address)) = SlabAddress::unpack(slots, location) else {
        return Err(Refusal::at(Kind::TablesDisagree, i));
    };
    if !tables::is_owner(slots, slot_marks, owners, tallies, id, address) {
        return Err(Refusal::at(Kind::TablesDisagree, i));
    }
    Ok(())
}

// The n kept updates, or 13 for the first that cannot be committed: it is out of range, or the id's present location cannot be its own.
fn check_rows(
    caps: Capacities,
    locations: &[u64],
    slot_marks: &[u8],
    owners: &[u64],
    batch: &[u64],
    tallies: &[u64],
    n: usize,
) -> Result<usize, Refusal>
    ensures { result
        ≡ rows_as (first_bad (row_bad caps.ids caps.slots
        locations.now
        slot_marks.now
        owners.now
        tallies.now) 0 (kept_from batch.now n 0)) n }
{
    for i in 0..n {
        let id = tables::get(batch, KEPT_IDS, i);
        let location = tables::get(batch, KEPT_LOCATIONS, i);
        if batch_kept::bad_kept(caps.ids, caps.slots, id, location) {
            return Err(Refusal::at(Kind::TablesDisagree, i));
        }
        let old = tables::get(locations, 0, id as usize);
        own_location(caps.slots, slot_marks, owners, tallies, id, old, i)?;
    }
    Ok(n)
}

// How many kept updates are to be committed, or why none.
pub(crate) fn check(
    caps: Capacities,
    id_marks: &[u8],
    locations: &[u64],
    slot_marks: &[u8],
    owners: &[u64],
    batch: &[u64],
    tallies: &[u64],
    carried: &[u8],
) -> Result<usize, Refusal>
    ensures { result
        ≡ rows_as (refusal (read (lent_to commit caps.ids caps.slots
        id_marks.now
        locations.now
        slot_marks.now
        owners.now
        batch.now
        tallies.now
        carried.now)) commit) (pred (get_or batch.now 0 0)) }
{
    if !tables::all_fit(
        caps,
        id_marks.len(),
        locations.len(),
        slot_marks.len(),
        owners.len(),
        batch.len(),
        tallies.len(),
        carried.len(),
    ) {
        return Err(Refusal::of(Kind::WrongShape));
    }
    let n = batch_kept::opened(batch)?;
    check_rows(caps, locations, slot_marks, owners, batch, tallies, n)
}
