// The batch that the store keeps between an offer and its commit or abandon (document 01, "Ids, slots, pending"): how many updates
// it has, and which of them are out of range. Batches that no offer made are legal input.
//
//     let Ok(n) = batch_kept::opened(&batch) else { .. };  // 12, none is open; 13, more than MOST_UPDATES
//     // the updates 0 to n - 1: ids from tables::KEPT_IDS on, new locations from tables::KEPT_LOCATIONS on
//     batch_kept::in_range(ids, slots, &batch, n)  // 13 with the index of the first of them that is out of range
#![tactic(auto)]

ghost use Rattle.std.specs.Prelude.{◌≡◌};
ghost use Rattle.batch_kept.specs.Kept.{count_of, bad_kept, bad_kept_row, first_bad, kept_from, rows_as};

use address::SlabAddress;
use refusal::{Kind, Refusal};
use tables::{KEPT_IDS, KEPT_LOCATIONS, MOST_UPDATES};

// The opened word says one more than there are updates, and 0 where no batch is open.
const MOST_OPENED: u64 = MOST_UPDATES as u64 + 1;

#[tactic(auto, unfolding(crate::specs::Kept::count_of))]
pub fn opened(batch: &[u64]) -> Result<usize, Refusal>
    ensures { result ≡ count_of batch.now }
{
    let word = tables::get(batch, 0, 0);
    if word == 0 {
        return Err(Refusal::of(Kind::NoBatch));
    }
    if word > MOST_OPENED {
        return Err(Refusal::of(Kind::TablesDisagree));
    }
    Ok((word - 1) as usize)
}

// Whether a kept update's id, or its new location, is out of range. Location 0 is a Free's.
#[tactic(auto, unfolding(crate::specs::Kept::bad_kept))]
pub fn bad_kept(ids: usize, slots: usize, id: u64, location: u64) -> bool
    ensures { result ≡ bad_kept ids slots id location }
{
    !(0 < id && id < ids as u64) || SlabAddress::unpack(slots, location).is_err()
}

// The n kept updates, or 13 for the first that is out of range.
pub fn in_range(ids: usize, slots: usize, batch: &[u64], n: usize) -> Result<usize, Refusal>
    ensures { result ≡ rows_as (first_bad (bad_kept_row ids slots) 0 (kept_from batch.now n 0)) n }
{
    for i in 0..n {
        let id = tables::get(batch, KEPT_IDS, i);
        let location = tables::get(batch, KEPT_LOCATIONS, i);
        if bad_kept(ids, slots, id, location) {
            return Err(Refusal::at(Kind::TablesDisagree, i));
        }
    }
    Ok(n)
}
