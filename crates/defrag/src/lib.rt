// Which objects to move so that slabs can be cut shorter (object_location_mapper.rs, objects_to_defrag; document 01, "Defrag and
// truncation").
//
//     // moved_ids, moved_locations: caps.ids - 1 rows each
//     match defrag::objects_to_defrag(caps, &locations, &slot_marks, &owners, &batch, &tallies, 0.75, &mut moved_ids, &mut moved_locations) {
//         Ok(n) => ..,         // the first n rows, by slab, then slot
//         Err(refusal) => ..,  // 1, 11, 14
//     }
//
// Rows past the count keep what they held. One pass over the slots between a slab's cutoff and its tip; the marks of a slab are
// counted, not walked.
#![tactic(auto)]

ghost use Rattle.std.specs.Prelude.{◌≡◌, ◌&&◌, suc, eqb};
ghost use Rattle.model.specs.Store.{ask, defrag};
ghost use Rattle.model.specs.Lending.{move_tables};
ghost use Rattle.model.specs.Lent.{fits_by, answered};
ghost use Rattle.model.specs.Outcomes.{outcome_of, list_in};
ghost use Rattle.defrag.specs.Outcomes.{defrag_outcome};

use refusal::{Kind, Refusal};
use tables::Capacities;

mod rows;
mod slabs;

// Refusal 1.
fn fits(
    caps: Capacities,
    locations: usize,
    slot_marks: usize,
    owners: usize,
    batch: usize,
    tallies: usize,
    moved_ids: usize,
    moved_locations: usize,
) -> bool
    ensures { result ≡ (fits_by move_tables caps.ids caps.slots locations slot_marks owners batch tallies
        && (eqb (suc moved_ids) caps.ids && eqb moved_locations moved_ids)) }
{
    if !tables::defrag_fits(caps, locations, slot_marks, owners, batch, tallies) {
        return false;
    }
    tables::both(moved_ids == caps.ids - 1, moved_locations == moved_ids)
}

pub fn objects_to_defrag(
    caps: Capacities,
    locations: &[u64],
    slot_marks: &[u8],
    owners: &[u64],
    batch: &[u64],
    tallies: &[u64],
    r: f32,
    moved_ids: &mut [u64],
    moved_locations: &mut [u64],
) -> Result<usize, Refusal>
    ensures { (defrag_outcome result
        ≡ outcome_of (answered (ask (defrag r moved_ids.old moved_locations.old))
        caps.ids caps.slots
        locations.now
        slot_marks.now
        owners.now
        batch.now
        tallies.now))
        × (moved_ids.new
        ≡ list_in 0 (answered (ask (defrag r moved_ids.old moved_locations.old))
        caps.ids caps.slots
        locations.now
        slot_marks.now
        owners.now
        batch.now
        tallies.now)
        moved_ids.old)
        × (moved_locations.new
        ≡ list_in 1 (answered (ask (defrag r moved_ids.old moved_locations.old))
        caps.ids caps.slots
        locations.now
        slot_marks.now
        owners.now
        batch.now
        tallies.now)
        moved_locations.old) }
{
    if !fits(
        caps,
        locations.len(),
        slot_marks.len(),
        owners.len(),
        batch.len(),
        tallies.len(),
        moved_ids.len(),
        moved_locations.len(),
    ) {
        return Err(Refusal::of(Kind::WrongShape));
    }
    if tables::get(batch, 0, 0) != 0 {
        return Err(Refusal::of(Kind::BatchOpen));
    }
    if fragmentation::bad_ratio(r) {
        return Err(Refusal::of(Kind::RatioOutOfRange));
    }
    let slots = caps.slots;
    Ok(slabs::list_all(
        slots,
        locations,
        slot_marks,
        owners,
        tallies,
        r,
        moved_ids,
        moved_locations,
    ))
}
