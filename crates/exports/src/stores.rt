// A store made new: fresh, or rebuilt from its live rows.
ghost use Rattle.std.specs.Prelude.{◌≡◌};
ghost use Rattle.model.specs.Store.{fresh, rebuild};
ghost use Rattle.model.specs.Memory.{Memory};
ghost use Rattle.model.specs.Lent.{lent_to, answered, leaves};
ghost use Rattle.model.specs.Outcomes.{outcome_of};
ghost use Rattle.exports_status.specs.Status.{status_of};

use exports_status::finished;
use tables::Capacities;

// A store that holds nothing.
pub fn wentuhoro_fresh(
    ids: usize,
    slots: usize,
    id_marks: &mut [u8],
    locations: &mut [u64],
    slot_marks: &mut [u8],
    owners: &mut [u64],
    batch: &mut [u64],
    tallies: &mut [u64],
    carried: &mut [u8],
) -> u64
    ensures status { result ≡ status_of (outcome_of (answered fresh ids slots
        id_marks.old
        locations.old
        slot_marks.old
        owners.old
        batch.old
        tallies.old
        carried.old)) }
    ensures tables_after { ◌≡◌ {A = Memory} (lent_to fresh ids slots
        id_marks.new
        locations.new
        slot_marks.new
        owners.new
        batch.new
        tallies.new
        carried.new)
        (leaves fresh ids slots
        id_marks.old
        locations.old
        slot_marks.old
        owners.old
        batch.old
        tallies.old
        carried.old) }
{
    let caps = Capacities { ids, slots };
    finished(rebuild::fresh(
        caps, id_marks, locations, slot_marks, owners, batch, tallies, carried,
    ))
}

// A store that holds the rows' ids and slots, and nothing else.
pub fn wentuhoro_rebuild(
    ids: usize,
    slots: usize,
    id_marks: &mut [u8],
    locations: &mut [u64],
    slot_marks: &mut [u8],
    owners: &mut [u64],
    batch: &mut [u64],
    tallies: &mut [u64],
    carried: &mut [u8],
    row_ids: &[u64],
    row_locations: &[u64],
    row_carried: &[u8],
) -> u64
    ensures status { result
        ≡ status_of (outcome_of (answered (rebuild (record { ids = row_ids.now; locations = row_locations.now; carried = row_carried.now }))
        ids slots
        id_marks.old
        locations.old
        slot_marks.old
        owners.old
        batch.old
        tallies.old
        carried.old)) }
    ensures tables_after { ◌≡◌ {A = Memory}
        (lent_to (rebuild (record { ids = row_ids.now; locations = row_locations.now; carried = row_carried.now }))
        ids slots
        id_marks.new
        locations.new
        slot_marks.new
        owners.new
        batch.new
        tallies.new
        carried.new)
        (leaves (rebuild (record { ids = row_ids.now; locations = row_locations.now; carried = row_carried.now }))
        ids slots
        id_marks.old
        locations.old
        slot_marks.old
        owners.old
        batch.old
        tallies.old
        carried.old) }
{
    let caps = Capacities { ids, slots };
    finished(rebuild::rebuild(
        caps,
        id_marks,
        locations,
        slot_marks,
        owners,
        batch,
        tallies,
        carried,
        row_ids,
        row_locations,
        row_carried,
    ))
}
