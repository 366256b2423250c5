// Offer, commit, abandon and release.
ghost use Rattle.std.specs.Prelude.{◌≡◌};
ghost use Rattle.keys.specs.Keys.{stores_of};
ghost use Rattle.model.specs.Store.{offer, commit, abandon, release};
ghost use Rattle.model.specs.Memory.{Memory};
ghost use Rattle.model.specs.Lent.{lent_to, answered, leaves};
ghost use Rattle.model.specs.Outcomes.{outcome_of, list_in};
ghost use Rattle.exports_status.specs.Status.{status_of};

use exports_status::finished;
use tables::Capacities;

// Takes a slot for each Store of a batch, and keeps what each row is to carry, one row after the other. Of `stores` a byte of 0 is a Free, any other a Store.
// `placed` has as many rows as there are updates: their locations, 0 for a Free.
pub fn wentuhoro_offer(
    ids: usize,
    slots: usize,
    id_marks: &[u8],
    locations: &[u64],
    slot_marks: &mut [u8],
    owners: &[u64],
    batch: &mut [u64],
    tallies: &mut [u64],
    carried: &mut [u8],
    update_ids: &[u64],
    stores: &[u8],
    lengths: &[u64],
    update_carried: &[u8],
    placed: &mut [u64],
) -> u64
    ensures status { result ≡ status_of (outcome_of (answered (offer (record {
      ids = update_ids.now;
      stores = stores_of stores.now;
      lengths = lengths.now;
      carried = update_carried.now;
      placed = placed.old;
    })) ids slots
        id_marks.now
        locations.now
        slot_marks.old
        owners.now
        batch.old
        tallies.old
        carried.old)) }
    ensures tables_after { ◌≡◌ {A = Memory} (lent_to (offer (record {
      ids = update_ids.now;
      stores = stores_of stores.now;
      lengths = lengths.now;
      carried = update_carried.now;
      placed = placed.old;
    })) ids slots
        id_marks.now
        locations.now
        slot_marks.new
        owners.now
        batch.new
        tallies.new
        carried.new)
        (leaves (offer (record {
          ids = update_ids.now;
          stores = stores_of stores.now;
          lengths = lengths.now;
          carried = update_carried.now;
          placed = placed.old;
        })) ids slots
        id_marks.now
        locations.now
        slot_marks.old
        owners.now
        batch.old
        tallies.old
        carried.old) }
    ensures placed_after { placed.new ≡ list_in 0 (answered (offer (record {
      ids = update_ids.now;
      stores = stores_of stores.now;
      lengths = lengths.now;
      carried = update_carried.now;
      placed = placed.old;
    })) ids slots
        id_marks.now
        locations.now
        slot_marks.old
        owners.now
        batch.old
        tallies.old
        carried.old)
        placed.old }
{
    let caps = Capacities { ids, slots };
    finished(offer::offer(
        caps,
        id_marks,
        locations,
        slot_marks,
        owners,
        batch,
        tallies,
        carried,
        update_ids,
        stores,
        lengths,
        update_carried,
        placed,
    ))
}

// The open batch takes effect.
pub fn wentuhoro_commit(
    ids: usize,
    slots: usize,
    id_marks: &mut [u8],
    locations: &mut [u64],
    slot_marks: &mut [u8],
    owners: &mut [u64],
    batch: &mut [u64],
    tallies: &mut [u64],
    carried: &mut [u8],
) -> u64
    ensures status { result ≡ status_of (outcome_of (answered commit ids slots
        id_marks.old
        locations.old
        slot_marks.old
        owners.old
        batch.old
        tallies.old
        carried.old)) }
    ensures tables_after { ◌≡◌ {A = Memory} (lent_to commit ids slots
        id_marks.new
        locations.new
        slot_marks.new
        owners.new
        batch.new
        tallies.new
        carried.new)
        (leaves commit ids slots
        id_marks.old
        locations.old
        slot_marks.old
        owners.old
        batch.old
        tallies.old
        carried.old) }
{
    let caps = Capacities { ids, slots };
    finished(commit::commit(
        caps, id_marks, locations, slot_marks, owners, batch, tallies, carried,
    ))
}

// The open batch is dropped, and the slots that it took are free again.
pub fn wentuhoro_abandon(
    ids: usize,
    slots: usize,
    slot_marks: &mut [u8],
    batch: &mut [u64],
    tallies: &mut [u64],
) -> u64
    ensures status { result ≡ status_of (outcome_of (answered abandon ids slots
        slot_marks.old
        batch.old
        tallies.old)) }
    ensures tables_after { ◌≡◌ {A = Memory} (lent_to abandon ids slots
        slot_marks.new
        batch.new
        tallies.new)
        (leaves abandon ids slots
        slot_marks.old
        batch.old
        tallies.old) }
{
    let caps = Capacities { ids, slots };
    finished(abandon::abandon(caps, slot_marks, batch, tallies))
}

// Every pending id and slot becomes free.
pub fn wentuhoro_release(
    ids: usize,
    slots: usize,
    id_marks: &mut [u8],
    slot_marks: &mut [u8],
    batch: &[u64],
    tallies: &mut [u64],
) -> u64
    ensures status { result ≡ status_of (outcome_of (answered release ids slots
        id_marks.old
        slot_marks.old
        batch.now
        tallies.old)) }
    ensures tables_after { ◌≡◌ {A = Memory} (lent_to release ids slots
        id_marks.new
        slot_marks.new
        batch.now
        tallies.new)
        (leaves release ids slots
        id_marks.old
        slot_marks.old
        batch.now
        tallies.old) }
{
    let caps = Capacities { ids, slots };
    finished(release::release(caps, id_marks, slot_marks, batch, tallies))
}
