// Why an object is to be moved, or is not.
ghost use Rattle.std.specs.Prelude.{◌≡◌, length};
ghost use Rattle.model.specs.Store.{ask, why};
ghost use Rattle.model.specs.Lent.{answered};
ghost use Rattle.model.specs.Outcomes.{outcome_of};
ghost use Rattle.reason.specs.Outcomes.{standing_values, reason_says};
ghost use Rattle.exports_status.specs.Status.{Exported, exported};

use exports_status::{WRONG_LENGTH, status};
use reason::{Reason, Standing};
use tables::Capacities;

fn put(told: &mut [u64], number: u64, standing: Standing, line: usize)
    requires { length told.old ≡ 7 }
    ensures { told.new ≡ standing_values number standing line }
{
    told[0] = number;
    told[1] = standing.slab as u64;
    told[2] = standing.slot as u64;
    told[3] = standing.smaller as u64;
    told[4] = standing.live as u64;
    told[5] = standing.tip as u64;
    told[6] = line as u64;
}

// A reason's number and its values; all are 0 where nothing is stored.
fn put_reason(told: &mut [u64], reason: Reason)
    requires { length told.old ≡ 7 }
    ensures { told.new ≡ reason_says reason }
{
    match reason {
        Reason::NotStored => told.fill(0),
        Reason::FullEnough(standing) => put(told, 1, standing, 0),
        Reason::BeforeLine(standing, line) => put(told, 2, standing, line),
        Reason::Listed(standing, line) => put(told, 3, standing, line),
    }
}

// Why an object is on the defrag list of a ratio, or is not. Seven values: the reason's number (0 no such stored object, 1 its slab is full enough, 2 its
// slot is before the line, 3 listed), slab, slot, how many smaller slots are held or pending, the slab's live slots and tip, and the line. All are 0
// where nothing is stored, and so is the line of a slab that is full enough.
pub fn wentuhoro_reason(
    ids: usize,
    slots: usize,
    id_marks: &[u8],
    locations: &[u64],
    slot_marks: &[u8],
    owners: &[u64],
    batch: &[u64],
    tallies: &[u64],
    id: u64,
    ratio: f32,
    told: &mut [u64],
) -> u64
    ensures { ◌≡◌ {A = Exported} (record { status = result; lent = told.new })
        (exported 7 (outcome_of (answered (ask (why id ratio)) ids slots
        id_marks.now
        locations.now
        slot_marks.now
        owners.now
        batch.now
        tallies.now))
        told.old) }
{
    if told.len() != 7 {
        return WRONG_LENGTH;
    }
    let caps = Capacities { ids, slots };
    match reason::reason_for_object(
        caps, id_marks, locations, slot_marks, owners, batch, tallies, id, ratio,
    ) {
        Ok(reason) => {
            put_reason(told, reason);
            0
        }
        Err(r) => status(r),
    }
}
