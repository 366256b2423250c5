// Why an object is to be moved, or is not.
ghost use Rattle.std.specs.Prelude.{◌≡◌};
ghost use Rattle.model.specs.Store.{ask, why};
ghost use Rattle.model.specs.Lent.{answered};
ghost use Rattle.model.specs.Outcomes.{outcome_of};
ghost use Rattle.exports_status.specs.Status.{Exported, exported};

// Why an object is on the defrag list of a ratio, or is not. Seven values: the reason's number (0 no such stored object, 1 its slab is full enough, 2 its
// slot is before the line, 3 listed), slab, slot, how many smaller slots are held or pending, the slab's live slots and tip, and the line. All are 0
// where nothing is stored, and so is the line of a slab that is full enough.
#[unsafe(no_mangle)]
pub extern "C" fn wentuhoro_reason(
    ids: usize,
    slots: usize,
    id_marks: &[u8],
    locations: &[u64],
    slot_marks: &[u8],
    owners: &[u64],
    batch: &[u64],
    tallies: &[u64],
    id: u64,
    ratio: f32,
    told: &mut [u64],
) -> u64
    ensures { ◌≡◌ {A = Exported} (record { status = result; lent = told.new })
        (exported 7 (outcome_of (answered (ask (why id ratio)) ids slots
        id_marks.now
        locations.now
        slot_marks.now
        owners.now
        batch.now
        tallies.now))
        told.old) }
{
    exports::wentuhoro_reason(
        ids, slots, id_marks, locations, slot_marks, owners, batch, tallies, id, ratio, told,
    )
}
