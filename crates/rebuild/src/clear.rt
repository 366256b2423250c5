// All seven tables of a store as zeros.
ghost use Rattle.std.specs.Prelude.{◌≡◌, length, replicate};

pub(crate) fn all(
    id_marks: &mut [u8],
    locations: &mut [u64],
    slot_marks: &mut [u8],
    owners: &mut [u64],
    batch: &mut [u64],
    tallies: &mut [u64],
    carried: &mut [u8],
)
    ensures { (id_marks.new ≡ replicate (length id_marks.old) 0)
        × (locations.new ≡ replicate (length locations.old) 0)
        × (slot_marks.new ≡ replicate (length slot_marks.old) 0)
        × (owners.new ≡ replicate (length owners.old) 0)
        × (batch.new ≡ replicate (length batch.old) 0)
        × (tallies.new ≡ replicate (length tallies.old) 0)
        × (carried.new ≡ replicate (length carried.old) 0) }
{
    id_marks.fill(0);
    locations.fill(0);
    slot_marks.fill(0);
    owners.fill(0);
    batch.fill(0);
    tallies.fill(0);
    carried.fill(0);
}
