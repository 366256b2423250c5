// Release: every id and every slot that is pending becomes free (document 01, "Ids, slots, pending").
//
//     match release::release(caps, &mut id_marks, &mut slot_marks, &batch, &mut tallies) {
//         Ok(()) => ..,
//         Err(refusal) => ..,  // 1, a wrong length or capacity; 11, a batch is open
//     }
//
// An allocator whose waiting word is 0 has nothing pending and is passed over, so that the marks of a slab are only looked at
// where something waits in it.
#![tactic(auto)]

ghost use Rattle.std.specs.Prelude.{◌≡◌, ◌*◌, length};
ghost use Rattle.address.specs.Address.{slabs};
ghost use Rattle.model.specs.Store.{release, finished_answer};
ghost use Rattle.model.specs.Memory.{get_word, hint_words, waiting_words};
ghost use Rattle.model.specs.Lent.{lent_to, answered, leaves};
ghost use Rattle.model.specs.MemoryAfter.{Slots, released_marks, released_words, release_slabs};

use address::SlabAddress;
use refusal::{Kind, Refusal};
use tables::Capacities;

// The ids' allocator is the first of tables::ALLOCATORS; slab k's is k + 1.
const IDS: usize = 0;

// Whether a release is granted, by the tables' lengths and the batch.
fn granted(
    caps: Capacities,
    id_marks: &[u8],
    slot_marks: &[u8],
    batch: &[u64],
    tallies: &[u64],
) -> Result<(), Refusal>
    ensures { finished_answer result
        ≡ answered release caps.ids caps.slots
        id_marks.now
        slot_marks.now
        batch.now
        tallies.now }
{
    if !tables::release_fits(
        caps,
        id_marks.len(),
        slot_marks.len(),
        batch.len(),
        tallies.len(),
    ) {
        return Err(Refusal::of(Kind::WrongShape));
    }
    if tables::get(batch, 0, 0) != 0 {
        return Err(Refusal::of(Kind::BatchOpen));
    }
    Ok(())
}

// What is pending in one allocator becomes free, and is counted.
fn release_allocator(marks: &mut [u8], tallies: &mut [u64], allocator: usize)
    ensures { (marks.new
        ≡ released_marks
        (get_word tallies.old hint_words allocator)
        (get_word tallies.old waiting_words allocator)
        marks.old)
        × (tallies.new
        ≡ released_words tallies.old allocator
        (get_word tallies.old waiting_words allocator)
        marks.old) }
{
    if tables::get(tallies, tables::WAITING, allocator) == 0 {
        return;
    }
    let hint = tables::get(tallies, tables::HINT, allocator) as usize;
    let freed = id_allocator::release(marks, hint);
    tables::add(tallies, tables::FREED, allocator, freed as u64);
    tables::put(tallies, tables::HINT, allocator, 0);
    tables::put(tallies, tables::WAITING, allocator, 0);
}

// The same in each slab.
fn release_slabs(slots: usize, slot_marks: &mut [u8], tallies: &mut [u64])
    requires { length slot_marks.old ≡ slabs * slots }
    ensures { ◌≡◌ {A = Slots} (record { marks = slot_marks.new; words = tallies.new })
        (release_slabs slots slabs 0 (record { marks = slot_marks.old; words = tallies.old })) }
{
    for slab in 0..SlabAddress::SLABS {
        let start = slab * slots;
        let end = start + slots;
        release_allocator(&mut slot_marks[start..end], tallies, slab + 1);
    }
}

// Every pending id and slot becomes free.
pub fn release(
    caps: Capacities,
    id_marks: &mut [u8],
    slot_marks: &mut [u8],
    batch: &[u64],
    tallies: &mut [u64],
) -> Result<(), Refusal>
    ensures result_value { finished_answer result
        ≡ answered release caps.ids caps.slots
        id_marks.old
        slot_marks.old
        batch.now
        tallies.old }
    ensures tallies_after { (lent_to release caps.ids caps.slots
        id_marks.new
        slot_marks.new
        batch.now
        tallies.new)
        ≡ leaves release caps.ids caps.slots
        id_marks.old
        slot_marks.old
        batch.now
        tallies.old }
{
    granted(caps, id_marks, slot_marks, batch, tallies)?;
    release_allocator(id_marks, tallies, IDS);
    release_slabs(caps.slots, slot_marks, tallies);
    Ok(())
}
