// A new object id: the smallest free number above 0. The first one holds 0 as well, which is never given out.
ghost use Rattle.std.specs.Prelude.{◌≡◌, ◌<◌, length, set, slice_index_or, slice_set};
ghost use Rattle.marks.specs.Marks.{hold};
ghost use Rattle.model.specs.Store.{new_id};
ghost use Rattle.model.specs.Memory.{get_word, hint_words};
ghost use Rattle.model.specs.Lent.{lent_to, answered, leaves};
ghost use Rattle.model.specs.MemoryAfter.{new_id_words};
ghost use Rattle.object_ids.specs.NewIds.{new_id_answer, takes};

use crate::IDS;
use refusal::{Kind, Refusal};
use tables::Capacities;

// The id that is next, or why there is none.
fn next_id(
    caps: Capacities,
    id_marks: &[u8],
    batch: &[u64],
    tallies: &[u64],
) -> Result<u64, Refusal>
    ensures { new_id_answer result
        ≡ answered new_id caps.ids caps.slots
        id_marks.now
        batch.now
        tallies.now }
{
    if !tables::new_id_fits(caps, id_marks.len(), batch.len(), tallies.len()) {
        return Err(Refusal::of(Kind::WrongShape));
    }
    if tables::get(batch, 0, 0) != 0 {
        return Err(Refusal::of(Kind::BatchOpen));
    }
    let hint = tables::get(tallies, tables::HINT, IDS) as usize;
    let id = id_allocator::smallest_free(id_marks, hint, 1);
    if caps.ids <= id {
        return Err(Refusal::of(Kind::NoneFree));
    }
    Ok(id as u64)
}

// A mark, held if it was free.
#[tactic(auto, using(id_allocator::proofs::LawsHinted::hold_busy))]
fn held(mark: u8) -> u8
    ensures { result ≡ hold mark }
{
    if mark == marks::FREE {
        marks::HELD
    } else {
        mark
    }
}

// How many numbers a new id takes: 0 as well where it is free, which a 0 below the hint is not.
fn numbers_taken(mark: u8, hint: u64) -> u64
    ensures { result ≡ takes mark hint }
{
    if mark != marks::FREE {
        return 1;
    }
    if hint == 0 { 2 } else { 1 }
}

// The id is held, and number 0; both are counted.
fn hold_id(id_marks: &mut [u8], tallies: &mut [u64], id: usize)
    requires { (0 < length id_marks.old) × (id < 65536) }
    ensures { (id_marks.new ≡ slice_set (set id_marks.old id 1) 0 (hold (slice_index_or id_marks.old 0 0)))
        × (tallies.new
        ≡ new_id_words tallies.old id
        (takes (slice_index_or id_marks.old 0 0) (get_word tallies.old hint_words 0))) }
{
    let first = id_marks[0];
    let hint = tables::get(tallies, tables::HINT, IDS);
    id_allocator::put(id_marks, id, marks::HELD);
    id_allocator::put(id_marks, 0, held(first));
    tables::add(tallies, tables::GRANTED, IDS, numbers_taken(first, hint));
    tables::put(tallies, tables::USED, IDS, 1);
    tables::put(tallies, tables::HINT, IDS, id as u64 + 1);
}

// The smallest free number above 0, held from now on.
pub fn allocate_object_id(
    caps: Capacities,
    id_marks: &mut [u8],
    batch: &[u64],
    tallies: &mut [u64],
) -> Result<u64, Refusal>
    ensures result_value { new_id_answer result
        ≡ answered new_id caps.ids caps.slots
        id_marks.old
        batch.now
        tallies.old }
    ensures tallies_after { (lent_to new_id caps.ids caps.slots
        id_marks.new
        batch.now
        tallies.new)
        ≡ leaves new_id caps.ids caps.slots
        id_marks.old
        batch.now
        tallies.old }
{
    let id = next_id(caps, id_marks, batch, tallies)?;
    hold_id(id_marks, tallies, id as usize);
    Ok(id)
}
