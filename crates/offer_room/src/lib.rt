// Room in the slabs (document 01, "Ids, slots, pending"): refusal 10 names the lowest slab that is asked for more slots than it has free.
//
//     let asked = offer_room::tally(&[0, 0, 9]);  // two slots of slab 0, one of slab 9; SlabAddress::SLABS and above ask for none
//     match offer_room::room(slots, &slot_marks, &tallies, &asked) {
//         Ok(()) => ..,
//         Err(refusal) => ..,  // its index is the slab's
//     }
//
// Whether a slab has slots enough is told by the searches that would take them where few are asked for, else by a count that ends when
// there are enough.
#![tactic(auto)]

ghost use Rattle.std.specs.Prelude.{◌≡◌, ◌≤◌, ltb};
ghost use Rattle.address.specs.Address.{slabs};
ghost use Rattle.marks.specs.Marks.{is_free, count_if};
ghost use Rattle.id_allocator.specs.Counted.{hinted};
ghost use Rattle.model.specs.Verdict.{judged_verdict};
ghost use Rattle.offer_room.specs.Room.{free_in, tallied, none_asked, room_in_all};

use address::SlabAddress;
use marks::FREE;
use refusal::{Kind, Refusal};
use tables::{HINT, add, get, slab_marks};

// How many updates ask for a slot of each slab.
pub fn tally(slabs: &[usize]) -> [u64; SlabAddress::SLABS]
    ensures { result ≡ tallied none_asked slabs.now }
{
    let mut asked = [0u64; SlabAddress::SLABS];
    for slab in slabs {
        add(&mut asked, 0, *slab, 1);
    }
    asked
}

// Whether fewer than `asked` are free. Each search finds one more.
fn lacks_few(marks: &[u8], hint: usize, asked: u64) -> bool
    ensures { result ≡ ltb (count_if is_free (hinted hint marks.now)) asked }
{
    let mut from: usize = 0;
    for _ in 0..asked {
        let at = id_allocator::smallest_free(marks, hint, from);
        if marks.len() <= at {
            return true;
        }
        from = at + 1;
    }
    false
}

// How many are free.
fn free_in(marks: &[u8]) -> usize
    ensures { result ≡ count_if is_free marks.now }
{
    marks::count(marks, FREE)
}

// As many marks as are counted before it is asked whether that is enough.
const STRETCH: usize = 1536;

// The same, of marks that count as they are, by counting until there are enough.
fn lacks_many(marks: &[u8], asked: u64) -> bool
    ensures { result ≡ ltb (count_if is_free marks.now) asked }
{
    let mut free: usize = 0;
    let mut left = marks;
    while let Some((stretch, rest)) = left.split_first_chunk::<STRETCH>() {
        free += free_in(stretch);
        if asked <= free as u64 {
            return false;
        }
        left = rest;
    }
    free += free_in(left);
    (free as u64) < asked
}

// From so many on it is quicker to count.
const MANY: u64 = 16;

// The same, of few or many.
fn lacks(marks: &[u8], hint: usize, asked: u64) -> bool
    ensures { result ≡ ltb (count_if is_free (hinted hint marks.now)) asked }
{
    if asked < MANY {
        return lacks_few(marks, hint, asked);
    }
    if marks.len() <= hint {
        return true;
    }
    lacks_many(&marks[hint..], asked)
}

fn slab_lacks(slots: usize, slot_marks: &[u8], tallies: &[u64], slab: usize, asked: u64) -> bool
    requires { slab ≤ slabs }
    ensures { result ≡ ltb (free_in slots slot_marks.now tallies.now slab) asked }
{
    if asked == 0 {
        return false;
    }
    let hint = get(tallies, HINT, slab + 1) as usize;
    lacks(slab_marks(slot_marks, slots, slab), hint, asked)
}

pub fn room(slots: usize, slot_marks: &[u8], tallies: &[u64], asked: &[u64]) -> Result<(), Refusal>
    ensures { judged_verdict result ≡ room_in_all slots slot_marks.now tallies.now asked.now }
{
    for slab in 0..SlabAddress::SLABS {
        if slab_lacks(slots, slot_marks, tallies, slab, get(asked, 0, slab)) {
            return Err(Refusal::at(Kind::NoneFree, slab));
        }
    }
    Ok(())
}
