// Which row of a rebuild is refused first, and with what (document 01, "Refusal numbers"): per row 8, 9, 3, 16.
//
//     rebuild_rows::first_refused(caps, &ids, &row_locations)?;  // refused with the index of the first row that is
//
// A pass with a mark for each id finds the first row with one of the first three; ten passes with a mark for each slot, a bit of it for
// each of eight slabs, find the first repeated location before it. So no pass is quadratic, and no lent table is touched. The marks, 64 KiB,
// are on the stack of one pass or of the others, never of both.
#![tactic(auto)]

ghost use Rattle.std.specs.Prelude.{◌≡◌, true, false, ◌<◌, ◌≤◌, length, get_or, replicate};
ghost use Rattle.address.specs.Address.{bad_slots, is_location, most_slots};
ghost use Rattle.model.specs.Rebuild.{rows_of};
ghost use Rattle.rebuild_rows.specs.Checks.{wrong_in, first_wrong, rows_before, groups, has_bit, with_bit, repeats_at, marked_by, repeat_in, repeats_from, checked, refused_row};

use address::SlabAddress;
use marks::{FREE, HELD};
use refusal::{Kind, Refusal};
use tables::Capacities;

// One pass serves a group of slabs: as many as a mark has bits.
const GROUP: u64 = 8;

// The top byte of a location is one more than its slab, 1 to 78: by eights 0 to 9.
const GROUPS: u64 = 10;

fn mark_at(marks: &[u8], at: usize) -> u8
    ensures { result ≡ get_or marks.now at 0 }
{
    marks.get(at).copied().unwrap_or(FREE)
}

fn is_location(slots: usize, location: u64) -> bool
    requires { bad_slots slots ≡ false }
    ensures { result ≡ is_location slots location }
{
    matches!(SlabAddress::unpack(slots, location), Ok(Some(_)))
}

// What is wrong with a row by itself, or by the ids before it.
#[tactic(auto, unfolding(crate::specs::Checks::wrong_in))]
fn wrong_in(caps: Capacities, seen: &[u8], id: u64, location: u64) -> Option<Kind>
    requires { bad_slots caps.slots ≡ false }
    ensures { result ≡ wrong_in caps.ids caps.slots seen.now id location }
{
    if !(0 < id && id < caps.ids as u64) {
        return Some(Kind::NoSuchId);
    }
    if mark_at(seen, id as usize) != FREE {
        return Some(Kind::RepeatedId);
    }
    if !is_location(caps.slots, location) {
        return Some(Kind::OutOfRange);
    }
    None
}

fn first_wrong_by(
    caps: Capacities,
    seen: &mut [u8],
    ids: &[u64],
    row_locations: &[u64],
) -> Result<(), Refusal>
    requires { bad_slots caps.slots ≡ false }
    ensures { result
        ≡ first_wrong caps.ids caps.slots seen.old 0 (rows_of ids.now row_locations.now) }
{
    for (i, (id, location)) in ids.iter().zip(row_locations).enumerate() {
        if let Some(kind) = wrong_in(caps, seen, *id, *location) {
            return Err(Refusal::at(kind, i));
        }
        id_allocator::put(seen, *id as usize, HELD);
    }
    Ok(())
}

fn first_wrong(caps: Capacities, ids: &[u64], row_locations: &[u64]) -> Result<(), Refusal>
    requires { bad_slots caps.slots ≡ false }
    ensures { result
        ≡ first_wrong caps.ids caps.slots (replicate 65536 0) 0 (rows_of ids.now row_locations.now) }
{
    let mut seen = [0u8; Capacities::MOST_IDS];
    first_wrong_by(caps, &mut seen, ids, row_locations)
}

fn has_bit(mark: u8, bit: u64) -> bool
    requires { bit < 8 }
    ensures { result ≡ has_bit mark bit }
{
    (mark >> bit) % 2 == 1
}

fn with_bit(mark: u8, bit: u64) -> u8
    requires { bit < 8 }
    ensures { result ≡ with_bit mark bit }
{
    mark | (1 << bit)
}

// Whether a location of this group has the bit of its slab in the mark of its slot; it has it then.
fn repeats(marks: &mut [u8], group: u64, location: u64) -> bool
    ensures { (result ≡ repeats_at group marks.old location)
        × (marks.new ≡ marked_by group marks.old location) }
{
    let top = location / SlabAddress::UNIT;
    if top / GROUP != group {
        return false;
    }
    let slot = (location % SlabAddress::UNIT) as usize;
    let bit = top % GROUP;
    let mark = mark_at(marks, slot);
    id_allocator::put(marks, slot, with_bit(mark, bit));
    has_bit(mark, bit)
}

// The first of these locations that repeats one of this group; as many as there are where there is none.
fn first_in(marks: &mut [u8], group: u64, locations: &[u64]) -> usize
    ensures { result ≡ repeat_in group (replicate (length marks.old) 0) 0 locations.now }
{
    marks.fill(FREE);
    for (i, location) in locations.iter().enumerate() {
        if repeats(marks, group, *location) {
            return i;
        }
    }
    locations.len()
}

fn first_repeat_by(marks: &mut [u8], locations: &[u64]) -> usize
    ensures { result ≡ repeats_from (length marks.old) locations.now groups 0 (length locations.now) }
{
    let mut end = locations.len();
    for group in 0..GROUPS {
        end = first_in(marks, group, &locations[..end]);
    }
    end
}

fn first_repeat(slots: usize, locations: &[u64]) -> usize
    requires { slots ≤ most_slots }
    ensures { result ≡ repeats_from slots locations.now groups 0 (length locations.now) }
{
    let mut marks = [0u8; SlabAddress::MOST_SLOTS];
    first_repeat_by(&mut marks[..slots], locations)
}

// How many rows come before the one that is refused.
fn rows_before(rows: usize, said: Result<(), Refusal>) -> usize
    ensures { result ≡ rows_before rows said }
{
    match said {
        Ok(()) => rows,
        Err(refusal) => refusal.index,
    }
}

// The first of as many ids and locations.
fn first_of(caps: Capacities, ids: &[u64], row_locations: &[u64]) -> Result<(), Refusal>
    requires { (bad_slots caps.slots ≡ false) × (caps.slots ≤ most_slots) × (length row_locations.now ≡ length ids.now) }
    ensures { result ≡ checked caps.ids caps.slots ids.now row_locations.now }
{
    let said = first_wrong(caps, ids, row_locations);
    let end = rows_before(ids.len(), said);
    let repeat = first_repeat(caps.slots, &row_locations[..end]);
    if repeat < end {
        return Err(Refusal::at(Kind::RepeatedLocation, repeat));
    }
    said
}

// The first row that is refused. 1 with index 0 where the slot capacity is out of range or there are more ids than locations, or fewer.
pub fn first_refused(caps: Capacities, ids: &[u64], row_locations: &[u64]) -> Result<(), Refusal>
    ensures { result ≡ refused_row caps.ids caps.slots ids.now row_locations.now }
{
    if address::bad_slots(caps.slots) || row_locations.len() != ids.len() {
        return Err(Refusal::of(Kind::WrongShape));
    }
    first_of(caps, ids, row_locations)
}
