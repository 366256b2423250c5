// Why an object is to be moved, or is not (document 02, 2026-08; document 01, "Defrag and truncation").
//
//     match reason::reason_for_object(caps, &id_marks, &locations, &slot_marks, &owners, &batch, &tallies, id, 0.75) {
//         Ok(Reason::NotStored) => ..,                   // no such stored object: a lookup is refused with 8
//         Ok(Reason::FullEnough(standing)) => ..,        // nothing of its slab is listed
//         Ok(Reason::BeforeLine(standing, line)) => ..,  // its slot is before the line, the first slot that is looked at
//         Ok(Reason::Listed(standing, line)) => ..,      // the defrag list of this ratio has it
//         Err(refusal) => ..,                            // 1, 11, 14; 13, the tables contradict each other
//     }
//
// The standing is the object's slab and slot, how many smaller slots of the slab are held or pending, and the slab's live slots and tip. No table is written.
#![tactic(auto)]

ghost use Rattle.std.specs.Prelude.{◌≡◌, ◌<◌, take};
ghost use Rattle.address.specs.Address.{slabs};
ghost use Rattle.marks.specs.Marks.{count_if, is_taken};
ghost use Rattle.id_allocator.specs.Counted.{hinted};
ghost use Rattle.model.specs.Lent.{answered};
ghost use Rattle.model.specs.Store.{ask, why};
ghost use Rattle.reason.specs.Reasons.{reason_answer};
ghost use Rattle.reason.specs.Read.{object_in, without_address, standing_in, by_line, reason_in};

use address::SlabAddress;
use refusal::{Kind, Refusal};
use tables::Capacities;

#[derive(Clone, Copy)]
pub struct Standing {
    pub slab: usize,
    pub slot: usize,
    pub smaller: usize,
    pub live: usize,
    pub tip: usize,
}

#[derive(Clone, Copy)]
pub enum Reason {
    NotStored,
    FullEnough(Standing),
    BeforeLine(Standing, usize),
    Listed(Standing, usize),
}

// ---- the object of an id

// Zero means no object; any other location without an address contradicts the tables.
fn without_address(location: u64) -> Result<Option<SlabAddress>, Refusal>
    ensures { result ≡ without_address location }
{
    if location == 0 {
        Ok(None)
    } else {
        Err(Refusal::of(Kind::TablesDisagree))
    }
}

// Its address; no object where a lookup is refused with 8.
fn object_of(
    caps: Capacities,
    id_marks: &[u8],
    locations: &[u64],
    slot_marks: &[u8],
    owners: &[u64],
    tallies: &[u64],
    id: u64,
) -> Result<Option<SlabAddress>, Refusal>
    ensures { result
        ≡ object_in caps.ids caps.slots
        id_marks.now
        locations.now
        slot_marks.now
        owners.now
        tallies.now id }
{
    let ids = caps.ids;
    let slots = caps.slots;
    if !tables::held_id(ids, id_marks, tallies, id) {
        return Ok(None);
    }
    let location = tables::get(locations, 0, id as usize);
    let Ok(Some(address)) = SlabAddress::unpack(slots, location) else {
        return without_address(location);
    };
    if !tables::is_owner(slots, slot_marks, owners, tallies, id, address) {
        return Err(Refusal::of(Kind::TablesDisagree));
    }
    Ok(Some(address))
}

// ---- its slab

// The first n marks; all where there are fewer.
fn first(marks: &[u8], n: usize) -> &[u8]
    ensures { result.now ≡ take n marks.now }
{
    if marks.len() <= n {
        return &marks[0..];
    }
    &marks[0..n]
}

// How many of the first n slots are held or pending.
fn taken_below(marks: &[u8], hint: usize, n: usize) -> usize
    ensures { result ≡ count_if is_taken (hinted hint (take n marks.now)) }
{
    id_allocator::live(first(marks, n), hint)
}

#[inline(always)]
fn stands_at(slots: usize, slot_marks: &[u8], tallies: &[u64], address: SlabAddress) -> Standing
    requires { address.slab < slabs }
    ensures { result ≡ standing_in slots slot_marks.now tallies.now address }
{
    let slab = address.slab;
    let slot = address.slot;
    let hint = tables::get(tallies, tables::HINT, slab + 1) as usize;
    let used = tables::get(tallies, tables::USED, slab + 1);
    let marks = tables::slab_marks(slot_marks, slots, slab);
    Standing {
        slab,
        slot,
        smaller: taken_below(marks, hint, slot),
        live: id_allocator::live(marks, hint),
        tip: id_allocator::tip(marks, hint, used),
    }
}

// ---- the reason

fn by_line(standing: Standing, line: usize) -> Reason
    ensures { result ≡ by_line standing line }
{
    if standing.slot < line {
        Reason::BeforeLine(standing, line)
    } else {
        Reason::Listed(standing, line)
    }
}

// Of an object by its slab. It is inlined, and so is `stands_at`: handed over in memory a standing takes a fifth of a call.
#[inline(always)]
fn reason_at(
    slots: usize,
    slot_marks: &[u8],
    tallies: &[u64],
    address: SlabAddress,
    r: f32,
) -> Result<Reason, Refusal>
    requires { address.slab < slabs }
    ensures { result ≡ reason_in slots slot_marks.now tallies.now address r }
{
    let standing = stands_at(slots, slot_marks, tallies, address);
    match fragmentation::fragmentation_cutoff(standing.live, standing.tip, r)? {
        Some(line) => Ok(by_line(standing, line)),
        None => Ok(Reason::FullEnough(standing)),
    }
}

pub fn reason_for_object(
    caps: Capacities,
    id_marks: &[u8],
    locations: &[u64],
    slot_marks: &[u8],
    owners: &[u64],
    batch: &[u64],
    tallies: &[u64],
    id: u64,
    r: f32,
) -> Result<Reason, Refusal>
    ensures { reason_answer result
        ≡ answered (ask (why id r)) caps.ids caps.slots
        id_marks.now
        locations.now
        slot_marks.now
        owners.now
        batch.now
        tallies.now }
{
    if !tables::reason_fits(
        caps,
        id_marks.len(),
        locations.len(),
        slot_marks.len(),
        owners.len(),
        batch.len(),
        tallies.len(),
    ) {
        return Err(Refusal::of(Kind::WrongShape));
    }
    if tables::get(batch, 0, 0) != 0 {
        return Err(Refusal::of(Kind::BatchOpen));
    }
    if fragmentation::bad_ratio(r) {
        return Err(Refusal::of(Kind::RatioOutOfRange));
    }
    match object_of(caps, id_marks, locations, slot_marks, owners, tallies, id)? {
        Some(address) => reason_at(caps.slots, slot_marks, tallies, address, r),
        None => Ok(Reason::NotStored),
    }
}
