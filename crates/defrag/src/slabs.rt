// Slab by slab: from the cutoff to the tip.
ghost use Rattle.std.specs.Prelude.{◌≡◌, true, ◌+◌, ◌*◌, ◌<◌, ◌≤◌, length};
ghost use Rattle.std.proofs.lemmas.List.Edits.{sets};
ghost use Rattle.address.specs.Address.{slabs, packed, location_in, most_slots};
ghost use Rattle.fragmentation.specs.Cutoff.{is_ratio};
ghost use Rattle.model.specs.Tables.{ids_of, locations_of};
ghost use Rattle.defrag.specs.Listed.{start_of, span_of, slab_rows, listed_from};

use crate::rows::add_rows;
use address::SlabAddress;
use refusal::Refusal;

// The slots of a slab to look at: from the first on, below the tip.
#[derive(Clone, Copy)]
pub struct Span {
    pub from: usize,
    pub tip: usize,
}

fn start(cutoff: Result<Option<usize>, Refusal>, tip: usize) -> usize
    ensures { result ≡ start_of cutoff tip }
{
    match cutoff {
        Ok(Some(slot)) => slot,
        Ok(None) | Err(_) => tip,
    }
}

// The location of a slab's first slot.
fn first_location(slots: usize, slab: usize) -> u64
    ensures { result ≡ location_in (packed slots (record { slab = slab; slot = 0 })) }
{
    let Ok(address) = SlabAddress::from_slab_slot(slab, 0) else {
        return 0;
    };
    let Ok(location) = address.pack(slots) else {
        return 0;
    };
    location
}

fn looked_at(slots: usize, slot_marks: &[u8], tallies: &[u64], r: f32, slab: usize) -> Span
    requires { (slab < slabs) × (1 ≤ slots) × (slots ≤ most_slots) × (length slot_marks.now ≡ slabs * slots) × (is_ratio r ≡ true) }
    ensures { result ≡ span_of slots slot_marks.now tallies.now r slab }
{
    let base = slab * slots;
    let end = base + slots;
    let hint = tables::get(tallies, tables::HINT, slab + 1) as usize;
    let used = tables::get(tallies, tables::USED, slab + 1);
    let live = id_allocator::live(&slot_marks[base..end], hint);
    let tip = id_allocator::tip(&slot_marks[base..end], hint, used);
    let from = start(fragmentation::fragmentation_cutoff(live, tip, r), tip);
    Span { from, tip }
}

// The rows of one slab, at row n and on.
fn add_slab(
    slots: usize,
    locations: &[u64],
    slot_marks: &[u8],
    owners: &[u64],
    tallies: &[u64],
    r: f32,
    slab: usize,
    moved_ids: &mut [u64],
    moved_locations: &mut [u64],
    n: usize,
) -> usize
    requires { (slab < slabs) × (1 ≤ slots) × (slots ≤ most_slots) × (length slot_marks.now ≡ slabs * slots)
        × (length owners.now ≡ slabs * slots) × (is_ratio r ≡ true) × (n ≤ slab * most_slots) }
    ensures { (result ≡ n + length (slab_rows slots
        locations.now
        slot_marks.now
        owners.now
        tallies.now
        r slab))
        × (moved_ids.new ≡ sets moved_ids.old n (ids_of (slab_rows slots
        locations.now
        slot_marks.now
        owners.now
        tallies.now
        r slab)))
        × (moved_locations.new ≡ sets moved_locations.old n (locations_of (slab_rows slots
        locations.now
        slot_marks.now
        owners.now
        tallies.now
        r slab))) }
{
    let looked = looked_at(slots, slot_marks, tallies, r, slab);
    let base = slab * slots;
    let low = base + looked.from;
    let high = base + looked.tip;
    let first = first_location(slots, slab) + looked.from as u64;
    add_rows(
        locations,
        &owners[low..high],
        first,
        moved_ids,
        moved_locations,
        n,
    )
}

// The rows of all slabs; how many there are.
pub(crate) fn list_all(
    slots: usize,
    locations: &[u64],
    slot_marks: &[u8],
    owners: &[u64],
    tallies: &[u64],
    r: f32,
    moved_ids: &mut [u64],
    moved_locations: &mut [u64],
) -> usize
    requires { (1 ≤ slots) × (slots ≤ most_slots) × (length slot_marks.now ≡ slabs * slots)
        × (length owners.now ≡ slabs * slots) × (is_ratio r ≡ true) }
    ensures { (result ≡ length (listed_from slots
        locations.now
        slot_marks.now
        owners.now
        tallies.now
        r slabs 0))
        × (moved_ids.new ≡ sets moved_ids.old 0 (ids_of (listed_from slots
        locations.now
        slot_marks.now
        owners.now
        tallies.now
        r slabs 0)))
        × (moved_locations.new ≡ sets moved_locations.old 0 (locations_of (listed_from slots
        locations.now
        slot_marks.now
        owners.now
        tallies.now
        r slabs 0))) }
{
    let mut n: usize = 0;
    for slab in 0..SlabAddress::SLABS {
        n = add_slab(
            slots,
            locations,
            slot_marks,
            owners,
            tallies,
            r,
            slab,
            moved_ids,
            moved_locations,
            n,
        );
    }
    n
}
