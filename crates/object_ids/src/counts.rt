// What each allocator has granted and freed since fresh or rebuild, modulo 2^64, and the four sums of the Rust's `stats`.
ghost use Rattle.std.specs.Prelude.{◌≡◌, ◌+◌, ◌≤◌, length, take, drop};
ghost use Rattle.model.specs.Store.{ask, counters};
ghost use Rattle.model.specs.Tables.{allocators};
ghost use Rattle.model.specs.Ids.{sum};
ghost use Rattle.model.specs.Lent.{answered};
ghost use Rattle.model.specs.Outcomes.{list_in};
ghost use Rattle.object_ids.specs.Counts.{stats_answer, counters_answer, listed};

use crate::IDS;
use refusal::{Kind, Refusal};
use tables::{ALLOCATORS, Capacities};

#[derive(Clone, Copy)]
pub struct AllocatorStats {
    pub objects_allocated: u64,
    pub objects_freed: u64,
    pub heap_slots_allocated: u64,
    pub heap_slots_freed: u64,
}

// The words of a kind, one for each slab, summed modulo 2^64.
fn slots_sum(tallies: &[u64], base: usize) -> u64
    requires { base + allocators ≤ length tallies.now }
    ensures { result ≡ sum (drop 1 (take allocators (drop base tallies.now))) }
{
    let mut total: u64 = 0;
    for slab in (1..ALLOCATORS).rev() {
        total = tables::get(tallies, base, slab).wrapping_add(total);
    }
    total
}

// The four sums: objects are the ids' allocator, heap slots the slabs'.
pub fn stats(caps: Capacities, tallies: &[u64]) -> Result<AllocatorStats, Refusal>
    ensures { stats_answer tallies.now result
        ≡ answered (ask counters) caps.ids caps.slots tallies.now }
{
    if !tables::tallies_fit(caps, tallies.len()) {
        return Err(Refusal::of(Kind::WrongShape));
    }
    Ok(AllocatorStats {
        objects_allocated: tables::get(tallies, tables::GRANTED, IDS),
        objects_freed: tables::get(tallies, tables::FREED, IDS),
        heap_slots_allocated: slots_sum(tallies, tables::GRANTED),
        heap_slots_freed: slots_sum(tallies, tables::FREED),
    })
}

// The words of a kind, copied into a lent list of as many rows.
fn copy_words(tallies: &[u64], base: usize, out: &mut [u64])
    requires { (base + allocators ≤ length tallies.now) × (length out.old ≡ allocators) }
    ensures { out.new ≡ take allocators (drop base tallies.now) }
{
    out.copy_from_slice(&tallies[base..base + ALLOCATORS]);
}

// Each allocator's pair, the ids' first, then the slabs', in two lent lists of ALLOCATORS rows; and the four sums.
pub fn counters(
    caps: Capacities,
    tallies: &[u64],
    granted: &mut [u64],
    freed: &mut [u64],
) -> Result<AllocatorStats, Refusal>
    ensures result_after { counters_answer granted.new freed.new result
        ≡ listed granted.old freed.old
        (answered (ask counters) caps.ids caps.slots tallies.now) }
    ensures granted_after { granted.new
        ≡ list_in 0 (listed granted.old freed.old
        (answered (ask counters) caps.ids caps.slots tallies.now)) granted.old }
    ensures freed_after { freed.new
        ≡ list_in 1 (listed granted.old freed.old
        (answered (ask counters) caps.ids caps.slots tallies.now)) freed.old }
{
    if granted.len() != ALLOCATORS {
        return Err(Refusal::of(Kind::WrongShape));
    }
    if freed.len() != ALLOCATORS {
        return Err(Refusal::of(Kind::WrongShape));
    }
    let stats = stats(caps, tallies)?;
    copy_words(tallies, tables::GRANTED, granted);
    copy_words(tallies, tables::FREED, freed);
    Ok(stats)
}
