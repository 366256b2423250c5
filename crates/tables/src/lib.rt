// The seven tables that a store is lent, and what they say of one id, one slot, one allocator (document 01, "Ids, slots, pending").
//
//     let caps = Capacities { ids: 9, slots: 8 };
//     // id_marks: [u8; 9], locations: [u64; 9], slot_marks: [u8; SlabAddress::SLABS * 8], owners: [u64; SlabAddress::SLABS * 8],
//     // batch: [u64; tables::BATCH_WORDS], tallies: [u64; tables::TALLY_WORDS],
//     // carried: [u8; (9 + tables::MOST_UPDATES) * carried::WIDTH]
//     rebuild::fresh(caps, &mut id_marks, &mut locations, &mut slot_marks, &mut owners, &mut batch, &mut tallies, &mut carried);
//
// Any contents have a meaning; no function here asks anything of its caller.
#![tactic(auto)]

mod capacities;
mod entries;
mod shapes;
mod words;

use address::SlabAddress;
pub use capacities::Capacities;
pub use entries::{bad_location, held_id, is_owner, slab_marks};
pub use shapes::{
    all_fit, all_hold, both, carries, defrag_fits, lookup_fits, new_id_fits, reason_fits,
    release_fits, slab_fits, stored_fits, tallies_fit,
};
pub use words::{add, get, put};

// The ids' allocator, then the slabs'.
pub const ALLOCATORS: usize = SlabAddress::SLABS + 1;

pub const MOST_UPDATES: usize = 256;

// The batch: the opened word (0: none is open; n + 1: one of n updates is), an id for each update, a new location for each.
pub const KEPT_IDS: usize = 1;

pub const KEPT_LOCATIONS: usize = KEPT_IDS + MOST_UPDATES;

pub const BATCH_WORDS: usize = KEPT_LOCATIONS + MOST_UPDATES;

// The tallies: a word of each kind for each allocator, then a high mark for each slab.
pub const GRANTED: usize = 0;

pub const FREED: usize = ALLOCATORS;

pub const USED: usize = 2 * ALLOCATORS;

pub const HINT: usize = 3 * ALLOCATORS;

pub const WAITING: usize = 4 * ALLOCATORS;

pub const HIGH: usize = 5 * ALLOCATORS;

pub const TALLY_WORDS: usize = HIGH + SlabAddress::SLABS;
