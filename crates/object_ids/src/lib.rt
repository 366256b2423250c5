// New object ids, and what the allocators have granted and freed (document 01, "Ids, slots, pending").
//
//     match object_ids::allocate_object_id(caps, &mut id_marks, &batch, &mut tallies) {
//         Ok(id) => ..,        // the smallest free number above 0, held from now on
//         Err(refusal) => ..,  // 1, a wrong length or capacity; 11, a batch is open; 10, none is free
//     }
//     let Ok(stats) = object_ids::stats(caps, &tallies) else { .. };
//
// A search starts at the hint, so that ids given out one after the other cost the same at every capacity.
#![tactic(auto)]

mod counts;
mod new_id;

pub use counts::{AllocatorStats, counters, stats};
pub use new_id::allocate_object_id;

// The ids' allocator is the first of tables::ALLOCATORS.
const IDS: usize = 0;
