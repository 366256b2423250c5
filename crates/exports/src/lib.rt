// The library's calls for C and Rust: numbers and slices alone. `exports_c` hands them on, each under its name.
//
// One convention. A call answers a status: 0 where it is granted, else the refusal's number plus 256 times its index. Values go to a
// lent slice of exactly as many words, which is as it was on a refusal; a slice of another length is refused with 1, index 0. Two calls refuse
// nothing and answer no status: wentuhoro_crc32 and wentuhoro_crc32_update answer a check and a register.
#![tactic(auto)]

mod batches;
mod leaves;
mod moves_and_cuts;
mod objects;
mod pages;
mod reasons;
mod snapshots;
mod stores;
mod values;

pub use batches::{wentuhoro_abandon, wentuhoro_commit, wentuhoro_offer, wentuhoro_release};
pub use leaves::{
    wentuhoro_class, wentuhoro_cookie_read, wentuhoro_cookie_verify, wentuhoro_cookie_write,
    wentuhoro_crc32, wentuhoro_crc32_update, wentuhoro_fragmentation_cutoff, wentuhoro_frame_read,
    wentuhoro_frame_write, wentuhoro_pack, wentuhoro_slab_sizes, wentuhoro_unpack,
};
pub use moves_and_cuts::{wentuhoro_cut_done, wentuhoro_defrag, wentuhoro_truncation};
pub use objects::{wentuhoro_counters, wentuhoro_lookup, wentuhoro_new_id, wentuhoro_stats};
pub use pages::wentuhoro_lookup_page;
pub use reasons::wentuhoro_reason;
pub use snapshots::{
    wentuhoro_snapshot_length, wentuhoro_snapshot_read, wentuhoro_snapshot_step,
    wentuhoro_snapshot_write,
};
pub use stores::{wentuhoro_fresh, wentuhoro_rebuild};
