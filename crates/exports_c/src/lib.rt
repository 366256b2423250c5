// The calls of `exports` for C and Rust, one symbol each, with the same clauses: libexports_c.a, which is handed on as libexports.a.
#![tactic(auto)]

mod batches;
mod leaves;
mod moves_and_cuts;
mod objects;
mod pages;
mod reasons;
mod snapshots;
mod stores;

pub use batches::{wentuhoro_abandon, wentuhoro_commit, wentuhoro_offer, wentuhoro_release};
pub use leaves::{
    wentuhoro_class, wentuhoro_cookie_read, wentuhoro_cookie_verify, wentuhoro_cookie_write,
    wentuhoro_crc32, wentuhoro_crc32_update, wentuhoro_fragmentation_cutoff, wentuhoro_frame_read,
    wentuhoro_frame_write, wentuhoro_pack, wentuhoro_slab_sizes, wentuhoro_unpack,
};
pub use moves_and_cuts::{wentuhoro_cut_done, wentuhoro_defrag, wentuhoro_truncation};
pub use objects::{wentuhoro_counters, wentuhoro_lookup, wentuhoro_new_id, wentuhoro_stats};
pub use pages::wentuhoro_lookup_page;
pub use reasons::wentuhoro_reason;
pub use snapshots::{
    wentuhoro_snapshot_length, wentuhoro_snapshot_read, wentuhoro_snapshot_step,
    wentuhoro_snapshot_write,
};
pub use stores::{wentuhoro_fresh, wentuhoro_rebuild};
