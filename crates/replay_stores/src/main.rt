// The oracle's histories of stores, replayed: each file of data/ has stores, one after the other, each made fresh, with the calls made on it
// and what the exported functions have to answer; the calls are made, with the tables carried from call to call, and the answers compared.
// Standard output says for each file what that of `replay` says. A line that speaks of the tables, and does not agree, counts as one that
// differs, as a call does.
//
// data/ and stdout are made by oracle/replay_data. The words of a line are in oracle/answers/README.md.
#![tactic(auto)]

mod allocators;
mod batches;
mod columns;
mod kinds;
mod pages;
mod pokes;
mod reads;
mod reasons;
mod snapshots;
mod store;

use std::io;

fn main(rt: HostRuntime) -> io::Result<()> {
    store::replay(&rt, b"stores.words")?;
    store::replay(&rt, b"files.words")?;
    store::replay(&rt, b"tables.words")
}
