// The oracle's answers, replayed: each line of data/ says a call and what the exported function has to answer; the call is made and the
// answer compared. Standard output has a line for each file: the calls compared, how many of those answers are the Rust's, and how many
// differ, of which the first few are named by their line in the readable list. A line of no kind counts as one that differs.
//
// oracle/replay_data makes data/ of oracle/answers/*.txt, and stdout by counting there. The words of a line are in oracle/answers/README.md.
#![tactic(auto)]

mod kinds;
mod numbers;
mod said;
mod slots;
mod snapshots;

use replay_words::file;
use replay_words::line::Lines;
use replay_words::tally::Tally;
use std::io;
use std::rt::Files;

// As replay_stores' own: one that both share would ask that the closure for a line may be called, and no public function asks anything.
fn replay(rt: &(impl Files + Print + Eprint), name: &[u8]) -> io::Result<()> {
    let mut space = file::space();
    let n = file::load(rt, name, &mut space)?;
    let mut tally = Tally::new();
    for line in (Lines { left: &space[..n] }) {
        tally = tally.with_line(rt, name, line, kinds::agrees(line))?;
    }
    tally.say(rt, name)?;
    Ok(())
}

fn main(rt: HostRuntime) -> io::Result<()> {
    replay(&rt, b"leaves.words")?;
    replay(&rt, b"cutoffs.words")?;
    replay(&rt, b"snapshots.words")
}
