// Why an object is moved every night, or is not, for hotline and service staff (request 2026-08): over snapshot files it says a sentence for one id, some ids or
// all.
//
//     why FILE ratio=0.75 id=8 id=9    // of two ids
//     why FILE ratio=0.75              // of each row of the file, in its order
//
// A FILE begins a group: its ratio, and ids, up to the next FILE. A snapshot has the slots that its rows hold, and nothing that is pending.
#![tactic(auto)]

mod answers;
mod ratio;
mod rows;
mod sentences;
mod store;
mod words;

use answers::NoAnswer;
use staff_files::PATH_MAX;
use std::env::Env;
use std::io;
use std::ops::Range;
use std::rt::Files;

// A group, its words by their places: the file, and those behind it.
fn say_group<R: Files + Env + Print + Eprint + AllocGlobal>(
    rt: &R,
    file: usize,
    mut behind: Range<usize>,
) -> io::Result<()> {
    let mut space = [0; PATH_MAX];
    let name = staff_files::word(rt, file, &mut space);
    rt.write_all(name)?;
    println!(rt; ":")?;
    // Where nothing stands behind the file its own name is taken, which is no ratio.
    let place = behind.next().unwrap_or(file);
    let mut space = [0; PATH_MAX];
    let typed = staff_files::word(rt, place, &mut space);
    match answers::answer(rt, name, typed, behind) {
        Ok(()) => Ok(()),
        Err(NoAnswer::Failed(error)) => Err(error),
        Err(NoAnswer::Ratio(error)) => sentences::say_no_ratio(rt, error),
        Err(NoAnswer::Unopened) => println!(rt; "it cannot be read"),
        Err(NoAnswer::Block(refusal)) => sentences::say_block(rt, refusal),
        Err(NoAnswer::Row(refusal)) => sentences::say_row(rt, refusal),
    }
}

fn main(rt: HostRuntime) -> io::Result<()> {
    let count = staff_files::word_count(&rt);
    let mut next = words::next_file(&rt, 1, count);
    if count < 2 || next != 1 {
        println!(rt;
            "why FILE ratio=0.75 [id=8 ..] ..: why objects of snapshot files are to be moved, or are not; without an id, each row's"
        )?;
    }
    for file in 1..count {
        if file == next {
            let behind = file + 1;
            next = words::next_file(&rt, behind, count);
            say_group(&rt, file, behind..next)?;
        }
    }
    Ok(())
}
