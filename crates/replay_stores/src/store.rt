// A store: its seven tables, which are all that is carried from line to line, and its capacities, which a line STORE says from there on.
ghost use Rattle.std.specs.Prelude.{◌≤◌};

use crate::columns::{ANY, MOST};
use crate::kinds::{Kind, NoKind};
use address::SlabAddress;
use carried::WIDTH;
use replay_words::file;
use replay_words::line::{Line, Lines};
use replay_words::tally::Tally;
use std::io;
use std::rt::Files;
use tables::{BATCH_WORDS, MOST_UPDATES, TALLY_WORDS};

// The most slots that the 78 slabs of a store have.
const ALL_SLOTS: usize = SlabAddress::SLABS * MOST;

// The most bytes that rows carry: of 512 ids and 256 kept updates.
const MOST_CARRIED: usize = (MOST + MOST_UPDATES) * WIDTH;

// The tables as they are lent to the first call, which has to write every word of them.
const ANY_MARK: u8 = 165;

fn slot_marks() -> [u8; ALL_SLOTS] {
    [ANY_MARK; ALL_SLOTS]
}

fn owners() -> [u64; ALL_SLOTS] {
    [ANY; ALL_SLOTS]
}

fn carried() -> [u8; MOST_CARRIED] {
    [ANY_MARK; MOST_CARRIED]
}

#[derive(Clone, Copy)]
struct Capacities {
    ids: usize,
    slots: usize,
    ghost ids_fit: { ids ≤ 512 },
    ghost slots_fit: { slots ≤ 512 },
}

impl Capacities {
    fn after(self, line: Line) -> Capacities {
        match Kind::try_from(line.kind()) {
            Ok(Kind::Store) => Capacities {
                ids: line.count(3, MOST),
                slots: line.count(4, MOST),
            },
            _ => self,
        }
    }
}

// The tables as they are lent to a call, as long as the capacities say.
//
// A method that writes some tables lends those that its call only reads by `&mut` too: behind one reference the borrow checker has no rule
// for a `&` beside a `&mut`.
#[derive(Drop)]
pub struct Tables<'a> {
    pub ids: usize,
    pub slots: usize,
    pub id_marks: &'a mut [u8],
    pub locations: &'a mut [u64],
    pub slot_marks: &'a mut [u8],
    pub owners: &'a mut [u64],
    pub batch: &'a mut [u64],
    pub tallies: &'a mut [u64],
    pub carried: &'a mut [u8],
}

// Replays a file of histories. The tables are as long as the largest store of the lists needs them.
pub fn replay(rt: &(impl Files + Print + Eprint), name: &[u8]) -> io::Result<()> {
    let mut space = file::space();
    let n = file::load(rt, name, &mut space)?;
    let mut capacities = Capacities { ids: 0, slots: 0 };
    let mut id_marks = [ANY_MARK; MOST];
    let mut locations = [ANY; MOST];
    let mut slot_marks = slot_marks();
    let mut owners = owners();
    let mut batch = [ANY; BATCH_WORDS];
    let mut tallies = [ANY; TALLY_WORDS];
    let mut carried = carried();
    let mut tally = Tally::new();
    for line in (Lines { left: &space[..n] }) {
        capacities = capacities.after(line);
        let Capacities { ids, slots } = capacities;
        let all = slots * SlabAddress::SLABS;
        let rows = (ids + MOST_UPDATES) * WIDTH;
        let mut tables = Tables {
            ids,
            slots,
            id_marks: &mut id_marks[..ids],
            locations: &mut locations[..ids],
            slot_marks: &mut slot_marks[..all],
            owners: &mut owners[..all],
            batch: &mut batch,
            tallies: &mut tallies,
            carried: &mut carried[..rows],
        };
        tally = tally.with_line(rt, name, line, tables.agrees(line))?;
    }
    tally.say(rt, name)?;
    Ok(())
}

impl Tables<'_> {
    // Whether the line agrees with the store, and the call that it says with what it answers.
    fn agrees(&mut self, line: Line) -> bool {
        match Kind::try_from(line.kind()) {
            // Its capacities are taken where the tables are lent.
            Ok(Kind::Store) => true,
            Ok(Kind::Fresh) => self.fresh(line),
            Ok(Kind::Commit) => self.commit(line),
            Ok(Kind::Release) => self.release(line),
            Ok(Kind::Abandon) => self.abandon(line),
            Ok(Kind::Offer) => self.offer(line),
            Ok(Kind::Rebuild) => self.rebuild(line),
            Ok(Kind::NewId) => self.new_id(line),
            Ok(Kind::Truncation) => self.truncation(line),
            Ok(Kind::Report) => self.report(line),
            Ok(Kind::Lookup) => self.lookup(line),
            Ok(Kind::Page) => self.page(line),
            Ok(Kind::Defrag) => self.defrag(line),
            Ok(Kind::Reason) => self.reason(line),
            Ok(Kind::Counters) => self.counters(line),
            Ok(Kind::Counted) => self.counted(line),
            Ok(Kind::SnapshotLength) => self.snapshot_length(line),
            Ok(Kind::SnapshotWrite) => self.snapshot_write(line),
            Ok(Kind::Peek) => self.peek(line),
            Ok(Kind::Poke(table)) => {
                self.poke(table, line);
                true
            }
            Err(NoKind) => false,
        }
    }
}
