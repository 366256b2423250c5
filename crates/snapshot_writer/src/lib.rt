// A snapshot of the store's live rows (requests 2026-01 and 2026-06), of version 2: how long its file is, and its bytes, written into a lent file of just
// that length.
//
//     match snapshot_writer::snapshot_length(caps, &id_marks, &locations, &batch, &tallies) {
//         Ok(n) => ..,           // 512 for each 5 rows begun, and 512 for none
//         Err(refusal) => ..,   // 1; 11, a batch is open
//     }
//     match snapshot_writer::snapshot_write(caps, &id_marks, &locations, &slot_marks, &owners, &batch, &tallies, &carried, &mut file) {
//         Ok(()) => ..,
//         Err(refusal) => ..,   // 1; 11; 13 with the row's index; the file is as it was
//     }
//
// A row is a held id above 0 with a location; rows stand in the order of their ids. The ids are passed over three times: for the count,
// for the check of locations, and for the blocks, of which each gathers its ids and is written from the tables at once.
#![tactic(auto)]

ghost use Rattle.std.specs.Prelude.{cond, ◌&&◌, ◌≡◌, map, ◌+◌, ◌-◌, ◌*◌, ◌/◌, ◌≤◌, ◌<◌, length, take, drop};
ghost use Rattle.snapshot_blocks.specs.Formats.{version2};
ghost use Rattle.snapshot_blocks.specs.Blocks.{entry_for};
ghost use Rattle.snapshot_blocks.specs.Files.{file_of, file_length};
ghost use Rattle.model.specs.Snapshots.{snapshot_rows};
ghost use Rattle.model.specs.Store.{ask, snapshot_length};
ghost use Rattle.model.specs.Verdict.{judged_verdict};
ghost use Rattle.model.specs.Lending.{every_table};
ghost use Rattle.model.specs.Lent.{answered, lent_by};
ghost use Rattle.snapshot_writer.specs.Outcome.{measured_answer, written_answer, Left, snapshot_leaves};
ghost use Rattle.snapshot_writer.specs.Writer.{not_own, block_put, has_row, rows_after, every_row};

use refusal::{Kind, Refusal};
use snapshot_blocks::{BLOCK, PER_BLOCK};
use tables::{Capacities, get};

// The ids of a block's rows: how many there are in the lent list, and where the search for the next ones goes on.
#[derive(Clone, Copy)]
struct Gathered {
    count: usize,
    next: usize,
}

// The lent tables that say which ids have a row.
#[derive(Clone, Copy)]
struct Stored<'a> {
    ids: usize,
    id_marks: &'a [u8],
    locations: &'a [u64],
    tallies: &'a [u64],
}

// One more where there is a row.
fn after(n: usize, stored: bool) -> usize
    requires { n < 65536 }
    ensures { result ≡ n + cond stored 1 0 }
{
    if stored { n + 1 } else { n }
}

// How many full blocks come before the last.
fn full_blocks(rows: usize) -> usize
    ensures { result ≡ (rows - 1) / 5 }
{
    rows.saturating_sub(1) / PER_BLOCK
}

fn file_length(rows: usize) -> usize
    requires { rows ≤ 65536 }
    ensures { result ≡ file_length version2 rows }
{
    BLOCK * (full_blocks(rows) + 1)
}

// The length of the file, 512 bytes for each block.
pub fn snapshot_length(
    caps: Capacities,
    id_marks: &[u8],
    locations: &[u64],
    batch: &[u64],
    tallies: &[u64],
) -> Result<usize, Refusal>
    ensures { measured_answer result
        ≡ answered (ask snapshot_length) caps.ids caps.slots
        id_marks.now
        locations.now
        batch.now
        tallies.now }
{
    if !tables::stored_fits(
        caps,
        id_marks.len(),
        locations.len(),
        batch.len(),
        tallies.len(),
    ) {
        return Err(Refusal::of(Kind::WrongShape));
    }
    if get(batch, 0, 0) != 0 {
        return Err(Refusal::of(Kind::BatchOpen));
    }
    let stored = Stored {
        ids: caps.ids,
        id_marks,
        locations,
        tallies,
    };
    let rows = stored.count();
    Ok(file_length(rows))
}

impl Stored<'_> {
    // Whether an id has a row.
    fn has(self, id: usize) -> bool
        ensures { result ≡ has_row self.entry id }
    {
        get(self.locations, 0, id) != 0
            && tables::held_id(self.ids, self.id_marks, self.tallies, id as u64)
    }

    // How many ids have a row. Inlined, so that LLVM knows the tables' lengths in the loop: without, a length takes 1.8 times as long.
    #[inline(always)]
    fn count(self) -> usize
        requires { self.ids ≤ 65536 }
        ensures { result ≡ length (every_row self.entry) }
    {
        let mut n = 0;
        for i in 0..self.ids {
            n = after(n, self.has(i));
        }
        n
    }

    // ---- refusal 13

    // Whether an id has a row, as `stored` says, and a location that cannot be its own.
    fn bad_row(
        self,
        stored: bool,
        slots: usize,
        slot_marks: &[u8],
        owners: &[u64],
        id: usize,
    ) -> bool
        ensures { result ≡ (stored && not_own slots self.entry.locations.now slot_marks.now owners.now self.entry.tallies.now id) }
    {
        stored
            && tables::bad_location(
                slots,
                slot_marks,
                owners,
                self.tallies,
                id as u64,
                get(self.locations, 0, id),
            )
    }

    // The first row whose location is bad, by its index among the rows.
    fn first_bad(self, slots: usize, slot_marks: &[u8], owners: &[u64]) -> Result<(), Refusal>
        requires { self.ids ≤ 65536 }
        ensures { judged_verdict result
            ≡ snapshot_rows (not_own slots self.entry.locations.now slot_marks.now owners.now self.entry.tallies.now) 0
            (every_row self.entry) }
    {
        let mut row = 0;
        for i in 0..self.ids {
            let stored = self.has(i);
            if self.bad_row(stored, slots, slot_marks, owners, i) {
                return Err(Refusal::at(Kind::TablesDisagree, row));
            }
            row = after(row, stored);
        }
        Ok(())
    }

    // ---- writing

    // The ids of the next rows, as many as a block takes, from id `from` on. Each id is stored, and counted only where it has a row: so no
    // branch waits for a mark. A `while`, since the caller goes on where it stopped.
    fn gather(self, from: usize, list: &mut [u64]) -> Gathered
        requires { (length list.old ≡ 5) × ((self.ids ≤ 65536) × (from ≤ self.ids)) }
        ensures { ((result.count ≤ 5) × (result.next ≤ self.entry.ids))
            × ((take result.count list.new ≡ take 5 (rows_after self.entry from))
            × (rows_after self.entry result.next ≡ drop 5 (rows_after self.entry from))) }
    {
        let mut n = 0;
        let mut i = from;
        while i < self.ids && n < PER_BLOCK {
            let stored = self.has(i);
            list[n] = i as u64;
            n = after(n, stored);
            i += 1;
        }
        Gathered { count: n, next: i }
    }

    // Writes the block at `number`: the next rows from id `from` on. The answer is where the rows after them start.
    fn put_block(self, carried: &[u8], number: usize, from: usize, file: &mut [u8]) -> usize
        requires { ((self.ids ≤ 65536) × (from ≤ self.ids))
            × (((length self.locations.now ≡ self.ids) × (self.ids * 80 ≤ length carried.now))
            × ((number ≤ 65536) × (512 * number + 512 ≤ length file.old))) }
        ensures { (result ≤ self.entry.ids)
            × ((rows_after self.entry result ≡ drop 5 (rows_after self.entry from))
            × (file.new
            ≡ block_put number
            (map (entry_for 80 self.entry.locations.now carried.now) (take 5 (rows_after self.entry from)))
            file.old)) }
    {
        let mut list = [0u64; PER_BLOCK];
        let found = self.gather(from, &mut list);
        let count = found.count;
        let at = BLOCK * number;
        let past = at + BLOCK;
        snapshot_blocks::write(
            number as u64,
            &list[..count],
            self.locations,
            carried,
            &mut file[at..past],
        );
        found.next
    }

    // Writes all blocks of a file of so many rows.
    fn put_blocks(self, carried: &[u8], rows: usize, file: &mut [u8])
        requires { ((self.ids ≤ 65536) × (rows ≡ length (every_row self)))
            × (((length self.locations.now ≡ self.ids) × (self.ids * 80 ≤ length carried.now))
            × (length file.old ≡ file_length version2 rows)) }
        ensures { file.new
            ≡ file_of version2
            (map (entry_for 80 self.entry.locations.now carried.now) (every_row self.entry)) }
    {
        let last = full_blocks(rows);
        let mut from = 0;
        for k in 0..last {
            from = self.put_block(carried, k, from, file);
        }
        self.put_block(carried, last, from, file);
    }
}

// The refusals in their order; then the blocks are written.
pub fn snapshot_write(
    caps: Capacities,
    id_marks: &[u8],
    locations: &[u64],
    slot_marks: &[u8],
    owners: &[u64],
    batch: &[u64],
    tallies: &[u64],
    carried: &[u8],
    file: &mut [u8],
) -> Result<(), Refusal>
    ensures { ◌≡◌ {A = Left} (record { answer = written_answer result file.new; file = file.new })
        (snapshot_leaves
        (lent_by every_table caps.ids caps.slots
        id_marks.now
        locations.now
        slot_marks.now
        owners.now
        batch.now
        tallies.now
        carried.now)
        file.old) }
{
    if !tables::all_fit(
        caps,
        id_marks.len(),
        locations.len(),
        slot_marks.len(),
        owners.len(),
        batch.len(),
        tallies.len(),
        carried.len(),
    ) {
        return Err(Refusal::of(Kind::WrongShape));
    }
    let stored = Stored {
        ids: caps.ids,
        id_marks,
        locations,
        tallies,
    };
    let rows = stored.count();
    if file.len() != file_length(rows) {
        return Err(Refusal::of(Kind::WrongShape));
    }
    if get(batch, 0, 0) != 0 {
        return Err(Refusal::of(Kind::BatchOpen));
    }
    stored.first_bad(caps.slots, slot_marks, owners)?;
    stored.put_blocks(carried, rows, file);
    Ok(())
}
