// Calls that only read: lists of what to move, and counters.
use crate::columns::{ANY, MOST};
use crate::store::Tables;
use replay_words::line::Line;
use replay_words::ratios;
use tables::ALLOCATORS;

impl Tables<'_> {
    // The rows that are to move, in the first rows of two lists. Each has a row for each id above 0.
    pub fn defrag(&self, line: Line) -> bool {
        let mut v = [0; 1];
        let mut moved_ids = [ANY; MOST];
        let mut moved_locations = [ANY; MOST];
        let most = self.ids.saturating_sub(1).min(MOST);
        let status = exports::wentuhoro_defrag(
            self.ids,
            self.slots,
            self.locations,
            self.slot_marks,
            self.owners,
            self.batch,
            self.tallies,
            ratios::ratio(line.word(5)),
            &mut moved_ids[..most],
            &mut moved_locations[..most],
            &mut v,
        );
        let n = line.count(4, MOST);
        line.says(status, &v)
            && line.holds(6, &moved_ids[..n])
            && line.holds(6 + n as u32, &moved_locations[..n])
    }

    pub fn counters(&self, line: Line) -> bool {
        let mut v = [0; 4];
        let status = exports::wentuhoro_stats(self.ids, self.slots, self.tallies, &mut v);
        line.says(status, &v)
    }

    // ALLOCATOR GRANTED FREED: one pair of what the counters before it answered. They are asked again, since nothing has changed them in
    // between.
    pub fn counted(&self, line: Line) -> bool {
        let mut granted = [0; ALLOCATORS];
        let mut freed = [0; ALLOCATORS];
        let status = exports::wentuhoro_counters(
            self.ids,
            self.slots,
            self.tallies,
            &mut granted,
            &mut freed,
        );
        let allocator = line.word(3) as usize;
        status == 0
            && granted.get(allocator).copied() == Some(line.word(4))
            && freed.get(allocator).copied() == Some(line.word(5))
    }
}
