// Calls that make a store, offer a batch or end one. Of those with rows word 4 says how many, and a column stands after the other.
use crate::columns::{self, Column, MOST};
use crate::store::Tables;
use replay_words::line::Line;

impl Tables<'_> {
    pub fn fresh(&mut self, line: Line) -> bool {
        let status = exports::wentuhoro_fresh(
            self.ids,
            self.slots,
            self.id_marks,
            self.locations,
            self.slot_marks,
            self.owners,
            self.batch,
            self.tallies,
            self.carried,
        );
        line.says(status, &[])
    }

    // The updates' ids, kinds, lengths, and what they carry, ten words each; then the locations that they are given.
    pub fn offer(&mut self, line: Line) -> bool {
        let n = line.count(4, MOST);
        let from = n as u32;
        let update_ids = Column::said(line, 5, n);
        let are_stores = columns::are_stores(line, 5 + n, n);
        let lengths = Column::said(line, 5 + 2 * from, n);
        let update_carried = columns::carried(line, 5 + 3 * n, n);
        let mut placed = Column::lent(n);
        let status = exports::wentuhoro_offer(
            self.ids,
            self.slots,
            &mut *self.id_marks,
            &mut *self.locations,
            self.slot_marks,
            &mut *self.owners,
            self.batch,
            self.tallies,
            self.carried,
            update_ids.rows(),
            &are_stores[..n],
            lengths.rows(),
            update_carried,
            placed.rows_mut(),
        );
        line.says(status, &[]) && line.holds(5 + 13 * from, placed.rows())
    }

    // The rows' ids, locations, and what they carry.
    pub fn rebuild(&mut self, line: Line) -> bool {
        let n = line.count(4, MOST);
        let row_ids = Column::said(line, 5, n);
        let row_locations = Column::said(line, 5 + n as u32, n);
        let row_carried = columns::carried(line, 5 + 2 * n, n);
        let status = exports::wentuhoro_rebuild(
            self.ids,
            self.slots,
            self.id_marks,
            self.locations,
            self.slot_marks,
            self.owners,
            self.batch,
            self.tallies,
            self.carried,
            row_ids.rows(),
            row_locations.rows(),
            row_carried,
        );
        line.says(status, &[])
    }

    pub fn commit(&mut self, line: Line) -> bool {
        let status = exports::wentuhoro_commit(
            self.ids,
            self.slots,
            self.id_marks,
            self.locations,
            self.slot_marks,
            self.owners,
            self.batch,
            self.tallies,
            self.carried,
        );
        line.says(status, &[])
    }

    pub fn release(&mut self, line: Line) -> bool {
        let status = exports::wentuhoro_release(
            self.ids,
            self.slots,
            self.id_marks,
            self.slot_marks,
            &mut *self.batch,
            self.tallies,
        );
        line.says(status, &[])
    }

    pub fn abandon(&mut self, line: Line) -> bool {
        let status = exports::wentuhoro_abandon(
            self.ids,
            self.slots,
            self.slot_marks,
            self.batch,
            self.tallies,
        );
        line.says(status, &[])
    }
}
