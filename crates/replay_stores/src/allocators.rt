// Calls on marks alone: a new id, and what is asked of a slab's file.
use crate::store::Tables;
use replay_words::line::Line;

impl Tables<'_> {
    pub fn new_id(&mut self, line: Line) -> bool {
        let mut v = [0; 1];
        let status = exports::wentuhoro_new_id(
            self.ids,
            self.slots,
            self.id_marks,
            &mut *self.batch,
            self.tallies,
            &mut v,
        );
        line.says(status, &v)
    }

    pub fn truncation(&mut self, line: Line) -> bool {
        let mut v = [0; 3];
        let status = exports::wentuhoro_truncation(
            self.ids,
            self.slots,
            &mut *self.slot_marks,
            &mut *self.batch,
            self.tallies,
            line.word(7),
            line.word(8),
            &mut v,
        );
        line.says(status, &v)
    }

    pub fn report(&mut self, line: Line) -> bool {
        let status = exports::wentuhoro_cut_done(
            self.ids,
            self.slots,
            &mut *self.slot_marks,
            &mut *self.batch,
            self.tallies,
            line.word(4),
            line.word(5),
        );
        line.says(status, &[])
    }
}
