// Lookups of one id, and of a page of as many as word 4 says. Of a page's rows the line has the locations, and of its numbers and of what
// rows carry the checks.
use crate::columns::{self, Column, MOST};
use crate::store::Tables;
use carried::WIDTH;
use replay_words::line::Line;

// What is lent for the answer, as columns::ANY.
const ANY: u8 = 165;

fn rows() -> [u8; MOST * WIDTH] {
    [ANY; MOST * WIDTH]
}

impl Tables<'_> {
    pub fn lookup(&self, line: Line) -> bool {
        let mut v = [0; 1];
        let mut row = [0; WIDTH];
        let status = exports::wentuhoro_lookup(
            self.ids,
            self.slots,
            self.id_marks,
            self.locations,
            self.slot_marks,
            self.owners,
            self.tallies,
            self.carried,
            line.word(6),
            &mut v,
            &mut row,
        );
        line.says(status, &[v[0], columns::check(&row)])
    }

    pub fn page(&self, line: Line) -> bool {
        let n = line.count(4, MOST);
        let asked = Column::said(line, 5, n);
        let mut numbers = [ANY; MOST];
        let mut found = Column::lent(n);
        let mut rows = rows();
        let status = exports::wentuhoro_lookup_page(
            self.ids,
            self.slots,
            self.id_marks,
            self.locations,
            self.slot_marks,
            self.owners,
            self.tallies,
            self.carried,
            asked.rows(),
            &mut numbers[..n],
            found.rows_mut(),
            &mut rows[..n * WIDTH],
        );
        line.says(status, &[])
            && line.holds(5 + n as u32, found.rows())
            && line.word(5 + 2 * n) == columns::check(&numbers[..n])
            && line.word(6 + 2 * n) == columns::check(&rows[..n * WIDTH])
    }
}
