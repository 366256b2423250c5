// Why an object is to move, or is not: of the id in word 11, by the ratio in word 12. The seven values stand before them.
use crate::columns::ANY;
use crate::store::Tables;
use replay_words::line::Line;
use replay_words::ratios;

impl Tables<'_> {
    pub fn reason(&self, line: Line) -> bool {
        let mut told = [ANY; 7];
        let status = exports::wentuhoro_reason(
            self.ids,
            self.slots,
            self.id_marks,
            self.locations,
            self.slot_marks,
            self.owners,
            self.batch,
            self.tallies,
            line.word(11),
            ratios::ratio(line.word(12)),
            &mut told,
        );
        line.says(status, &told)
    }
}
