// Calls that write a snapshot: how long it is, and its file, of which the line has a check.
use crate::store::Tables;
use replay_words::line::Line;

// The bytes that a snapshot of so many ids takes, and more.
const MOST_BYTES: usize = 32768;

// A block of a snapshot, and its bytes before the check.
const BLOCK: usize = 512;

const BODY: usize = 508;

// The check of ISO 3309 over the blocks' bodies, one after the other. Over whole blocks it would say nothing of the rows, since each block ends in its own.
fn check_of_bodies(file: &[u8]) -> u32 {
    let (blocks, _) = file.as_chunks::<BLOCK>();
    let mut register = 0xFFFF_FFFF;
    for block in blocks {
        register = exports::wentuhoro_crc32_update(register, &block[..BODY]);
    }
    register ^ 0xFFFF_FFFF
}

// Of the file that was written; 0 where none was.
fn check_of(status: u64, file: &[u8]) -> u64 {
    if status == 0 {
        check_of_bodies(file) as u64
    } else {
        0
    }
}

impl Tables<'_> {
    pub fn snapshot_length(&self, line: Line) -> bool {
        let mut v = [0; 1];
        let status = exports::wentuhoro_snapshot_length(
            self.ids,
            self.slots,
            self.id_marks,
            self.locations,
            self.batch,
            self.tallies,
            &mut v,
        );
        line.says(status, &v)
    }

    // The file is lent as long as word 5 says; where it says more than there can be, none is, and the call differs.
    pub fn snapshot_write(&self, line: Line) -> bool {
        let mut space = [0; MOST_BYTES];
        let file = &mut space[..line.count(5, MOST_BYTES)];
        let status = exports::wentuhoro_snapshot_write(
            self.ids,
            self.slots,
            self.id_marks,
            self.locations,
            self.slot_marks,
            self.owners,
            self.batch,
            self.tallies,
            self.carried,
            file,
        );
        line.says(status, &[check_of(status, file)])
    }
}
