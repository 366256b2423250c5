// The store of a file's rows, of 4,361,936 bytes, and what it is asked.
ghost use Rattle.std.specs.Prelude.{◌≡◌, vec_len, IfOk};

use crate::answers::NoAnswer;
use crate::rows::Rows;
use owned_tables::OwnedTables;
use reason::Reason;
use refusal::Refusal;
use snapshot_blocks::BLOCK;
use std::alloc::{AllocError, Global};
use tables::{Capacities, MOST_UPDATES};

const IDS: usize = 16384;

const SLOTS: usize = 4096;

const CAPS: Capacities = Capacities {
    ids: IDS,
    slots: SLOTS,
};

// As many as the tables carry rows: 832 blocks of version 1 have room for so many.
pub const MOST_ROWS: usize = IDS + MOST_UPDATES;

// The snapshot of 16,383 rows.
pub fn longest() -> usize
    ensures { 1677824 ≡ result }
{
    3277 * BLOCK
}

// The tables, and the lengths that the capacities come to.
fn zeroed(alloc: Global) -> Result<OwnedTables, AllocError>
    ensures id_marks { IfOk result (λ tables. 16384 ≡ vec_len tables.id_marks) }
    ensures locations { IfOk result (λ tables. 16384 ≡ vec_len tables.locations) }
    ensures slot_marks { IfOk result (λ tables. 319488 ≡ vec_len tables.slot_marks) }
    ensures owners { IfOk result (λ tables. 319488 ≡ vec_len tables.owners) }
    ensures carried { IfOk result (λ tables. 1331200 ≡ vec_len tables.carried) }
{
    OwnedTables::zeroed(alloc, CAPS)
}

#[derive(Drop)]
pub struct Store(OwnedTables);

impl Store {
    pub fn of_rows(alloc: Global, rows: &Rows) -> Result<Store, NoAnswer<'static>> {
        let mut tables = zeroed(alloc)?;
        match rebuild::rebuild(
            CAPS,
            &mut tables.id_marks,
            &mut tables.locations,
            &mut tables.slot_marks,
            &mut tables.owners,
            &mut tables.batch,
            &mut tables.tallies,
            &mut tables.carried,
            &rows.ids,
            &rows.locations,
            &rows.carried,
        ) {
            Ok(()) => Ok(Store(tables)),
            Err(refusal) => Err(NoAnswer::Row(refusal)),
        }
    }

    pub fn reason(&self, id: u64, ratio: f32) -> Result<Reason, Refusal> {
        reason::reason_for_object(
            self.0.caps,
            &self.0.id_marks,
            &self.0.locations,
            &self.0.slot_marks,
            &self.0.owners,
            &self.0.batch,
            &self.0.tallies,
            id,
            ratio,
        )
    }
}
