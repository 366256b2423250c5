// The rows of a group's file.
ghost use Rattle.std.specs.Prelude.{◌≡◌, vec_len, IfOk};

use crate::answers::NoAnswer;
use crate::store::MOST_ROWS;
use carried::WIDTH;
use std::alloc::{AllocError, Global};

// Each has an id, a location and what it carries.
#[derive(Drop)]
pub struct Rows {
    pub ids: Vec<u64>,
    pub locations: Vec<u64>,
    pub carried: Vec<u8>,
}

// A word for each row.
fn words(alloc: Global) -> Result<Vec<u64>, AllocError>
    ensures { IfOk result (λ words. 16640 ≡ vec_len words) }
{
    vec![in alloc; 0; MOST_ROWS]
}

impl Rows {
    // 1,597,440 bytes of zeros.
    fn most(alloc: Global) -> Result<Rows, AllocError>
        ensures ids { IfOk result (λ rows. 16640 ≡ vec_len rows.ids) }
        ensures locations { IfOk result (λ rows. 16640 ≡ vec_len rows.locations) }
        ensures carried { IfOk result (λ rows. 1331200 ≡ vec_len rows.carried) }
    {
        Ok(Rows {
            ids: words(alloc)?,
            locations: words(alloc)?,
            carried: vec![in alloc; 0; MOST_ROWS * WIDTH]?,
        })
    }

    fn truncate(&mut self, count: usize) {
        self.ids.truncate(count);
        self.locations.truncate(count);
        self.carried.truncate(count.saturating_mul(WIDTH));
    }

    pub fn of_file(alloc: Global, file: &[u8]) -> Result<Rows, NoAnswer<'static>> {
        let mut rows = Self::most(alloc)?;
        match snapshot_lists::read(file, &mut rows.ids, &mut rows.locations, &mut rows.carried) {
            Ok(count) => {
                rows.truncate(count);
                Ok(rows)
            }
            Err(refusal) => Err(NoAnswer::Block(refusal)),
        }
    }
}
