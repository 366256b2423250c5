// The seven tables of a store in memory of their own, for programs: the library has no heap, and is lent each table.
//
//     let mut tables = OwnedTables::zeroed(rt.alloc(), Capacities { ids: 9, slots: 8 })?;
#![tactic(auto)]

ghost use Rattle.std.specs.Prelude.{◌≡◌, IfOk};
ghost use Rattle.owned_tables.specs.Owned.{HasLengths};

use address::SlabAddress;
use carried::WIDTH;
use std::alloc::{AllocError, Global};
use tables::{BATCH_WORDS, Capacities, MOST_UPDATES, TALLY_WORDS};

#[derive(Drop)]
pub struct OwnedTables {
    pub caps: Capacities,
    pub id_marks: Vec<u8>,
    pub locations: Vec<u64>,
    pub slot_marks: Vec<u8>,
    pub owners: Vec<u64>,
    pub batch: Vec<u64>,
    pub tallies: Vec<u64>,
    pub carried: Vec<u8>,
}

impl OwnedTables {
    // As long as a store of these capacities has them.
    pub fn zeroed(alloc: Global, caps: Capacities) -> Result<OwnedTables, AllocError>
        ensures caps { IfOk result (λ tables. tables.caps ≡ caps) }
        ensures lengths { IfOk result (λ tables. HasLengths caps tables) }
    {
        let all_slots = caps.slots.saturating_mul(SlabAddress::SLABS);
        let rows = caps.ids.saturating_add(MOST_UPDATES);
        Ok(OwnedTables {
            caps,
            id_marks: vec![in alloc; 0; caps.ids]?,
            locations: vec![in alloc; 0; caps.ids]?,
            slot_marks: vec![in alloc; 0; all_slots]?,
            owners: vec![in alloc; 0; all_slots]?,
            batch: vec![in alloc; 0; BATCH_WORDS]?,
            tallies: vec![in alloc; 0; TALLY_WORDS]?,
            carried: vec![in alloc; 0; rows.saturating_mul(WIDTH)]?,
        })
    }
}

#[cfg(test)]
mod tests {
    use super::*;
    use std::test::Fail;

    #[test]
    fn there_is_memory(rt: HostRuntime) -> Result<(), Fail> {
        let tables = OwnedTables::zeroed(rt.alloc(), Capacities { ids: 9, slots: 8 })?;
        assert_eq!(rt; tables.locations.len(), 9);
        assert_eq!(rt; tables.owners.len(), 624);
        Ok(())
    }
}
