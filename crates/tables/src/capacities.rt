// How many ids there are, and how many slots in each slab.
ghost use Rattle.std.specs.Prelude.{◌≡◌, ◌*◌, ◌&&◌, ◌==◌};
ghost use Rattle.model.specs.Tables.{capacities, bad_ids, carried_bytes};
ghost use Rattle.address.specs.Address.{slabs};

use crate::{MOST_UPDATES, both};
use address::SlabAddress;
use carried::WIDTH;

#[derive(Clone, Copy)]
pub struct Capacities {
    pub ids: usize,
    pub slots: usize,
}

fn bad_ids(ids: usize) -> bool
    ensures { result ≡ bad_ids ids }
{
    ids < 2 || ids > Capacities::MOST_IDS
}

impl Capacities {
    pub const MOST_IDS: usize = 65536;

    // 2 to 65,536 ids, 1 to 65,536 slots.
    pub fn good(self) -> bool
        ensures { result ≡ capacities self.ids self.slots }
    {
        let ids = self.ids;
        let slots = self.slots;
        both(!bad_ids(ids), !address::bad_slots(slots))
    }

    // Whether the capacities are good, and a table of one entry an id has this length.
    pub fn ids_fit(self, length: usize) -> bool
        ensures { result ≡ (capacities self.ids self.slots && length == self.ids) }
    {
        both(self.good(), length == self.ids)
    }

    // The same of a table of one entry a slot.
    pub fn slots_fit(self, length: usize) -> bool
        ensures { result ≡ (capacities self.ids self.slots && length == slabs * self.slots) }
    {
        if !self.good() {
            return false;
        }
        length == SlabAddress::SLABS * self.slots
    }

    // The same of the column of what rows carry: a row for each id, then one for each kept update.
    pub fn carried_fits(self, length: usize) -> bool
        ensures { result ≡ (capacities self.ids self.slots && length == carried_bytes self.ids) }
    {
        if !self.good() {
            return false;
        }
        length == (self.ids + MOST_UPDATES) * WIDTH
    }
}
