// Document 01, "Run whole": eight objects of three bytes stored in order, five freed and released, and what is to be moved then.
#![tactic(auto)]

use address::SlabAddress;
use carried::WIDTH;
use refusal::Refusal;
use std::io;
use tables::{BATCH_WORDS, Capacities, MOST_UPDATES, TALLY_WORDS};

const IDS: usize = 9;

const SLOTS: usize = 8;

const ALL_SLOTS: usize = SlabAddress::SLABS * SLOTS;

const CAPS: Capacities = Capacities {
    ids: IDS,
    slots: SLOTS,
};

// The most objects of an offer.
const OBJECTS: usize = 8;

// What becomes of the object of an id, as an offer takes it.
#[derive(Clone, Copy)]
struct Update {
    stores: u8,
    length: u64,
}

const STORE_THREE_BYTES: Update = Update {
    stores: 1,
    length: 3,
};

const FREE: Update = Update {
    stores: 0,
    length: 0,
};

// The seven tables.
#[derive(Drop)]
struct Store {
    id_marks: [u8; IDS],
    locations: [u64; IDS],
    slot_marks: [u8; ALL_SLOTS],
    owners: [u64; ALL_SLOTS],
    batch: [u64; BATCH_WORDS],
    tallies: [u64; TALLY_WORDS],
    carried: [u8; (IDS + MOST_UPDATES) * WIDTH],
}

impl Store {
    fn zeroed() -> Store {
        Store {
            id_marks: [0; IDS],
            locations: [0; IDS],
            slot_marks: [0; ALL_SLOTS],
            owners: [0; ALL_SLOTS],
            batch: [0; BATCH_WORDS],
            tallies: [0; TALLY_WORDS],
            carried: [0; (IDS + MOST_UPDATES) * WIDTH],
        }
    }

    fn fresh() -> Store {
        let mut store = Self::zeroed();
        let _ = rebuild::fresh(
            CAPS,
            &mut store.id_marks,
            &mut store.locations,
            &mut store.slot_marks,
            &mut store.owners,
            &mut store.batch,
            &mut store.tallies,
            &mut store.carried,
        );
        store
    }

    fn allocate_id(&mut self) {
        let _ = object_ids::allocate_object_id(
            CAPS,
            &mut self.id_marks,
            &self.batch,
            &mut self.tallies,
        );
    }

    fn offer(&mut self, ids: &[u64], update: Update) {
        let count = ids.len().min(OBJECTS);
        let _ = offer::offer(
            CAPS,
            &self.id_marks,
            &self.locations,
            &mut self.slot_marks,
            &self.owners,
            &mut self.batch,
            &mut self.tallies,
            &mut self.carried,
            ids,
            &[update.stores; OBJECTS][..count],
            &[update.length; OBJECTS][..count],
            &[0; OBJECTS * WIDTH][..count * WIDTH],
            &mut [0; OBJECTS][..count],
        );
    }

    fn commit(&mut self) {
        let _ = commit::commit(
            CAPS,
            &mut self.id_marks,
            &mut self.locations,
            &mut self.slot_marks,
            &mut self.owners,
            &mut self.batch,
            &mut self.tallies,
            &mut self.carried,
        );
    }

    fn release(&mut self) {
        let _ = release::release(
            CAPS,
            &mut self.id_marks,
            &mut self.slot_marks,
            &self.batch,
            &mut self.tallies,
        );
    }

    fn objects_to_defrag(
        &self,
        r: f32,
        ids: &mut [u64],
        locations: &mut [u64],
    ) -> Result<usize, Refusal> {
        defrag::objects_to_defrag(
            CAPS,
            &self.locations,
            &self.slot_marks,
            &self.owners,
            &self.batch,
            &self.tallies,
            r,
            ids,
            locations,
        )
    }
}

// One row: slab, slot and id.
fn say_move(rt: &impl Print, id: u64, location: u64) -> io::Result<()> {
    let Ok(Some(address)) = SlabAddress::unpack(SLOTS, location) else {
        return Ok(());
    };
    println!(rt; "{} {} {id}", address.slab, address.slot)
}

fn say_moves(rt: &impl Print, ids: &[u64], locations: &[u64], count: usize) -> io::Result<()> {
    println!(rt; "slab slot id")?;
    for (id, location) in ids.iter().zip(locations).take(count) {
        say_move(rt, *id, *location)?;
    }
    Ok(())
}

fn say_defrag(rt: &impl Print, store: &Store) -> io::Result<()> {
    let mut ids = [0; 8];
    let mut locations = [0; 8];
    match store.objects_to_defrag(0.75, &mut ids, &mut locations) {
        Ok(count) => say_moves(rt, &ids, &locations, count),
        Err(_) => println!(rt; "refused"),
    }
}

fn main(rt: HostRuntime) -> io::Result<()> {
    let mut store = Store::fresh();
    for _ in 0..8 {
        store.allocate_id();
    }
    store.offer(&[1, 2, 3, 4, 5, 6, 7, 8], STORE_THREE_BYTES);
    store.commit();
    store.offer(&[1, 2, 3, 5, 7], FREE);
    store.commit();
    store.release();
    say_defrag(&rt, &store)
}
