// Refusal 1: whether what a call is lent has its lengths. One function for each set of tables that several calls are lent; which set is a call's is
// said in the model (specs/Lending), and the lengths that a function takes are those of its set.
ghost use Rattle.std.specs.Prelude.{◌≡◌, ◌*◌, ◌&&◌, ◌==◌};
ghost use Rattle.carried.specs.Carried.{width};
ghost use Rattle.model.specs.Tables.{capacities};
ghost use Rattle.model.specs.Lending.{every_table, slab_tables, id_tables, mark_tables, row_tables, reason_tables, stored_tables, tallies_alone, move_tables};
ghost use Rattle.model.specs.Lent.{fits_by};

use crate::{BATCH_WORDS, Capacities, TALLY_WORDS};
use carried::WIDTH;

pub fn both(a: bool, b: bool) -> bool
    ensures { result ≡ (a && b) }
{
    a && b
}

// Whether so many bytes are what so many rows carry. By a quotient, since the product may be too large.
pub fn carries(rows: usize, bytes: usize) -> bool
    ensures { result ≡ (bytes == rows * width) }
{
    both(bytes / WIDTH == rows, bytes % WIDTH == 0)
}

// Good capacities, and a test for each table: true for one that is not lent.
pub fn all_hold(
    caps: Capacities,
    id_marks: bool,
    locations: bool,
    slot_marks: bool,
    owners: bool,
    batch: bool,
    tallies: bool,
    carried: bool,
) -> bool
    ensures { result
        ≡ (capacities caps.ids caps.slots
        && (id_marks && locations && slot_marks && owners && batch && carried && tallies)) }
{
    both(
        caps.good(),
        both(
            both(
                both(
                    both(both(both(id_marks, locations), slot_marks), owners),
                    batch,
                ),
                carried,
            ),
            tallies,
        ),
    )
}

// Of a new id.
pub fn new_id_fits(caps: Capacities, id_marks: usize, batch: usize, tallies: usize) -> bool
    ensures { result ≡ fits_by id_tables caps.ids caps.slots id_marks batch tallies }
{
    all_hold(
        caps,
        caps.ids_fit(id_marks),
        true,
        true,
        true,
        batch == BATCH_WORDS,
        tallies == TALLY_WORDS,
        true,
    )
}

pub fn release_fits(
    caps: Capacities,
    id_marks: usize,
    slot_marks: usize,
    batch: usize,
    tallies: usize,
) -> bool
    ensures { result ≡ fits_by mark_tables caps.ids caps.slots id_marks slot_marks batch tallies }
{
    all_hold(
        caps,
        caps.ids_fit(id_marks),
        true,
        caps.slots_fit(slot_marks),
        true,
        batch == BATCH_WORDS,
        tallies == TALLY_WORDS,
        true,
    )
}

// Of abandon, truncation and cut report.
pub fn slab_fits(caps: Capacities, slot_marks: usize, batch: usize, tallies: usize) -> bool
    ensures { result ≡ fits_by slab_tables caps.ids caps.slots slot_marks batch tallies }
{
    all_hold(
        caps,
        true,
        true,
        caps.slots_fit(slot_marks),
        true,
        batch == BATCH_WORDS,
        tallies == TALLY_WORDS,
        true,
    )
}

// Of offer, commit, fresh, rebuild and snapshot: all seven tables.
pub fn all_fit(
    caps: Capacities,
    id_marks: usize,
    locations: usize,
    slot_marks: usize,
    owners: usize,
    batch: usize,
    tallies: usize,
    carried: usize,
) -> bool
    ensures { result ≡ fits_by every_table caps.ids caps.slots id_marks locations slot_marks owners batch tallies carried }
{
    all_hold(
        caps,
        caps.ids_fit(id_marks),
        caps.ids_fit(locations),
        caps.slots_fit(slot_marks),
        caps.slots_fit(owners),
        batch == BATCH_WORDS,
        tallies == TALLY_WORDS,
        caps.carried_fits(carried),
    )
}

pub fn lookup_fits(
    caps: Capacities,
    id_marks: usize,
    locations: usize,
    slot_marks: usize,
    owners: usize,
    tallies: usize,
    carried: usize,
) -> bool
    ensures { result ≡ fits_by row_tables caps.ids caps.slots id_marks locations slot_marks owners tallies carried }
{
    all_hold(
        caps,
        caps.ids_fit(id_marks),
        caps.ids_fit(locations),
        caps.slots_fit(slot_marks),
        caps.slots_fit(owners),
        true,
        tallies == TALLY_WORDS,
        caps.carried_fits(carried),
    )
}

// Of the length of a snapshot.
pub fn stored_fits(
    caps: Capacities,
    id_marks: usize,
    locations: usize,
    batch: usize,
    tallies: usize,
) -> bool
    ensures { result ≡ fits_by stored_tables caps.ids caps.slots id_marks locations batch tallies }
{
    all_hold(
        caps,
        caps.ids_fit(id_marks),
        caps.ids_fit(locations),
        true,
        true,
        batch == BATCH_WORDS,
        tallies == TALLY_WORDS,
        true,
    )
}

// Of counters.
pub fn tallies_fit(caps: Capacities, tallies: usize) -> bool
    ensures { result ≡ fits_by tallies_alone caps.ids caps.slots tallies }
{
    all_hold(
        caps,
        true,
        true,
        true,
        true,
        true,
        tallies == TALLY_WORDS,
        true,
    )
}

pub fn defrag_fits(
    caps: Capacities,
    locations: usize,
    slot_marks: usize,
    owners: usize,
    batch: usize,
    tallies: usize,
) -> bool
    ensures { result ≡ fits_by move_tables caps.ids caps.slots locations slot_marks owners batch tallies }
{
    all_hold(
        caps,
        true,
        caps.ids_fit(locations),
        caps.slots_fit(slot_marks),
        caps.slots_fit(owners),
        batch == BATCH_WORDS,
        tallies == TALLY_WORDS,
        true,
    )
}

// Of an object's reason: all but what rows carry.
pub fn reason_fits(
    caps: Capacities,
    id_marks: usize,
    locations: usize,
    slot_marks: usize,
    owners: usize,
    batch: usize,
    tallies: usize,
) -> bool
    ensures { result ≡ fits_by reason_tables caps.ids caps.slots id_marks locations slot_marks owners batch tallies }
{
    all_hold(
        caps,
        caps.ids_fit(id_marks),
        caps.ids_fit(locations),
        caps.slots_fit(slot_marks),
        caps.slots_fit(owners),
        batch == BATCH_WORDS,
        tallies == TALLY_WORDS,
        true,
    )
}
