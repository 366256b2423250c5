// Rows of an id and a location, written one after the other. A row past the end of the lent lists is not written: the contract of
// the whole call says that there is none.
ghost use Rattle.std.specs.Prelude.{◌≡◌, ◌+◌, ◌<◌, ◌^◌, length};
ghost use Rattle.std.proofs.lemmas.List.Edits.{sets};
ghost use Rattle.model.specs.Tables.{ids_of, locations_of};
ghost use Rattle.defrag.specs.Listed.{movable_at, row_of, listed_of};

// Whether an owner is an id in range that has this location.
fn movable(locations: &[u64], owner: u64, location: u64) -> bool
    ensures { result ≡ movable_at locations.now owner location }
{
    let id = owner as usize;
    if id == 0 {
        return false;
    }
    if id >= locations.len() {
        return false;
    }
    locations[id] == location
}

// The row of one slot, where it has one, at row n; how many rows there are then.
fn add_row(
    locations: &[u64],
    owner: u64,
    location: u64,
    moved_ids: &mut [u64],
    moved_locations: &mut [u64],
    n: usize,
) -> usize
    requires { n + 1 < 2 ^ 64 }
    ensures { (result ≡ n + length (row_of locations.now location owner))
        × (moved_ids.new ≡ sets moved_ids.old n
        (ids_of (row_of locations.now location owner)))
        × (moved_locations.new ≡ sets moved_locations.old n
        (locations_of (row_of locations.now location owner))) }
{
    if !movable(locations, owner, location) {
        return n;
    }
    tables::put(moved_ids, n, 0, owner);
    tables::put(moved_locations, n, 0, location);
    n + 1
}

// The rows of slots with these owners, of which the first has the location `first`.
pub(crate) fn add_rows(
    locations: &[u64],
    owners: &[u64],
    first: u64,
    moved_ids: &mut [u64],
    moved_locations: &mut [u64],
    from: usize,
) -> usize
    requires { (first + length owners.now < 2 ^ 64) × (from + length owners.now < 2 ^ 64) }
    ensures { (result ≡ from + length (listed_of locations.now first owners.now))
        × (moved_ids.new ≡ sets moved_ids.old from
        (ids_of (listed_of locations.now first owners.now)))
        × (moved_locations.new ≡ sets moved_locations.old from
        (locations_of (listed_of locations.now first owners.now))) }
{
    // Counted by hand: with `iter().enumerate()` a slab of 65,536 that is half empty took 1.3 to 1.4 times as long.
    let mut n = from;
    let mut location = first;
    let mut i: usize = 0;
    while i < owners.len() {
        n = add_row(
            locations,
            owners[i],
            location,
            moved_ids,
            moved_locations,
            n,
        );
        location += 1;
        i += 1;
    }
    n
}
