// Many objects at once.
ghost use Rattle.std.specs.Prelude.{◌≡◌};
ghost use Rattle.lookup_page.specs.Page.{page, page_leaves};
ghost use Rattle.exports.specs.Pages.{ExportedPage, exported_page};

use exports_status::finished;
use tables::Capacities;

// What a lookup answers of each id, in the order asked: its number, its location and what its row carries.
pub fn wentuhoro_lookup_page(
    ids: usize,
    slots: usize,
    id_marks: &[u8],
    locations: &[u64],
    slot_marks: &[u8],
    owners: &[u64],
    tallies: &[u64],
    carried: &[u8],
    asked: &[u64],
    numbers: &mut [u8],
    found: &mut [u64],
    rows: &mut [u8],
) -> u64
    ensures { ◌≡◌ {A = ExportedPage}
        (record { status = result; numbers = numbers.new; locations = found.new; carried = rows.new })
        (exported_page (page_leaves (page asked.now numbers.old found.old rows.old) ids slots
        id_marks.now
        locations.now
        slot_marks.now
        owners.now
        tallies.now
        carried.now)) }
{
    let caps = Capacities { ids, slots };
    finished(lookup_page::get_locations_for_objects(
        caps, id_marks, locations, slot_marks, owners, tallies, carried, asked, numbers, found,
        rows,
    ))
}
