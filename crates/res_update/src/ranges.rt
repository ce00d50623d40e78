//! Where the bytes of rows are in the new fork, and which it keeps of the old one.

ghost use Rattle.std.specs.Prelude.{◌≡◌, ◌≤◌, length, IfOk};
ghost use Rattle.fork_bytes.specs.Fork.{max_fork};
ghost use Rattle.fork_bytes.specs.Written.{data_text};
ghost use Rattle.res_update.specs.Drafts.{new_places, kept_ranges};

use crate::draft::DraftRow;
use crate::selection::Selection;
use fork_bytes::datum::Datum;
use fork_bytes::place::Place;
use fork_disk::update::Kept;
use mac_base::error::HostFull;
use res_table::rows::Rows;
use std::alloc::Global;

/// Where the data begin in a fork that is written: after the header and the extra bytes.
const DATA_OFFSET: u32 = 256;

/// Where the bytes of rows are in their fork.
pub(crate) fn new_places<'a>(alloc: Global, rows: &[DraftRow<'a>]) -> Result<Vec<Place>, HostFull>
    requires { length (data_text rows.now) ≤ max_fork }
    ensures { IfOk result (λ places. places.items ≡ new_places 256 rows.now) }
{
    let mut places = Vec::new(alloc);
    let mut end = DATA_OFFSET;
    for row in rows {
        let place = Place {
            offset: end + 4,
            length: row.datum.count() as u32,
        };
        places.push(place)?;
        end = place.offset + place.length;
    }
    Ok(places)
}

/// The bytes that the new fork keeps of the old one: those of the rows that aren't selected, from their old places to
/// their new ones.
pub(crate) fn kept_ranges(
    alloc: Global,
    rows: &Rows<Place>,
    selection: Selection,
    places: &[Place],
) -> Result<Vec<Kept>, HostFull>
    requires { length places.now ≡ length rows.now }
    ensures { IfOk result (λ kept. kept.items ≡ kept_ranges selection 0 rows.now places.now) }
{
    let mut kept = Vec::new(alloc);
    for index in 0..rows.len() {
        let row = rows.row(index);
        if !selection.takes(index, row) {
            let old = row.resource.datum;
            kept.push(Kept {
                from: old.offset as u64,
                to: places[index].offset as usize,
                length: old.length as usize,
            })?;
        }
    }
    Ok(kept)
}
