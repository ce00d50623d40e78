//! Whether files can be saved over a zone.

ghost use Rattle.std.specs.Prelude.{◌≡◌, ◌↔◌, ◌+◌, ◌≤◌, All, IsTrue, Some};
ghost use Rattle.std.specs.List.{AllByRecursion};
ghost use Rattle.mac_base.specs.HandleTable.{is_handle};
ghost use Rattle.res_table.specs.OpenFiles.{place_of_handle};
ghost use Rattle.saved_files.specs.Addresses.{has_address};
ghost use Rattle.res_update.specs.Placed.{AreNear, IsNear};
ghost use Rattle.saved_files.specs.Sound.{HasCurrent, IsSoundAt, IsSoundFile};

use crate::addresses::has_address;
use fork_bytes::layout::MAX_FORK;
use fork_bytes::place::Place;
use linked_zone::LinkedZone;
use mac_base::handle::Handle;
use res_table::chain::{Chain, OpenFile};
use res_table::row::Row;
use res_table::rows::Rows;

/// Whether the row that is found by a handle is the one at an index of the file of a number.
fn is_found_at(chain: &Chain<Place>, handle: Handle, number: u8, index: usize) -> bool
    ensures { IsTrue result ↔ (place_of_handle handle chain.now ≡ Some (record { file = number; index = index })) }
{
    match chain.row_of_handle(handle) {
        Some(place) => place.file == number && place.index == index,
        None => false,
    }
}

/// Whether a handle is live, if it is in the zone.
fn is_live_if_here(zone: &LinkedZone, handle: Handle) -> bool
    ensures { IsTrue result ↔ (IsTrue (has_address zone.now.shape handle) → IsTrue (is_handle zone.now.heap.table handle)) }
{
    !has_address(zone.spec(), handle.number()) || zone.is_live(handle)
}

/// Whether the handle of the row of a file at an index, if it has one, is live, if it is in the zone, and no other row has
/// it.
fn is_sound_at(
    chain: &Chain<Place>,
    zone: &LinkedZone,
    number: u8,
    index: usize,
    row: &Row<Place>,
) -> bool
    ensures { IsTrue result ↔ IsSoundAt zone.now chain.now number index row.now }
{
    match row.handle {
        Some(handle) => {
            is_live_if_here(zone, handle) && is_found_at(chain, handle, number, index)
        }
        None => true,
    }
}

/// Whether each handle of a file's rows is live, if it is in the zone, and no other row has it.
fn is_sound_file(chain: &Chain<Place>, zone: &LinkedZone, file: &OpenFile<Place>) -> bool
    ensures { IsTrue result ↔ IsSoundFile zone.now chain.now file.now }
{
    let rows = &file.table.rows;
    for index in 0..rows.len() {
        if !is_sound_at(chain, zone, file.number, index, rows.row(index)) {
            return false;
        }
    }
    true
}

/// Whether each handle of a row is live, if it is in the zone, and no other row has it.
pub(crate) fn are_sound(chain: &Chain<Place>, zone: &LinkedZone) -> bool
    ensures { IsTrue result ↔ AllByRecursion (IsSoundFile zone.now chain.now) chain.now.files }
{
    chain
        .files()
        .iter()
        .all(|file| is_sound_file(chain, zone, file))
}

/// Whether a file is the current one, where any is open.
pub(crate) fn has_current(chain: &Chain<Place>) -> bool
    ensures { IsTrue result ↔ HasCurrent chain.now }
{
    chain.current().is_some() || chain.files().is_empty()
}

/// Whether a place is within a fork of so many bytes, and within the longest one.
fn is_within(place: Place, length: usize) -> bool
    ensures { IsTrue result ↔ ((place.offset + place.length ≤ length) × IsNear place) }
{
    let end = place.offset as usize + place.length as usize;
    end <= length && end <= MAX_FORK
}

/// Whether the bytes of rows are within a fork of so many bytes, and within the longest one.
pub(crate) fn are_within(rows: &Rows<Place>, length: usize) -> bool
    ensures { IsTrue result ↔ (All (λ r. r.resource.datum.offset + r.resource.datum.length ≤ length) rows.now × AreNear rows.now) }
{
    for index in 0..rows.len() {
        if !is_within(rows.row(index).resource.datum, length) {
            return false;
        }
    }
    true
}
