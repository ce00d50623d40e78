//! The rows of a file that was written anew get their new places.

ghost use Rattle.std.specs.Prelude.{◌≡◌, length, if◌then◌else◌};
ghost use Rattle.res_table.specs.Attributes.{unmarked};
ghost use Rattle.res_table.specs.OpenFiles.{rows_changed};
ghost use Rattle.res_table.specs.Rows.{changed_at};
ghost use Rattle.res_update.specs.Drafts.{is_selected};
ghost use Rattle.res_files.specs.Standing.{placed_rows_of};
ghost use Rattle.res_files.specs.Updating.{row_placed, rows_placed};

use fork_bytes::place::Place;
use mac_base::resource::ResAttrs;
use res_table::attributes::unmarked;
use res_table::chain::{Chain, RowPlace};
use res_table::row::Row;
use res_update::selection::Selection;

/// The attributes of the row at an index once the file is written: one that was selected is no longer changed.
fn saved_attributes(selection: Selection, index: usize, row: &Row<Place>) -> ResAttrs
    ensures { result ≡ (if is_selected selection index row.now then unmarked row.now.resource.attributes else row.now.resource.attributes) }
{
    let selected = match selection {
        Selection::AllChanged => row.is_changed(),
        Selection::RowAt(at) => index == at,
    };
    if selected {
        unmarked(row.resource.attributes)
    } else {
        row.resource.attributes
    }
}

/// Gives the row at a place of the chain, if there is one, its place in the new fork. If it was selected, it is no
/// longer changed.
fn place_row(chain: &mut Chain<Place>, at: RowPlace, selection: Selection, place: Place)
    ensures { chain.new ≡ rows_changed at.file (changed_at at.index (λ row. row_placed (is_selected selection at.index row) place row)) chain.old }
{
    let Some(row) = chain.row(at) else {
        return;
    };
    let attributes = saved_attributes(selection, at.index, row);
    chain.set_attributes(at, attributes);
    chain.set_datum(at, place);
}

/// Gives each row of an open file its place in the new fork. Those that were selected are no longer changed.
pub(crate) fn place_rows(chain: &mut Chain<Place>, file: u8, selection: Selection, places: &[Place])
    requires { length places.now ≡ length (placed_rows_of file chain.old) }
    ensures { chain.new ≡ rows_changed file (λ rows. rows_placed selection 0 rows places.now) chain.old }
{
    for (index, place) in places.iter().enumerate() {
        place_row(chain, RowPlace { file, index }, selection, *place);
    }
}
