//! The rows of handles.

ghost use Rattle.std.specs.Prelude.{◌≡◌, [], ◌∷◌, IfOk, IsSome, Some};
ghost use Rattle.res_update.specs.Changes.{FileRow, row_of_handle};
ghost use Rattle.res_update.specs.Files.{ResState};
ghost use Rattle.res_update.specs.Tests.{HasFile, HasRow};
ghost use Rattle.res_files.specs.FilesOn.{Shows};
ghost use Rattle.res_table.specs.OpenFiles.{row_at};
ghost use Rattle.res_manager.specs.Tests.{Tests};

use crate::tests::test_row;
use fork_bytes::place::Place;
use fork_disk::store::ForkStore;
use mac_base::error::OsErr;
use mac_base::handle::Handle;
use mac_base::resource::ResAttrs;
use res_files::ResourceFiles;
use res_table::chain::RowPlace;
use res_table::row::Row;

/// The row with a handle. Some file is open and some row has the handle, or the call is refused.
pub(crate) fn test_found<S: ForkStore>(
    files: &ResourceFiles<S>,
    handle: Handle,
) -> Result<&Row<Place>, OsErr>
    ensures passed { (state : ResState) → state.files ≡ files.now.files → Tests state (HasFile ∷ HasRow OsErr.ResNotFound handle ∷ []) result }
    ensures value { IfOk result (λ row. (shown : FileRow) × (row_of_handle handle files.now.files ≡ Some shown) × Shows row.now shown) }
{
    let place = test_row(files, handle, OsErr::ResNotFound)?;
    Ok(files.row(place).unwrap())
}

/// The attributes of the row at a place.
pub(crate) fn attributes_at<S: ForkStore>(files: &ResourceFiles<S>, place: RowPlace) -> ResAttrs
    requires { IsSome (row_at place files.now.files) }
    ensures { (r : FileRow) × (row_at place files.now.files ≡ Some r) × (result ≡ r.resource.attributes) }
{
    files.row(place).unwrap().resource.attributes
}
