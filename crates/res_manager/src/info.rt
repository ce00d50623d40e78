//! Another id and another name for a resource.

ghost use Rattle.std.specs.Prelude.{◌≡◌, nat_le, length, option_copied, IfOk, IsSome, IsTrue, OnErr, OnOk, None, Some};
ghost use Rattle.std.specs.Option.{option_map_or};
ghost use Rattle.mem_calls.specs.Testing.{Answers};
ghost use Rattle.res_update.specs.Info.{info_changed, info_refusal};
ghost use Rattle.res_table.specs.OpenFiles.{place_of_handle, row_at};

use crate::quiet::copy_if_named;
use crate::rows::attributes_at;
use crate::tests::{require, test_row};
use bitflags::Flags;
use fork_disk::store::ForkStore;
use mac_base::error::{HostFull, OsErr};
use mac_base::handle::Handle;
use mac_base::name::MAX_NAME;
use mac_base::resource::ResAttrs;
use res_files::ResourceFiles;
use res_table::chain::RowPlace;
use std::alloc::Global;

/// SetResInfo: a resource gets this id, and this name where one is given. Its file has both with the next update,
/// whether or not the resource was changed (Inside Macintosh: More Macintosh Toolbox, chapter 1, "Getting and Setting
/// Resource Information"). The name is copied into host memory; without it nothing is changed.
pub fn set_info<S: ForkStore>(
    files: &mut ResourceFiles<S>,
    alloc: Global,
    handle: Handle,
    id: i16,
    name: Option<&[u8]>,
) -> Result<Result<(), OsErr>, HostFull>
    ensures passed { IfOk result (λ done. Answers (info_refusal handle (option_copied name.entry) files.old.files) done) }
    ensures set { IfOk result (λ done. OnOk done (files.new ≡ record files.old { files = info_changed handle id (option_copied name.entry) files.old.files })) }
    ensures refused { IfOk result (λ done. OnErr done (files.new ≡ files.old)) }
    ensures late { OnErr result (info_refusal handle (option_copied name.entry) files.old.files ≡ None) }
    ensures same { OnErr result (files.new ≡ files.old) }
{
    let place = match test_info(files, handle, name) {
        Ok(place) => place,
        Err(code) => return Ok(Err(code)),
    };
    let name = copy_if_named(alloc, name)?;
    files.set_info(place, id, name)?;
    Ok(Ok(()))
}

/// The place of the row that gets the name. Some file is open, some row has the handle and isn't protected, and the
/// name has at most 255 bytes; or the call is refused.
fn test_info<S: ForkStore>(
    files: &ResourceFiles<S>,
    handle: Handle,
    name: Option<&[u8]>,
) -> Result<RowPlace, OsErr>
    ensures passed { Answers (info_refusal handle (option_copied name.entry) files.now.files) result }
    ensures value { IfOk result (λ place. place_of_handle handle files.now.files ≡ Some place) }
    ensures there { IfOk result (λ place. IsSome (row_at place files.now.files)) }
    ensures short { OnOk result (IsTrue (nat_le (option_map_or length (option_copied name.entry) 0) 255)) }
{
    let place = test_row(files, handle, OsErr::ResNotFound)?;
    let attributes = attributes_at(files, place);
    require(!attributes.contains(ResAttrs::PROTECTED), OsErr::ResAttrErr)?;
    require(
        name.is_none_or(|name| name.len() <= MAX_NAME),
        OsErr::ParamErr,
    )?;
    Ok(place)
}
