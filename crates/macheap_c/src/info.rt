//! Another id and another name for a resource.

ghost use Rattle.std.specs.Prelude.{◌≡◌, option_copied};
ghost use Rattle.held_files.specs.Info.{SetInfoTold};
ghost use Rattle.held_files.specs.Told.{name_given};

use held_files::held::MrFiles;
use mac_base::handle::Handle;
use std::alloc::Global;

/// The bytes of a name: none where there are none.
fn bytes_of(name: &[u8]) -> Option<&[u8]>
    ensures { option_copied result ≡ name_given name.now }
{
    if name.is_empty() { None } else { Some(name) }
}

/// SetResInfo: gives a resource another id, and another name, unless that has no bytes.
#[unsafe(no_mangle)]
pub extern "C" fn mr_set_res_info(
    alloc: Global,
    files: &mut MrFiles,
    handle: u32,
    id: i16,
    name: &[u8],
) -> i16
    ensures { SetInfoTold handle id (name_given name.now) files.old.held.files result files.new.held.files }
{
    files.set_info(alloc, Handle::new(handle), id, bytes_of(name))
}
