//! Resource files in a saved state of a guest.

ghost use Rattle.std.specs.Prelude.{◌≡◌, length};
ghost use Rattle.macheap_c.specs.Image.{size_of, sized};
ghost use Rattle.macheap_c.specs.SavedState.{LoadReply, SaveReply, fault_code, load_code};

use held_files::held::MrFiles;
use held_zone::host_err::HostErr;
use held_zone::zone::MhZone;
use mac_base::error::{NO_ERR, OsErr};
use row_image::SaveFault;
use std::alloc::Global;

/// The code of a fault.
fn fault_code(fault: SaveFault) -> i16
    ensures { result ≡ fault_code fault }
{
    match fault {
        SaveFault::HostFull => OsErr::MemFullErr.code(),
        SaveFault::NotSound => HostErr::BadState.code(),
    }
}

/// The code of a load.
fn load_code(loaded: Option<Result<(), SaveFault>>) -> i16
    ensures { result ≡ load_code loaded }
{
    match loaded {
        None => HostErr::NotThere.code(),
        Some(Ok(())) => NO_ERR,
        Some(Err(fault)) => fault_code(fault),
    }
}

/// How many bytes the files are saved as over a zone.
#[unsafe(no_mangle)]
pub extern "C" fn mr_save_size(
    alloc: Global,
    files: &mut MrFiles,
    zone: &mut MhZone,
    size: &mut usize,
) -> i16
    ensures { SaveReply size_of zone.old.held.session files.old.held.files result size.old size.new zone.new.held.session files.new.held.files }
{
    match files.save(alloc, zone) {
        None => HostErr::NotThere.code(),
        Some(Err(fault)) => fault_code(fault),
        Some(Ok(saved)) => {
            *size = saved.len();
            NO_ERR
        }
    }
}

/// Copies all that the files are as bytes, for `mr_load` over the zone. BadNumber where C has room for more bytes or
/// fewer.
#[unsafe(no_mangle)]
pub extern "C" fn mr_save(
    alloc: Global,
    files: &mut MrFiles,
    zone: &mut MhZone,
    bytes: &mut [u8],
) -> i16
    ensures { SaveReply (sized (length bytes.old)) zone.old.held.session files.old.held.files result bytes.old bytes.new zone.new.held.session files.new.held.files }
{
    match files.save(alloc, zone) {
        None => HostErr::NotThere.code(),
        Some(Err(fault)) => fault_code(fault),
        Some(Ok(saved)) if saved.len() == bytes.len() => {
            bytes.copy_from_slice(&saved);
            NO_ERR
        }
        Some(Ok(_)) => HostErr::BadNumber.code(),
    }
}

/// Makes files of the bytes that `mr_save` copied over this zone: each call does then what it would have done without the
/// pause. InUse where files have begun.
#[unsafe(no_mangle)]
pub extern "C" fn mr_load(
    alloc: Global,
    files: &mut MrFiles,
    zone: &mut MhZone,
    bytes: &[u8],
) -> i16
    ensures { LoadReply zone.old.held.session files.old.held.files bytes.now result zone.new.held.session files.new.held.files }
{
    if files.are_live() {
        return HostErr::InUse.code();
    }
    load_code(files.load(alloc, zone, bytes))
}
