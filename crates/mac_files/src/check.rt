//! What is checked of every container.

ghost use Rattle.std.specs.Prelude.{◌≡◌, ◌≤◌, length, OnOk};
ghost use Rattle.std.specs.Result.{result_err};
ghost use Rattle.mac_files.specs.Faults.{header_fault};

use crate::fault::ContainerFault;

/// Checks that the file has the bytes of a header.
pub(crate) fn check_header(needed: usize, file: &[u8]) -> Result<(), ContainerFault>
    ensures fault { result_err result ≡ header_fault needed file.now }
    ensures whole { OnOk result (needed ≤ length file.now) }
{
    let length = file.len();
    if length < needed {
        return Err(ContainerFault::EndsInHeader { needed, length });
    }
    Ok(())
}
