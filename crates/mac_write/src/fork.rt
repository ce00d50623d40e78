//! A file with another resource fork.

ghost use Rattle.std.specs.Prelude.{◌≡◌, ℕ, List, length, None, Ok, true, IfOk};
ghost use Rattle.std.specs.Result.{result_err};
ghost use Rattle.mac_files.specs.declared.container.Container.TheVariants.{Raw};
ghost use Rattle.mac_files.specs.BinHex.{bin_hex_of, is_bin_hex};
ghost use Rattle.mac_files.specs.BinHexFiles.{view as bin_hex_view};
ghost use Rattle.mac_files.specs.Containers.{container_of};
ghost use Rattle.mac_write.specs.Parts.{bin_hex_parts};
ghost use Rattle.mac_write.specs.Targets.{hex_unwritten};
ghost use Rattle.mac_write.specs.Forks.{ChangesFork, KeepsRest, Refuses, refusal, with_fork};

use crate::apple::apple_with_fork;
use crate::binary::binary_with_fork;
use crate::mac_file::{MacFile, bin_hex_parts};
use crate::refusal::Refusal;
use crate::target::{Target, write_file};
use mac_files::bin_hex::file::BinHexFile;
use mac_files::container::Container;
use std::alloc::{AllocError, Global};

/// A file of nothing but a resource fork.
fn raw_fork(alloc: Global, fork: &[u8]) -> Result<Vec<u8>, AllocError>
    ensures file { IfOk result (λ new. new.items ≡ fork.now) }
    ensures changes { IfOk result (λ new. (file : List ℕ) → ChangesFork Raw file fork.now new.items) }
{
    let new = Vec::from_slice(alloc, fork)?;
    Ok(new)
}

/// The file with these bytes as its resource fork, in the place of its own. All else in it stays as it is: the data
/// fork, the name, what the Finder knows and the dates; every other entry of AppleSingle and AppleDouble; MacBinary's
/// comment. A refusal comes exactly where it is defined, but for HostFull.
pub fn with_fork(
    alloc: Global,
    container: Container,
    file: &[u8],
    fork: &[u8],
) -> Result<Vec<u8>, Refusal>
    ensures file { IfOk result (λ new. new.items ≡ with_fork container file.now fork.now) }
    ensures refusal { Refuses (result_err result) (refusal container file.now (length fork.now)) }
    ensures changes { IfOk result (λ new. ChangesFork container file.now fork.now new.items) }
    ensures rest { IfOk result (λ new. KeepsRest container file.now fork.now new.items) }
{
    match container {
        Container::Raw => Ok(raw_fork(alloc, fork)?),
        Container::AppleSingle | Container::AppleDouble => apple_with_fork(alloc, file, fork),
        Container::MacBinary(version) => binary_with_fork(alloc, version, file, fork),
    }
}

/// The file of a BinHex text with these bytes as its resource fork, as a BinHex text of its own: what comes before the
/// text and after it isn't in this one. A refusal comes exactly where it is defined, but for HostFull.
pub fn text_with_fork(alloc: Global, file: &BinHexFile, fork: &[u8]) -> Result<Vec<u8>, Refusal>
    ensures file { IfOk result (λ new. bin_hex_of new.items ≡ Ok (record (bin_hex_view file.now) { resource_fork = fork.now })) }
    ensures known { IfOk result (λ new. (container_of new.items ≡ None) × (is_bin_hex new.items ≡ true)) }
    ensures refusal { Refuses (result_err result) (hex_unwritten (record (bin_hex_parts (bin_hex_view file.now)) { resource_fork = fork.now })) }
{
    let file = MacFile {
        resource_fork: fork,
        ..bin_hex_parts(file)
    };
    write_file(alloc, Target::BinHex, &file)
}
