//! A file is written in a container.

ghost use Rattle.std.specs.Prelude.{◌≡◌, IfOk};
ghost use Rattle.std.specs.Result.{result_err};
ghost use Rattle.mac_write.specs.Forks.{Refuses};
ghost use Rattle.mac_write.specs.Parts.{view};
ghost use Rattle.mac_write.specs.Targets.{text_of, unwritten};
ghost use Rattle.mac_write.specs.Written.{IsReadAgain};

use crate::apple_text::{write_double, write_single};
use crate::binary_text::write_binary;
use crate::hex_text::write_hex;
use crate::known::know_file;
use crate::mac_file::MacFile;
use crate::refusal::Refusal;
use std::alloc::Global;

/// The container that a file is written in.
#[derive(Clone, Copy, Debug, PartialEq, Eq)]
pub enum Target {
    /// The resource fork alone.
    Raw,
    /// All but the data fork. Of version 2.
    AppleDouble,
    /// All. Of version 2.
    AppleSingle,
    /// All, as MacBinary III: its signature makes it known whatever its name is.
    MacBinary,
    /// All but the dates and the comment, as a BinHex 4.0 text.
    BinHex,
}

/// The file in a container. A refusal comes exactly where it is defined, but for HostFull. What is written is read
/// again as all of the file that the container holds.
pub fn write_file(alloc: Global, target: Target, file: &MacFile) -> Result<Vec<u8>, Refusal>
    ensures file { IfOk result (λ new. new.items ≡ text_of target (view file.now)) }
    ensures refusal { Refuses (result_err result) (unwritten target (view file.now)) }
    ensures read { IfOk result (λ new. IsReadAgain target (view file.now) new.items) }
{
    know_file(file);
    match target {
        Target::Raw => Ok(Vec::from_slice(alloc, file.resource_fork)?),
        Target::AppleDouble => write_double(alloc, file),
        Target::AppleSingle => write_single(alloc, file),
        Target::MacBinary => write_binary(alloc, file),
        Target::BinHex => write_hex(alloc, file),
    }
}
