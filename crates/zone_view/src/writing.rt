//! What is written to the output.

ghost use Rattle.zone_view.specs.Writing.{Writes};

use std::alloc::AllocError;
use std::io::{self, ErrorKind, Write};
use thiserror::Error;

/// Why what is found isn't written, or not all of it.
#[derive(Debug, Drop, Error)]
pub enum NotWritten {
    /// The output takes no more.
    #[error("error: the output can't be written: {0}")]
    Failed(io::Error),
    /// The host has no memory for it.
    #[error("error: the host has no memory")]
    HostFull,
}

impl From<AllocError> for NotWritten {
    ghost use Rattle.std.specs.Prelude.{◌≡◌};
    ghost use Rattle.zone_view.specs.declared.writing.NotWritten.TheVariants.{HostFull};

    ghost from_gives = { λ _ why. why ≡ HostFull };

    fn from(_: AllocError) -> NotWritten {
        NotWritten::HostFull
    }
}

/// Writes these bytes, or a front of them where the output fails. A write that is interrupted is tried again.
pub(crate) fn write<W: Write>(bytes: &[u8], output: &mut W) -> Result<(), NotWritten>
    ensures { Writes bytes.now (W.contents output.old) (W.contents output.new) result }
{
    let mut rest = bytes;
    let mut retries = u64::MAX; // no run uses these up
    while !rest.is_empty() {
        match output.write(rest) {
            Ok(0) => return Err(NotWritten::Failed(ErrorKind::WriteZero.into())),
            Ok(count) => rest = &rest[count..],
            Err(error) if error.kind() == ErrorKind::Interrupted && retries > 0 => retries -= 1,
            Err(error) => return Err(NotWritten::Failed(error)),
        }
    }
    Ok(())
}
