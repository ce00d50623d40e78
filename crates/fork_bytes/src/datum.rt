//! What a row has for its bytes.

use crate::table::Contents;
use mac_base::error::HostFull;

/// What stands for the bytes of a resource where they are written.
pub trait Datum {
    ghost use Rattle.std.specs.Prelude.{◌≡◌, ◌++◌, ℕ, List, length, OnOk};

    /// The bytes.
    ghost text: { Self → List ℕ };

    /// How many bytes.
    fn count(&self) -> usize
        ensures { result ≡ length (text self.now) };

    /// Adds the bytes.
    fn append(&self, fork: &mut Vec<u8>) -> Result<(), HostFull>
        ensures { OnOk result (fork.new.items ≡ fork.old.items ++ text self.now) };
}

/// The bytes themselves.
impl Datum for Contents<'_> {
    ghost text = { λ bytes. bytes };

    fn count(&self) -> usize {
        self.as_slice().len()
    }

    fn append(&self, fork: &mut Vec<u8>) -> Result<(), HostFull> {
        fork.extend_from_slice(self.as_slice())?;
        Ok(())
    }
}

/// So many zeros.
impl Datum for u32 {
    ghost use Rattle.std.specs.Prelude.{replicate};

    ghost text = { λ count. replicate count 0 };

    fn count(&self) -> usize {
        *self as usize
    }

    fn append(&self, fork: &mut Vec<u8>) -> Result<(), HostFull> {
        fork.resize(fork.len() + *self as usize, 0)?;
        Ok(())
    }
}
