//! The bytes of handles.

ghost use Rattle.std.specs.Prelude.{◌≡◌, length, IsFalse};
ghost use Rattle.mac_base.specs.HandleTable.{HandleTable, bytes_of, is_lent};

use mac_base::handle::Handle;

/// What gives the bytes of handles.
pub trait Contents {
    /// The handle table.
    ghost table: { Self → HandleTable };

    /// The bytes of a handle that isn't lent: none of an empty one, nor of one that isn't live.
    fn bytes(&self, handle: Handle) -> &[u8]
        requires { IsFalse (is_lent (table self.now) handle) }
        ensures { result.now ≡ bytes_of (table self.now) handle };

    /// How many bytes a handle has: none where it isn't live, or empty. One that is lent has those that it had.
    fn length(&self, handle: Handle) -> u32
        ensures { result ≡ length (bytes_of (table self.now) handle) };
}
