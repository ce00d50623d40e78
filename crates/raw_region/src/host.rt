//! Bytes of the host's own memory.

ghost use Rattle.std.specs.Prelude.{◌≡◌, ◌^◌, ◌<◌, [], List, ℕ, length, Option, Some, None, IsTrue};
ghost use Rattle.raw_region.specs.Hosts.{are_there};
ghost use Rattle.raw_region.specs.Memory.{cells_len};

use crate::cells::Cells;
use std::marker::Model;
use std::ptr;

/// `len` bytes of the host's memory from `at` on, if they are there: by a value of this type the host hands them over,
/// and gets them back.
#[repr(C)]
#[derive(Drop)]
pub struct HostBytes {
    pub at: *mut u8,
    pub len: usize,
    pub ghost bytes: { Option (List ℕ) },
    ghost small: { len < 2 ^ 63 },
}

impl Model for HostBytes {
    ghost use Rattle.raw_region.specs.Hosts.{host_bytes};

    ghost also_owns = { λ h. host_bytes h.bytes h.at h.len };
}

impl HostBytes {
    /// No bytes.
    pub fn none() -> HostBytes
        ensures { result.bytes ≡ None }
    {
        let at = ptr::null_mut();
        HostBytes::nothing_at(at)
    }

    /// No bytes, at this pointer.
    fn nothing_at(at: *mut u8) -> HostBytes
        ensures { result.bytes ≡ None }
    {
        HostBytes { at, len: 0 }
    }
}

impl Cells {
    /// The bytes of the host.
    pub(crate) fn over(host: HostBytes) -> Cells
        requires { IsTrue (are_there host.bytes) }
        ensures { (host.bytes ≡ Some result.bytes) × (result.home ≡ (host.at, result.bytes)) × (result.from ≡ 0)
            × (result.lent ≡ []) × (length result.bytes ≡ host.len) }
    {
        let HostBytes { at, len } = host;
        Cells { at, len }
    }

    /// Hands the bytes to the host.
    pub(crate) fn hand_back(self) -> HostBytes
        requires { (self.lent ≡ []) × (self.from ≡ 0) }
        ensures { (result.bytes ≡ Some self.bytes) × (result.at ≡ self.home.0) × (result.len ≡ length self.bytes) }
    {
        let Cells { at, len } = self;
        HostBytes { at, len }
    }
}
