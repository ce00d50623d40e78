//! Bytes at a raw pointer.

ghost use Rattle.std.specs.Prelude.{◌≡◌, ℕ, ◌^◌, ◌<◌, List, length, true};
ghost use denote.RawPtr.{◌+ₚ◌};
ghost use Rattle.mac_base.specs.ZoneState.{Name};
ghost use Rattle.raw_region.specs.Span.{Span, is_here, are_loans};
ghost use Rattle.raw_region.specs.Ownership.{owned, shown};

use std::marker::Model;

mod lends;
mod moves;

/// `len` bytes from `at` on, of which those in the ranges `lent` are someone else's. They lie `from` bytes after the
/// first byte of their region, which `home` names.
pub(crate) struct Cells {
    pub(crate) at: *mut u8,
    pub(crate) len: usize,
    pub ghost home: { Name },
    pub ghost from: { ℕ },
    pub ghost bytes: { List ℕ },
    pub ghost lent: { List Span },
    ghost placed: { at ≡ home.0 +ₚ from },
    ghost counted: { len ≡ length bytes },
    ghost loans: { are_loans lent len ≡ true },
    ghost small: { len < 2 ^ 63 },
}

impl Model for Cells {
    ghost also_owns = { λ c. owned c.at (is_here c.lent) c.bytes };

    ghost also_shares = { λ c _ κ. shown c.at (is_here c.lent) c.bytes κ };
}
