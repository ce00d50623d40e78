//! The numbers by which a program names blocks.

use std::marker::Model;

/// A handle: the address of a master pointer. A contract sees the number.
#[derive(Clone, Copy, Debug, PartialEq, Eq)]
pub struct Handle(u32);

impl Model for Handle {
    ghost use Rattle.std.specs.Prelude.{ℕ};

    ghost Value = { ℕ };

    ghost view = { λ h. h.0 };

    ghost inverse = { λ n. record { 0 = n } };
}

impl Handle {
    ghost use Rattle.std.specs.Prelude.{◌≡◌};

    /// The handle of this number, live or not.
    pub const fn new(number: u32) -> Handle
        ensures { result ≡ number }
    {
        Handle(number)
    }

    /// The address of the master pointer.
    pub const fn number(self) -> u32
        ensures { result ≡ self }
    {
        self.0
    }
}

/// A pointer: the address of a nonrelocatable block's contents. A contract sees the number.
#[derive(Clone, Copy, Debug, PartialEq, Eq)]
pub struct Ptr(u32);

impl Model for Ptr {
    ghost use Rattle.std.specs.Prelude.{ℕ};

    ghost Value = { ℕ };

    ghost view = { λ p. p.0 };

    ghost inverse = { λ n. record { 0 = n } };
}

impl Ptr {
    ghost use Rattle.std.specs.Prelude.{◌≡◌};

    /// The pointer of this number, live or not.
    pub const fn new(number: u32) -> Ptr
        ensures { result ≡ number }
    {
        Ptr(number)
    }

    /// The address of the block's contents.
    pub const fn number(self) -> u32
        ensures { result ≡ self }
    {
        self.0
    }
}
