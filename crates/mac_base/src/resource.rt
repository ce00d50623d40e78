//! A resource: what it is called, how it is treated, and its data.

ghost use Rattle.std.specs.Prelude.{⊤, [], ◌∷◌, codes};

use crate::name::Name;
use bitflags::{Flag, Flags, bitflag_items};
use std::marker::Model;

/// A resource type: four bytes, mostly letters, as in 'TEXT'. A contract sees the list.
#[derive(Clone, Copy, Debug, PartialEq, Eq)]
pub struct ResType([u8; 4]);

impl Model for ResType {
    ghost use Rattle.std.specs.Prelude.{List, ℕ};

    ghost Value = { List ℕ };

    ghost view = { λ t. t.0 };

    ghost inverse = { λ bytes. record { 0 = bytes } };
}

impl ResType {
    ghost use Rattle.std.specs.Prelude.{◌≡◌, length};

    /// The type of four bytes.
    pub const fn new(bytes: [u8; 4]) -> ResType
        ensures { result ≡ bytes }
    {
        ResType(bytes)
    }

    /// The four bytes, first to last.
    pub const fn bytes(self) -> [u8; 4]
        ensures same { result ≡ self }
        ensures four { length result ≡ 4 }
    {
        self.0
    }
}

/// The attributes of a resource (Inside Macintosh: More Macintosh Toolbox, chapter 1). The two bits without a name are
/// kept as they are.
#[derive(Clone, Copy, Debug, PartialEq, Eq)]
pub struct ResAttrs(u8);

bitflag_items! {
    impl ResAttrs: u8 {
        const SYS_HEAP = 64;
        const PURGEABLE = 32;
        const LOCKED = 16;
        const PROTECTED = 8;
        const PRELOAD = 4;
        const CHANGED = 2;
    }
}

impl Flags for ResAttrs {
    type Bits = u8;

    ghost exact = { ⊤ };

    ghost table = { (codes "SYS_HEAP", 64) ∷ (codes "PURGEABLE", 32) ∷ (codes "LOCKED", 16) ∷ (codes "PROTECTED", 8)
        ∷ (codes "PRELOAD", 4) ∷ (codes "CHANGED", 2) ∷ [] };

    ghost set_of = { λ a. a.0 };

    fn flags<'a>() -> &'a [Flag<ResAttrs>] {
        ResAttrs::FLAGS
    }

    fn bits(&self) -> u8 {
        self.0
    }

    fn from_bits_retain(bits: u8) -> ResAttrs {
        ResAttrs(bits)
    }
}

/// A resource as a file has it. The datum is its bytes, or says where they are (Inside Macintosh: More Macintosh
/// Toolbox, chapter 1).
#[derive(Drop)]
pub struct Resource<D> {
    pub kind: ResType,
    pub id: i16,
    pub name: Option<Name>,
    pub attributes: ResAttrs,
    pub datum: D,
}
