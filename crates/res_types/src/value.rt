//! What the fields of a type have.

use std::marker::Model;

/// The bytes of a text. A contract sees the list.
#[derive(Debug, Drop)]
pub struct Text {
    bytes: Vec<u8>,
}

impl Model for Text {
    ghost use Rattle.std.specs.Prelude.{List, ℕ};

    ghost Value = { List ℕ };

    ghost view = { λ text. text.bytes.items };
}

impl Text {
    ghost use Rattle.std.specs.Prelude.{◌≡◌, true};
    ghost use Rattle.res_types.specs.Texts.{are_bytes};

    /// The text of these bytes.
    pub fn new(bytes: Vec<u8>) -> Text
        ensures { result ≡ bytes.items }
    {
        Text { bytes }
    }

    /// The bytes, first to last.
    pub fn as_slice(&self) -> &[u8]
        ensures bytes { result.now ≡ self.now }
        ensures small { are_bytes self.now ≡ true }
    {
        let bytes = self.bytes.as_slice();
        bytes
    }
}

/// What one field has. A value is a list of these, in the order of the fields: fields that are always the same have
/// none, and before the parts of elements is their number, unless the type has it.
#[derive(Debug, Drop)]
pub enum Part {
    Number(u32),
    Text(Text),
    /// So many elements.
    Elements(usize),
    /// Whether it's the case that comes next in the type, or another.
    Case(bool),
}
