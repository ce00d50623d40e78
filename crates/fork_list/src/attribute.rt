//! The attributes of a resource in words.

ghost use Rattle.std.specs.Prelude.{◌≡◌, Some};
ghost use Rattle.fork_list.specs.Attributes.{bit_of, word_of, attributes_text};

use bitflags::Flags;
use mac_base::resource::ResAttrs;
use std::fmt;

/// A bit of the attributes. The first and the last have no name of their own.
#[derive(Clone, Copy)]
enum Attribute {
    Bit7,
    SysHeap,
    Purgeable,
    Locked,
    Protected,
    Preload,
    Changed,
    Bit0,
}

/// All attributes, the highest bit first.
const ALL: [Attribute; 8] = [
    Attribute::Bit7,
    Attribute::SysHeap,
    Attribute::Purgeable,
    Attribute::Locked,
    Attribute::Protected,
    Attribute::Preload,
    Attribute::Changed,
    Attribute::Bit0,
];

impl Attribute {
    /// The bit.
    fn bit(self) -> u8
        ensures { result ≡ bit_of self }
    {
        match self {
            Attribute::Bit7 => 128,
            Attribute::SysHeap => 64,
            Attribute::Purgeable => 32,
            Attribute::Locked => 16,
            Attribute::Protected => 8,
            Attribute::Preload => 4,
            Attribute::Changed => 2,
            Attribute::Bit0 => 1,
        }
    }

    /// The word for it.
    fn word(self) -> &'static str
        ensures { result.now ≡ word_of self }
    {
        match self {
            Attribute::Bit7 => "bit7",
            Attribute::SysHeap => "sysHeap",
            Attribute::Purgeable => "purgeable",
            Attribute::Locked => "locked",
            Attribute::Protected => "protected",
            Attribute::Preload => "preload",
            Attribute::Changed => "changed",
            Attribute::Bit0 => "bit0",
        }
    }
}

/// The words for the attributes that are set, the highest bit first, with commas between them; `-` for none.
#[derive(Clone, Copy)]
pub struct Attributes {
    bits: u8,
}

impl Attributes {
    /// The words for these attributes.
    pub fn new(attributes: ResAttrs) -> Attributes
        ensures { result.bits ≡ attributes.0 }
    {
        Attributes {
            bits: attributes.bits(),
        }
    }
}

impl fmt::Display for Attributes {
    ghost output = { λ a. Some (attributes_text a.bits) };

    fn fmt<W: fmt::Write>(&self, f: &mut fmt::Formatter<W>) -> fmt::Result {
        let bits = self.bits;
        if bits == 0 {
            return write!(f, "-");
        }
        let mut separator = "";
        for attribute in ALL {
            if bits & attribute.bit() != 0 {
                let word = attribute.word();
                write!(f, "{separator}{word}")?;
                separator = ",";
            }
        }
        Ok(())
    }
}
