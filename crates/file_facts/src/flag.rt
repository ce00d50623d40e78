//! The Finder flags of a file by their names.

ghost use Rattle.std.specs.Prelude.{◌≡◌, ◌++◌, IfOk, OnOk};
ghost use Rattle.file_facts.specs.Flags.{all_flags, bit_of, color, is_set, set_among, word_of};

use std::alloc::{AllocError, Global};
use std::fmt;

/// A Finder flag. Three bits have no name.
#[derive(Clone, Copy, Debug, PartialEq, Eq)]
pub enum Flag {
    IsAlias,
    IsInvisible,
    HasBundle,
    NameLocked,
    IsStationery,
    HasCustomIcon,
    Bit9,
    HasBeenInited,
    HasNoInits,
    IsShared,
    Bit5,
    Bit4,
    IsOnDesk,
}

impl Flag {
    /// Its bit.
    pub fn bit(self) -> u16
        ensures { result ≡ bit_of self }
    {
        match self {
            Flag::IsAlias => 0x8000,
            Flag::IsInvisible => 0x4000,
            Flag::HasBundle => 0x2000,
            Flag::NameLocked => 0x1000,
            Flag::IsStationery => 0x0800,
            Flag::HasCustomIcon => 0x0400,
            Flag::Bit9 => 0x0200,
            Flag::HasBeenInited => 0x0100,
            Flag::HasNoInits => 0x0080,
            Flag::IsShared => 0x0040,
            Flag::Bit5 => 0x0020,
            Flag::Bit4 => 0x0010,
            Flag::IsOnDesk => 0x0001,
        }
    }

    /// The word for it.
    pub fn word(self) -> &'static str
        ensures { result.now ≡ word_of self }
    {
        match self {
            Flag::IsAlias => "isAlias",
            Flag::IsInvisible => "isInvisible",
            Flag::HasBundle => "hasBundle",
            Flag::NameLocked => "nameLocked",
            Flag::IsStationery => "isStationery",
            Flag::HasCustomIcon => "hasCustomIcon",
            Flag::Bit9 => "bit9",
            Flag::HasBeenInited => "hasBeenInited",
            Flag::HasNoInits => "hasNoINITs",
            Flag::IsShared => "isShared",
            Flag::Bit5 => "bit5",
            Flag::Bit4 => "bit4",
            Flag::IsOnDesk => "isOnDesk",
        }
    }

    /// Whether it is one of these flags.
    fn is_set(self, flags: u16) -> bool
        ensures { result ≡ is_set flags self }
    {
        flags & self.bit() != 0
    }
}

impl fmt::Display for Flag {
    fn fmt<W: fmt::Write>(&self, f: &mut fmt::Formatter<W>) -> fmt::Result {
        f.write_str(self.word())
    }
}

/// Adds those of these flags that are set.
fn push_set(set: &mut Vec<Flag>, all: &[Flag], flags: u16) -> Result<(), AllocError>
    ensures { OnOk result (set.new.items ≡ set.old.items ++ set_among flags all.now) }
{
    for flag in all {
        if flag.is_set(flags) {
            set.push(*flag)?;
        }
    }
    Ok(())
}

/// The flags that are set but the color, the highest bit first.
pub fn flags_of(alloc: Global, flags: u16) -> Result<Vec<Flag>, AllocError>
    ensures { IfOk result (λ set. set.items ≡ set_among flags all_flags) }
{
    let all = [
        Flag::IsAlias,
        Flag::IsInvisible,
        Flag::HasBundle,
        Flag::NameLocked,
        Flag::IsStationery,
        Flag::HasCustomIcon,
        Flag::Bit9,
        Flag::HasBeenInited,
        Flag::HasNoInits,
        Flag::IsShared,
        Flag::Bit5,
        Flag::Bit4,
        Flag::IsOnDesk,
    ];
    let mut set = Vec::new(alloc);
    push_set(&mut set, &all, flags)?;
    Ok(set)
}

/// The number of the color, from 1 to 7; 0 for none.
pub fn color_of(flags: u16) -> u16
    ensures { result ≡ color flags }
{
    flags / 2 % 8
}
