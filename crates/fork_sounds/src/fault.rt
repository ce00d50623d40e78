//! Why a resource isn't heard.

use std::alloc::AllocError;
use std::fmt;
use thiserror::Error;

/// The four bytes that name a format of samples.
#[derive(Clone, Copy, Debug, PartialEq, Eq)]
pub struct Format(pub [u8; 4]);

impl fmt::Display for Format {
    fn fmt<W: fmt::Write>(&self, f: &mut fmt::Formatter<W>) -> fmt::Result {
        let Format([first, second, third, fourth]) = *self;
        write!(
            f,
            "{}{}{}{}",
            Letter(first),
            Letter(second),
            Letter(third),
            Letter(fourth)
        )
    }
}

/// A byte of a format's name.
#[derive(Clone, Copy, Debug, PartialEq, Eq)]
struct Letter(u8);

impl fmt::Display for Letter {
    fn fmt<W: fmt::Write>(&self, f: &mut fmt::Formatter<W>) -> fmt::Result {
        let code = self.0;
        if (32..127).contains(&code) {
            write!(f, "{}", code as char)
        } else {
            write!(f, "\\x{code:02X}")
        }
    }
}

/// The number of a compression.
#[derive(Clone, Copy, Debug, PartialEq, Eq)]
pub struct Compression(pub u16);

impl fmt::Display for Compression {
    fn fmt<W: fmt::Write>(&self, f: &mut fmt::Formatter<W>) -> fmt::Result {
        match self.0 {
            1 => f.write_str("ACE 2:1"),
            2 => f.write_str("ACE 8:3"),
            3 => f.write_str("MACE 3:1"),
            4 => f.write_str("MACE 6:1"),
            65534 => f.write_str("of packets that vary in length"),
            number => write!(f, "number {number}"),
        }
    }
}

/// What isn't so of the bytes of a resource. Places and numbers are of bytes.
#[derive(Clone, Copy, Debug, PartialEq, Eq, Error)]
pub enum Fault {
    /// It has more than 16,777,216 bytes.
    #[error("it has more than 16,777,216 bytes")]
    TooLarge,
    /// It has fewer bytes than so many.
    #[error("it has fewer than {0} bytes")]
    Short(u64),
    /// The word at 0, its format, is neither 1 nor 2.
    #[error("the word at 0, its format, is neither 1 nor 2")]
    Kind,
    /// None of its commands plays a sound that is in it.
    #[error("none of its commands plays samples")]
    Silent,
    /// The long word at this place, the address of the samples, isn't 0: they aren't in the resource.
    #[error("the long word at {0}, the address of the samples, isn't 0: they are elsewhere")]
    Elsewhere(u64),
    /// The long word at this place, the rate, is less than half a sample a second.
    #[error("the long word at {0}, the rate, is less than half a sample a second")]
    Rate(u64),
    /// The byte at this place isn't the number of a sound header.
    #[error("the byte at {0} isn't the number of a sound header: 0, 254 or 255")]
    Encoding(u64),
    /// The long word at this place isn't from 1 to 32,767 channels.
    #[error("the long word at {0} isn't from 1 to 32,767 channels")]
    Channels(u64),
    /// The word at this place isn't 8 or 16 bits for a sample, or not those that the format has.
    #[error("the word at {0} isn't 8 or 16 bits for a sample, or not those of the format")]
    Bits(u64),
    /// The samples are compressed in a way that isn't decoded. Its number is the word at this place.
    #[error("the samples are compressed, by the word at {0}: {1}, which isn't decoded")]
    Compressed(u64, Compression),
    /// The samples are in a format that isn't decoded. Its name is at this place.
    #[error("the samples are in the format at {0}, '{1}', which isn't decoded")]
    Unknown(u64, Format),
    /// The long word at this place says that there is no sample.
    #[error("the long word at {0} says that there is no sample")]
    Empty(u64),
    /// The word at this place, the head of a packet of 'ima4', has an index that is more than 88.
    #[error("the word at {0}, the head of a packet, has an index of more than 88")]
    Packet(u64),
}

/// Why there is no sound.
#[derive(Clone, Copy, Debug, PartialEq, Eq, Error)]
pub enum NotHeard {
    /// The bytes aren't such a resource.
    #[error("{0}")]
    Fault(Fault),
    /// The host has no memory.
    #[error("the host has no memory")]
    HostFull,
}

impl From<Fault> for NotHeard {
    ghost use Rattle.std.specs.Prelude.{◌≡◌};
    ghost use Rattle.fork_sounds.specs.declared.fault.NotHeard.TheVariants as unmade;

    ghost from_gives = { λ fault why. why ≡ unmade.Fault fault };

    fn from(fault: Fault) -> NotHeard {
        NotHeard::Fault(fault)
    }
}

impl From<AllocError> for NotHeard {
    ghost use Rattle.std.specs.Prelude.{◌≡◌};
    ghost use Rattle.fork_sounds.specs.declared.fault.NotHeard.TheVariants.{HostFull};

    ghost from_gives = { λ _ why. why ≡ HostFull };

    fn from(_: AllocError) -> NotHeard {
        NotHeard::HostFull
    }
}
