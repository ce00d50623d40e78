//! Why a text can't be read.

ghost use Rattle.std.specs.Prelude.{◌≡◌, length};
ghost use Rattle.fork_rez.specs.declared.fault.ReadError.TheVariants.{HostFull, Refused};

use crate::unread::Unread;
use std::alloc::{AllocError, AllocFailed};
use std::fmt;
use thiserror::Error;

/// What a text should have in a place.
#[derive(Clone, Copy, Debug, PartialEq, Eq)]
pub enum Expected {
    /// The word `data`, or the end of the text.
    Statement,
    /// The word `data`, or the end of the text, where there is what isn't read.
    DataNot(Unread),
    /// This character.
    Mark(u8),
    /// A type: four characters between single quotes.
    Kind,
    /// A number from -32768 to 32767.
    Id,
    /// A name of 255 bytes at most.
    NameInQuotes,
    /// The word for an attribute, or `$` and two hexadecimal digits.
    AttributeWord,
    /// A character between quotes, or the quote at their end.
    Character,
    /// Two hexadecimal digits.
    Digits,
    /// The end of a comment.
    CommentEnd,
    /// The 240 extra bytes and the two of the map's attributes.
    MapBytes,
    /// Anything but the comment with these bytes, which only begins a text.
    MapFirst,
}

impl fmt::Display for Expected {
    fn fmt<W: fmt::Write>(&self, f: &mut fmt::Formatter<W>) -> fmt::Result {
        match *self {
            Expected::Statement => write!(f, "`data` is expected, or the end"),
            Expected::DataNot(unread) => write!(
                f,
                "{unread} isn't read; `data` is expected, or the end"
            ),
            Expected::Mark(byte) => {
                let mark = char::from(byte);
                write!(f, "`{mark}` is expected")
            }
            Expected::Kind => write!(f, "a type of four characters is expected, as 'TEXT'"),
            Expected::Id => write!(f, "an id from -32768 to 32767 is expected"),
            Expected::NameInQuotes => write!(f, "a name of 255 bytes at most is expected"),
            Expected::AttributeWord => write!(
                f,
                "sysheap, purgeable, locked, protected, preload, or $ and two digits is expected"
            ),
            Expected::Character => write!(
                f,
                "a printable character of ASCII is expected, \\0x and two digits for any other, or a quote"
            ),
            Expected::Digits => write!(f, "two hexadecimal digits are expected"),
            Expected::CommentEnd => write!(f, "the end of a comment is expected"),
            Expected::MapBytes => write!(f, "the 242 bytes of the map are expected"),
            Expected::MapFirst => write!(
                f,
                "the comment with the map's bytes is read only where it begins the text: move it there, or remove it"
            ),
        }
    }
}

/// How many bytes of a text are left where it isn't one of `data` statements, and what is expected there.
#[derive(Clone, Copy, Debug, PartialEq, Eq)]
pub(crate) struct Fault {
    pub left: usize,
    pub expected: Expected,
}

/// Why a part of a text isn't read.
#[derive(Clone, Copy, Debug)]
pub(crate) enum ReadError {
    HostFull,
    Refused(Fault),
}

impl From<AllocError> for ReadError {
    ghost from_gives = { λ _ e. e ≡ HostFull };

    fn from(_: AllocError) -> ReadError {
        ReadError::HostFull
    }
}

impl<T: Drop> From<AllocFailed<T>> for ReadError {
    ghost from_gives = { λ _ e. e ≡ HostFull };

    fn from(_: AllocFailed<T>) -> ReadError {
        ReadError::HostFull
    }
}

/// Something else is expected where this text is left.
pub(crate) fn refused(text: &[u8], expected: Expected) -> ReadError
    ensures { result ≡ Refused (record { left = length text.now; expected = expected }) }
{
    ReadError::Refused(Fault {
        left: text.len(),
        expected,
    })
}

/// Where a text isn't one of `data` statements, and what is expected there.
#[derive(Clone, Copy, Debug, PartialEq, Eq)]
pub struct Refusal {
    /// The line, from 1 on.
    pub line: usize,
    pub expected: Expected,
}

impl fmt::Display for Refusal {
    fn fmt<W: fmt::Write>(&self, f: &mut fmt::Formatter<W>) -> fmt::Result {
        let line = self.line;
        let expected = self.expected;
        write!(f, "line {line}: {expected}")
    }
}

/// Why a text isn't read.
#[derive(Clone, Copy, Debug, Error)]
pub enum RezFault {
    /// It isn't one of `data` statements.
    #[error("{0}")]
    Refused(Refusal),
    /// The host has no memory.
    #[error("the host has no memory")]
    HostFull,
}
