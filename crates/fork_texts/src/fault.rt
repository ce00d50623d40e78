//! Why texts aren't put.

ghost use Rattle.std.specs.Prelude.{◌≡◌, length};
ghost use Rattle.fork_texts.specs.declared.fault.ReadError.TheVariants.{HostFull, Refused};

use std::alloc::{AllocError, AllocFailed};
use std::fmt;
use thiserror::Error;

/// What is wrong in a place.
#[derive(Clone, Copy, Debug)]
pub enum Why {
    /// A character that MacRoman lacks.
    Letter,
    /// No type of one to four characters.
    Kind,
    /// No number from -32768 to 32767.
    Id,
    /// No place of a text.
    Place,
    /// No text between quotes.
    Quote,
    /// No character of a text.
    Character,
    /// Something after the text.
    LineEnd,
    /// No such text is in the file.
    NotThere,
    /// The text is in the file, but another line was for it, or for one after it.
    Order,
    /// The resource can't have this text.
    Unfit,
}

impl fmt::Display for Why {
    fn fmt<W: fmt::Write>(&self, f: &mut fmt::Formatter<W>) -> fmt::Result {
        match *self {
            Why::Letter => write!(f, "MacRoman has no such letter: write another one"),
            Why::Kind => write!(f, "a type of one to four characters is expected, as MENU"),
            Why::Id => write!(f, "an id from -32768 to 32767 is expected"),
            Why::Place => write!(
                f,
                "title, short, long, name, a number as [1], or a text in double quotes is expected"
            ),
            Why::Quote => write!(f, "a text in double quotes is expected"),
            Why::Character => write!(
                f,
                "a character, \\n for the end of a line, \\t, \\\", \\\\, \\x and two digits, or the quote at the end is expected"
            ),
            Why::LineEnd => write!(f, "the end of the line is expected after the text"),
            Why::NotThere => write!(f, "the file has no such text: remove the line"),
            Why::Order => write!(
                f,
                "a line before is for this text or for one after it: each text has one line, in the order of the file"
            ),
            Why::Unfit => write!(
                f,
                "the resource can't have this text: all but that of a TEXT have 255 letters at most, and an item of a menu has one at least"
            ),
        }
    }
}

/// How many bytes of a text are left where something is wrong, and what.
#[derive(Clone, Copy)]
pub(crate) struct Fault {
    pub left: usize,
    pub why: Why,
}

/// Why a part of a text isn't read.
#[derive(Clone, Copy)]
pub(crate) enum ReadError {
    HostFull,
    Refused(Fault),
}

impl From<AllocError> for ReadError {
    ghost from_gives = { λ _ e. e ≡ HostFull };

    fn from(_: AllocError) -> ReadError {
        ReadError::HostFull
    }
}

impl<T: Drop> From<AllocFailed<T>> for ReadError {
    ghost from_gives = { λ _ e. e ≡ HostFull };

    fn from(_: AllocFailed<T>) -> ReadError {
        ReadError::HostFull
    }
}

/// Something is wrong where this text is left.
pub(crate) fn refused(text: &[u8], why: Why) -> ReadError
    ensures { result ≡ Refused (record { left = length text.now; why = why }) }
{
    ReadError::Refused(Fault {
        left: text.len(),
        why,
    })
}

/// Where lines of texts are wrong, and what is.
#[derive(Clone, Copy, Debug)]
pub struct Refusal {
    /// The line, from 1 on.
    pub line: usize,
    /// The character of the line, from 1 on.
    pub column: usize,
    pub why: Why,
}

impl fmt::Display for Refusal {
    fn fmt<W: fmt::Write>(&self, f: &mut fmt::Formatter<W>) -> fmt::Result {
        let line = self.line;
        let column = self.column;
        let why = self.why;
        write!(f, "line {line}, column {column}: {why}")
    }
}

/// Why texts aren't put.
#[derive(Clone, Copy, Debug, Error)]
pub enum TextFault {
    /// Something is wrong with the lines.
    #[error("{0}")]
    Refused(Refusal),
    /// The host has no memory.
    #[error("the host has no memory")]
    HostFull,
}
