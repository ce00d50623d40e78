//! Why a text isn't read.

ghost use Rattle.std.specs.Prelude.{◌≡◌, length};
ghost use Rattle.type_source.specs.declared.fault.ReadError.TheVariants.{HostFull, Refused};

use std::alloc::{AllocError, AllocFailed};
use std::fmt;

/// What a text should have in a place.
#[derive(Clone, Copy, Debug, PartialEq, Eq)]
pub enum Expected {
    /// A word, a number, a text in quotes or a mark.
    Token,
    /// The end of a comment.
    CommentEnd,
    /// A word.
    Word,
    /// Digits of a number below 2^32.
    Digits,
    /// The quote at the end, before the line ends. A backslash isn't read.
    Quote(u8),
    /// This mark.
    Mark(u8),
    /// A name.
    Name,
    /// A number.
    Number,
    /// A field.
    Field,
    /// From 1 to 32 bits, in brackets.
    Bits,
    /// A number, or characters in quotes.
    Constant,
    /// A number that fits its bits.
    Fitting,
    /// A unit, as `byte`.
    Unit,
    /// `byte`, `word` or `long`.
    AlignUnit,
    /// Fewer bits.
    Length,
    /// At most 255 bytes.
    PascalLength,
    /// The number 1.
    One,
    /// `$$CountOf`: no other function is read.
    CountOf,
    /// A count in `byte`, `integer` or `longint`.
    CountSize,
    /// The array that is counted.
    Counted,
    /// A number that is always the same, or the end.
    ArrayEnd,
    /// A number or a fill.
    BeforeKey,
    /// A key that is always the same number.
    KeyNumber,
    /// A case.
    Case,
    /// What goes on to the last bit, only where the type ends.
    Last,
    /// Fewer fields and braces.
    Less,
    /// A type: four characters in single quotes.
    Kind,
    /// An id from -32768 to 32767.
    Id,
    /// The word `type`, or the end.
    Type,
    /// A text of at most 1 MiB.
    Shorter,
}

impl fmt::Display for Expected {
    fn fmt<W: fmt::Write>(&self, f: &mut fmt::Formatter<W>) -> fmt::Result {
        match *self {
            Expected::Token => write!(f, "a word, a number, quotes or a mark is expected"),
            Expected::CommentEnd => write!(f, "this comment has no end: */ is expected"),
            Expected::Word => write!(f, "a word is expected"),
            Expected::Digits => write!(f, "digits of a number below 2^32 are expected"),
            Expected::Quote(quote) => {
                let quote = char::from(quote);
                write!(
                    f,
                    "the {quote} that ends a text is expected; \\ isn't read yet"
                )
            }
            Expected::Mark(mark) => {
                let mark = char::from(mark);
                write!(f, "`{mark}` is expected")
            }
            Expected::Name => write!(f, "a name is expected"),
            Expected::Number => write!(f, "a number is expected"),
            Expected::Field => write!(
                f,
                "a field is expected, as `integer;`; a label isn't read yet"
            ),
            Expected::Bits => write!(f, "from 1 to 32 bits are expected, as [7]"),
            Expected::Constant => write!(
                f,
                "a number, or up to four characters in quotes, is expected"
            ),
            Expected::Fitting => write!(f, "a number that fits the field is expected"),
            Expected::Unit => write!(f, "bit, nibble, byte, word or long is expected"),
            Expected::AlignUnit => write!(f, "byte, word or long is expected"),
            Expected::Length => write!(f, "fewer than 2^32 bits are expected"),
            Expected::PascalLength => write!(f, "at most 255 bytes are expected"),
            Expected::One => write!(f, "1 is expected"),
            Expected::CountOf => write!(f, "$$CountOf is expected; no other function is read yet"),
            Expected::CountSize => write!(
                f,
                "a byte, an integer or a longint is expected for a count"
            ),
            Expected::Counted => write!(f, "the array that was counted is expected"),
            Expected::ArrayEnd => write!(
                f,
                "a number that ends the array is expected, as `byte = 0;`"
            ),
            Expected::BeforeKey => write!(f, "a number or a fill is expected before a key"),
            Expected::KeyNumber => write!(
                f,
                "a key with its number is expected, as `key byte = 4;`"
            ),
            Expected::Case => write!(f, "a case is expected"),
            Expected::Last => write!(
                f,
                "what goes on to the end is expected only at the end of a type"
            ),
            Expected::Less => write!(f, "at most 300 fields, braces, names or types are expected"),
            Expected::Kind => write!(f, "a type of four characters is expected, as 'STR#'"),
            Expected::Id => write!(f, "an id from -32768 to 32767 is expected"),
            Expected::Type => write!(f, "`type` is expected, or the end"),
            Expected::Shorter => write!(f, "at most 1048576 bytes are expected"),
        }
    }
}

/// How many bytes, or tokens, are left where something else is expected.
#[derive(Clone, Copy, Debug, PartialEq, Eq)]
pub struct Fault {
    pub left: usize,
    pub expected: Expected,
}

/// Why a part of a text isn't read.
#[derive(Clone, Copy, Debug)]
pub enum ReadError {
    HostFull,
    Refused(Fault),
}

impl From<AllocError> for ReadError {
    ghost from_gives = { λ _ e. e ≡ HostFull };

    fn from(_: AllocError) -> ReadError {
        ReadError::HostFull
    }
}

impl<T: Drop> From<AllocFailed<T>> for ReadError {
    ghost from_gives = { λ _ e. e ≡ HostFull };

    fn from(_: AllocFailed<T>) -> ReadError {
        ReadError::HostFull
    }
}

/// Something else is expected where this is left.
pub(crate) fn refused<T>(left: &[T], expected: Expected) -> ReadError {
    ReadError::Refused(Fault {
        left: left.len(),
        expected,
    })
}
