//! Bytes between quotes.

ghost use Rattle.std.specs.Prelude.{◌≡◌, ◌<◌, Some, true};
ghost use Rattle.std.specs.Fmt.{digit_glyph};
ghost use Rattle.fork_list.specs.Quoted.{escaped, quoted};

use crate::letters::Letters;
use crate::roman::char_of;
use std::fmt;

/// A byte as text: itself or its character, or else `\x` and two hexadecimal digits. A backslash is before the
/// quote and a backslash.
#[derive(Clone, Copy)]
pub struct Escaped {
    letters: Letters,
    quote: u8,
    byte: u8,
    ghost ascii: { quote < 128 },
}

impl Escaped {
    /// The text of a byte between single quotes, or in a column as such.
    pub fn single(letters: Letters, byte: u8) -> Escaped
        ensures letters { result.letters ≡ letters }
        ensures quote { result.quote ≡ 39 }
        ensures byte { result.byte ≡ byte }
    {
        Escaped {
            letters,
            quote: b'\'',
            byte,
        }
    }
}

/// A digit below 16, in upper case.
pub fn hexadecimal_digit(digit: u8) -> char
    requires { digit < 16 }
    ensures { result ≡ digit_glyph true digit }
{
    if digit < 10 {
        char::from(b'0' + digit)
    } else {
        char::from(b'A' - 10 + digit)
    }
}

impl fmt::Display for Escaped {
    ghost output = { λ e. Some (escaped e.letters e.quote e.byte) };

    fn fmt<W: fmt::Write>(&self, f: &mut fmt::Formatter<W>) -> fmt::Result {
        let byte = self.byte;
        if byte == self.quote || byte == b'\\' {
            let marked = char::from(byte);
            return write!(f, "\\{marked}");
        }
        match (byte, self.letters) {
            (b' '..=b'~', _) | (128..=255, Letters::Roman) => {
                let letter = char_of(byte);
                write!(f, "{letter}")
            }
            _ => {
                let high = hexadecimal_digit(byte / 16);
                let low = hexadecimal_digit(byte % 16);
                write!(f, "\\x{high}{low}")
            }
        }
    }
}

/// Bytes between quotes, each escaped where it has to be: different bytes give different texts.
#[derive(Clone, Copy)]
pub struct Quoted<'a> {
    letters: Letters,
    quote: u8,
    bytes: &'a [u8],
    ghost ascii: { quote < 128 },
}

impl<'a> Quoted<'a> {
    /// The bytes of a type, in single quotes.
    pub fn single(letters: Letters, bytes: &'a [u8]) -> Quoted<'a>
        ensures letters { result.letters ≡ letters }
        ensures quote { result.quote ≡ 39 }
        ensures bytes { result.bytes ≡ bytes.entry }
    {
        Quoted {
            letters,
            quote: b'\'',
            bytes,
        }
    }

    /// The bytes of a name, in double quotes.
    pub fn double(letters: Letters, bytes: &'a [u8]) -> Quoted<'a>
        ensures letters { result.letters ≡ letters }
        ensures quote { result.quote ≡ 34 }
        ensures bytes { result.bytes ≡ bytes.entry }
    {
        Quoted {
            letters,
            quote: b'"',
            bytes,
        }
    }
}

impl fmt::Display for Quoted<'_> {
    ghost output = { λ q. Some (quoted q.letters q.quote q.bytes.now) };

    fn fmt<W: fmt::Write>(&self, f: &mut fmt::Formatter<W>) -> fmt::Result {
        let quote = char::from(self.quote);
        write!(f, "{quote}")?;
        for byte in self.bytes {
            let shown = Escaped {
                letters: self.letters,
                quote: self.quote,
                byte: *byte,
            };
            write!(f, "{shown}")?;
        }
        write!(f, "{quote}")
    }
}
