//! The folder of a type.

ghost use Rattle.std.specs.Prelude.{◌≡◌, Some};
ghost use Rattle.fork_folder.specs.Names.{escaped, folder_name, is_capital, is_plain, is_small, plain_name, plain_symbol, symbol, turned};

use fork_list::hexadecimal_digit;
use mac_base::resource::ResType;
use std::fmt;

/// A byte that a file's name can't have as it is: `%` and two hexadecimal digits.
#[derive(Clone, Copy)]
pub(crate) struct Escape(pub u8);

impl fmt::Display for Escape {
    ghost output = { λ e. Some (escaped e.0) };

    fn fmt<W: fmt::Write>(&self, f: &mut fmt::Formatter<W>) -> fmt::Result {
        let high = hexadecimal_digit(self.0 / 16);
        let low = hexadecimal_digit(self.0 % 16);
        write!(f, "%{high}{low}")
    }
}

/// Whether a byte is a capital letter of ASCII.
fn is_capital(byte: u8) -> bool
    ensures { result ≡ is_capital byte }
{
    b'A' <= byte && byte <= b'Z'
}

/// Whether a byte is a small letter of ASCII.
fn is_small(byte: u8) -> bool
    ensures { result ≡ is_small byte }
{
    b'a' <= byte && byte <= b'z'
}

/// Whether a byte that is no letter stands for itself.
fn is_plain(byte: u8) -> bool
    ensures { result ≡ is_plain byte }
{
    b'0' <= byte && byte <= b'9' || byte == b'#' || byte == b'+' || byte == b'-'
}

/// A byte of a type, after a small letter or not.
#[derive(Clone, Copy)]
struct Symbol {
    is_small: bool,
    byte: u8,
}

impl Symbol {
    /// Whether the letters after this byte are small where no mark is before them.
    fn turned(self) -> bool
        ensures { result ≡ turned self.is_small self.byte }
    {
        if is_capital(self.byte) {
            false
        } else if is_small(self.byte) {
            true
        } else {
            self.is_small
        }
    }

    /// The symbol of the byte that follows this one.
    fn next(self, byte: u8) -> Symbol
        ensures small { result.is_small ≡ turned self.is_small self.byte }
        ensures byte { result.byte ≡ byte }
    {
        Symbol {
            is_small: self.turned(),
            byte,
        }
    }
}

impl fmt::Display for Symbol {
    ghost output = { λ s. Some (symbol s.is_small s.byte) };

    fn fmt<W: fmt::Write>(&self, f: &mut fmt::Formatter<W>) -> fmt::Result {
        let byte = self.byte;
        let letter = char::from(byte);
        let is_letter = is_capital(byte) || is_small(byte);
        if is_letter && is_small(byte) != self.is_small {
            write!(f, "~{letter}")
        } else if is_letter || is_plain(byte) {
            write!(f, "{letter}")
        } else if byte == b' ' {
            write!(f, "_")
        } else {
            let escape = Escape(byte);
            write!(f, "{escape}")
        }
    }
}

/// A byte of a type where letters are as they are.
#[derive(Clone, Copy)]
struct PlainSymbol(u8);

impl fmt::Display for PlainSymbol {
    ghost output = { λ s. Some (plain_symbol s.0) };

    fn fmt<W: fmt::Write>(&self, f: &mut fmt::Formatter<W>) -> fmt::Result {
        let byte = self.0;
        let letter = char::from(byte);
        if is_capital(byte) || is_small(byte) || is_plain(byte) {
            write!(f, "{letter}")
        } else if byte == b' ' {
            write!(f, "_")
        } else {
            let escape = Escape(byte);
            write!(f, "{escape}")
        }
    }
}

/// The plain name of the folder for a type. A file system that knows no case takes those of types that differ in it for
/// one.
#[derive(Clone, Copy)]
pub(crate) struct PlainName(pub ResType);

impl fmt::Display for PlainName {
    ghost output = { λ n. Some (plain_name n.0) };

    fn fmt<W: fmt::Write>(&self, f: &mut fmt::Formatter<W>) -> fmt::Result {
        let [first, second, third, fourth] = self.0.bytes();
        let first = PlainSymbol(first);
        let second = PlainSymbol(second);
        let third = PlainSymbol(third);
        let fourth = PlainSymbol(fourth);
        write!(f, "{first}{second}{third}{fourth}")
    }
}

/// The name of the folder for a type that clashes with another: capital letters as they are, and `~` before a letter
/// whose case is another than that of the letter before it. Types that differ have folders that differ, for a file
/// system that knows no case too.
#[derive(Clone, Copy)]
pub(crate) struct MarkedName(pub ResType);

impl fmt::Display for MarkedName {
    ghost output = { λ n. Some (folder_name n.0) };

    fn fmt<W: fmt::Write>(&self, f: &mut fmt::Formatter<W>) -> fmt::Result {
        let [first, second, third, fourth] = self.0.bytes();
        let first = Symbol {
            is_small: false,
            byte: first,
        };
        let second = first.next(second);
        let third = second.next(third);
        let fourth = third.next(fourth);
        write!(f, "{first}{second}{third}{fourth}")
    }
}
