//! Names for the files of a host.

ghost use Rattle.std.specs.Prelude.{◌≡◌, ◌++◌, Some, IfOk, string_bytes};
ghost use Rattle.std.specs.List.{flat_map};
ghost use Rattle.fork_list.specs.Roman.{AreBytes};
ghost use Rattle.image_paths.specs.HostNames.{IsHostName, coded, first_letter, host_name, is_plain, letter};

use fork_list::{char_of, hexadecimal_digit};
use std::alloc::{AllocError, Global};
use std::fmt;

/// Whether a byte is in a host's name as its character: not a control character, `%`, or what parts folders on one of
/// both systems.
fn is_plain(byte: u8) -> bool
    ensures { result ≡ is_plain byte }
{
    byte >= b' ' && byte != 0x7F && byte != b'%' && byte != b'/' && byte != b':'
}

/// A byte as `%` and two digits.
#[derive(Clone, Copy)]
struct Coded(u8);

impl fmt::Display for Coded {
    ghost output = { λ c. Some (coded c.0) };

    fn fmt<W: fmt::Write>(&self, f: &mut fmt::Formatter<W>) -> fmt::Result {
        let high = hexadecimal_digit(self.0 / 16);
        let low = hexadecimal_digit(self.0 % 16);
        write!(f, "%{high}{low}")
    }
}

/// A byte of a name as text.
#[derive(Clone, Copy)]
struct Letter(u8);

impl fmt::Display for Letter {
    ghost output = { λ l. Some (letter l.0) };

    fn fmt<W: fmt::Write>(&self, f: &mut fmt::Formatter<W>) -> fmt::Result {
        if self.0 == b'/' {
            return write!(f, ":");
        }
        if is_plain(self.0) {
            let letter = char_of(self.0);
            return write!(f, "{letter}");
        }
        let coded = Coded(self.0);
        write!(f, "{coded}")
    }
}

/// The first byte of a name as text.
#[derive(Clone, Copy)]
struct FirstLetter(u8);

impl fmt::Display for FirstLetter {
    ghost output = { λ l. Some (first_letter l.0) };

    fn fmt<W: fmt::Write>(&self, f: &mut fmt::Formatter<W>) -> fmt::Result {
        if self.0 == b'.' {
            let coded = Coded(self.0);
            return write!(f, "{coded}");
        }
        let letter = Letter(self.0);
        write!(f, "{letter}")
    }
}

/// Bytes are below 256. It computes nothing.
fn know_bytes(_bytes: &[u8])
    ensures { AreBytes _bytes.now }
{}

/// The text of a name that begins with a byte.
fn letters_text(alloc: Global, first: u8, rest: &[u8]) -> Result<String, AllocError>
    ensures { IfOk result (λ text. string_bytes text ≡ first_letter first ++ flat_map letter rest.now) }
{
    let mut text = String::new(alloc);
    let first = FirstLetter(first);
    write!(text, "{first}")?;
    for byte in rest {
        let letter = Letter(*byte);
        write!(text, "{letter}")?;
    }
    Ok(text)
}

/// The name of a file of a Macintosh as one of a file of the host. `/` is `:`, and control characters, `:`, `%` and a dot
/// at the beginning are `%` and two hexadecimal digits; a name without characters is `%`. So different names give
/// different ones, and none leads to another folder. The only error is that the host has no memory.
#[tactic(auto, using(crate::proofs::HostTexts::percent))]
pub fn text_name(alloc: Global, name: &[u8]) -> Result<String, AllocError>
    ensures text { IfOk result (λ text. string_bytes text ≡ host_name name.now) }
    ensures harmless { IfOk result (λ text. IsHostName (string_bytes text)) }
{
    know_bytes(name);
    match name {
        [first, rest @ ..] => letters_text(alloc, *first, rest),
        [] => Ok(String::from_str(alloc, "%")?),
    }
}
