//! Names of files as words for a shell.

ghost use Rattle.std.specs.Prelude.{◌≡◌, Some};
ghost use Rattle.std.specs.List.{flat_map, list_all};
ghost use Rattle.path_text.specs.ShellWords.{begins_word, is_bare, is_bare_word, is_shown, octal, prefix, shell_word};

use crate::characters::{Characters, Way};
use crate::harm::has_harmful;
use std::fmt;

/// Whether a shell takes a byte as it is.
fn is_bare(byte: u8) -> bool
    ensures { result ≡ is_bare byte }
{
    byte.is_ascii_digit()
        || byte.is_ascii_uppercase()
        || byte.is_ascii_lowercase()
        || b"_-./,:+@%=".contains(&byte)
}

/// Whether a shell takes each of these bytes as it is.
fn are_bare(bytes: &[u8]) -> bool
    ensures { result ≡ list_all is_bare bytes.now }
{
    bytes.iter().all(|byte| is_bare(*byte))
}

/// Whether a word has bytes, and doesn't begin with `=`.
fn begins_word(word: &[u8]) -> bool
    ensures { result ≡ begins_word word.now }
{
    !matches!(word, [] | [b'=', ..])
}

/// Whether a shell takes a word as it is.
fn is_bare_word(word: &[u8]) -> bool
    ensures { result ≡ is_bare_word word.now }
{
    begins_word(word) && are_bare(word)
}

/// Whether a byte is itself between `$'` and `'`.
fn is_shown(byte: u8) -> bool
    ensures { result ≡ is_shown byte }
{
    b' ' <= byte && byte <= b'~' && !b"'\\!".contains(&byte)
}

/// A byte between `$'` and `'`.
#[derive(Clone, Copy)]
struct Octal(u8);

impl fmt::Display for Octal {
    ghost output = { λ o. Some (octal o.0) };

    fn fmt<W: fmt::Write>(&self, f: &mut fmt::Formatter<W>) -> fmt::Result {
        let byte = self.0;
        if is_shown(byte) {
            let letter = char::from(byte);
            return write!(f, "{letter}");
        }
        let high = byte / 64;
        let middle = byte / 8 % 8;
        let low = byte % 8;
        write!(f, "\\{high}{middle}{low}")
    }
}

/// The bytes of a name between `$'` and `'`.
#[derive(Clone, Copy)]
struct Coded<'a>(&'a [u8]);

impl fmt::Display for Coded<'_> {
    ghost output = { λ c. Some (flat_map octal c.0.now) };

    fn fmt<W: fmt::Write>(&self, f: &mut fmt::Formatter<W>) -> fmt::Result {
        for byte in self.0 {
            let shown = Octal(*byte);
            write!(f, "{shown}")?;
        }
        Ok(())
    }
}

/// What is before a name that begins with a hyphen.
fn prefix(name: &str) -> &'static str
    ensures { result.now ≡ prefix name.now }
{
    match name.as_bytes() {
        [b'-', ..] => "./",
        _ => "",
    }
}

/// The name of a file or a folder as a word that can be typed: a shell reads it back as these bytes. A name that begins
/// with a hyphen has `./` before it, since it were an option else. Letters, digits and `_-./,:+@%=` are as they are,
/// others are between single quotes; and a name that has characters that do harm is between `$'` and `'`, which bash,
/// zsh and ksh read, with three octal digits for each of its bytes that isn't printable ASCII.
#[derive(Clone, Copy)]
pub struct ShellWord<'a>(pub &'a str);

impl fmt::Display for ShellWord<'_> {
    ghost output = { λ w. Some (shell_word w.0.now) };

    fn fmt<W: fmt::Write>(&self, f: &mut fmt::Formatter<W>) -> fmt::Result {
        let name = self.0;
        let prefix = prefix(name);
        if has_harmful(name) {
            let coded = Coded(name.as_bytes());
            write!(f, "{prefix}$'{coded}'")
        } else if is_bare_word(name.as_bytes()) {
            write!(f, "{prefix}{name}")
        } else {
            let singles = Characters {
                way: Way::Single,
                text: name,
            };
            write!(f, "{prefix}'{singles}'")
        }
    }
}
