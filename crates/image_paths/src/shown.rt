//! Names in paths that are printed.

ghost use Rattle.std.specs.Prelude.{◌≡◌, Some};
ghost use Rattle.std.specs.List.{flat_map};
ghost use Rattle.image_paths.specs.Shown.{letter, name_text};

use fork_list::Escaped;
use fork_list::letters::Letters;
use std::fmt;

/// A byte of a name in a path.
#[derive(Clone, Copy)]
struct Letter {
    letters: Letters,
    byte: u8,
}

impl fmt::Display for Letter {
    ghost output = { λ l. Some (letter l.letters l.byte) };

    fn fmt<W: fmt::Write>(&self, f: &mut fmt::Formatter<W>) -> fmt::Result {
        match self.byte {
            b'/' => write!(f, ":"),
            b':' => write!(f, "\\x3A"),
            b'\'' => write!(f, "'"),
            byte => {
                let shown = Escaped::single(self.letters, byte);
                write!(f, "{shown}")
            }
        }
    }
}

/// A name as `ImagePath::parse` reads it: `/` as `:`, a colon and what can't be printed as `\x` and two hexadecimal digits, and
/// a backslash twice.
#[derive(Clone, Copy)]
pub struct NameText<'a> {
    letters: Letters,
    name: &'a [u8],
}

impl<'a> NameText<'a> {
    /// The text of a name.
    pub fn new(letters: Letters, name: &'a [u8]) -> NameText<'a>
        ensures letters { result.letters ≡ letters }
        ensures name { result.name ≡ name.entry }
    {
        NameText { letters, name }
    }
}

impl fmt::Display for NameText<'_> {
    ghost output = { λ n. Some (name_text n.letters n.name.now) };

    fn fmt<W: fmt::Write>(&self, f: &mut fmt::Formatter<W>) -> fmt::Result {
        for byte in self.name {
            let shown = Letter {
                letters: self.letters,
                byte: *byte,
            };
            write!(f, "{shown}")?;
        }
        Ok(())
    }
}
