//! Texts that are shown character by character.

ghost use Rattle.std.specs.Prelude.{Some};
ghost use Rattle.std.specs.List.{flat_map};
ghost use Rattle.std.specs.Str.{chars};
ghost use Rattle.path_text.specs.FileNames.{coded};
ghost use Rattle.path_text.specs.Ways.{shown_by};

use crate::harm::is_harmful;
use std::fmt;

/// How the characters of a text are shown.
#[derive(Clone, Copy)]
pub(crate) enum Way {
    /// Between double quotes.
    Quoted,
    /// Between single quotes, where none does harm.
    Single,
    /// As they are in a text of lines, but for those that do harm.
    Lines,
    /// As they are in one line, but for those that do harm.
    Line,
}

/// A character that does harm.
#[derive(Clone, Copy)]
struct Coded(char);

impl fmt::Display for Coded {
    ghost output = { λ c. Some (coded c.0) };

    fn fmt<W: fmt::Write>(&self, f: &mut fmt::Formatter<W>) -> fmt::Result {
        let code = u32::from(self.0);
        if code < 128 {
            let high = code / 16;
            let low = code % 16;
            write!(f, "\\x{high:X}{low:X}")
        } else {
            write!(f, "\\u{{{code:X}}}")
        }
    }
}

/// A character that is shown in such a way.
#[derive(Clone, Copy)]
struct Character {
    way: Way,
    character: char,
}

impl fmt::Display for Character {
    ghost output = { λ c. Some (shown_by c.way c.character) };

    fn fmt<W: fmt::Write>(&self, f: &mut fmt::Formatter<W>) -> fmt::Result {
        let character = self.character;
        let coded = Coded(character);
        match (self.way, character) {
            (Way::Quoted, '"' | '\\') => write!(f, "\\{character}"),
            (Way::Single, '\'') => write!(f, "'\\''"),
            (Way::Single, _) | (Way::Lines, '\n') => write!(f, "{character}"),
            _ if is_harmful(character) => write!(f, "{coded}"),
            _ => write!(f, "{character}"),
        }
    }
}

/// The characters of a text, each shown in such a way.
#[derive(Clone, Copy)]
pub(crate) struct Characters<'a> {
    pub(crate) way: Way,
    pub(crate) text: &'a str,
}

impl fmt::Display for Characters<'_> {
    ghost output = { λ c. Some (flat_map (shown_by c.way) (chars c.text.now)) };

    fn fmt<W: fmt::Write>(&self, f: &mut fmt::Formatter<W>) -> fmt::Result {
        for character in self.text.chars() {
            let shown = Character {
                way: self.way,
                character,
            };
            write!(f, "{shown}")?;
        }
        Ok(())
    }
}
