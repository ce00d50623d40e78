//! Texts in messages that may have in them what others wrote.

ghost use Rattle.std.specs.Prelude.{◌≡◌, IfOk, Some, map, string_bytes};
ghost use Rattle.std.specs.List.{flat_map};
ghost use Rattle.std.specs.Str.{chars};
ghost use Rattle.path_text.specs.FileNames.{in_line, tamed};

use crate::characters::{Characters, Way};
use std::alloc::{AllocError, Global};
use std::convert::AsStr;
use std::fmt;

/// A text of lines: its characters that do harm, but for the ends of lines, are `\x1B` in ASCII, and else `\u{202E}`.
#[derive(Clone, Copy)]
pub struct Lines<'a>(pub &'a str);

impl fmt::Display for Lines<'_> {
    ghost output = { λ l. Some (flat_map tamed (chars l.0.now)) };

    fn fmt<W: fmt::Write>(&self, f: &mut fmt::Formatter<W>) -> fmt::Result {
        let text = self.0;
        let characters = Characters {
            way: Way::Lines,
            text,
        };
        write!(f, "{characters}")
    }
}

/// A text of one line: the ends of lines in it are shown so too.
#[derive(Clone, Copy)]
pub struct Line<'a>(pub &'a str);

impl fmt::Display for Line<'_> {
    ghost output = { λ l. Some (flat_map in_line (chars l.0.now)) };

    fn fmt<W: fmt::Write>(&self, f: &mut fmt::Formatter<W>) -> fmt::Result {
        let text = self.0;
        let characters = Characters {
            way: Way::Line,
            text,
        };
        write!(f, "{characters}")
    }
}

/// Each of these texts as it is shown in a line. An error comes where the host has no memory for them.
pub fn in_lines<S: AsStr>(alloc: Global, texts: &[S]) -> Result<Vec<String>, AllocError>
    ensures { IfOk result (λ shown. map string_bytes shown.items ≡ map (λ text. flat_map in_line (chars (S.text text))) texts.now) }
{
    let mut shown = Vec::new(alloc);
    for text in texts {
        let line = Line(text.as_str());
        shown.push(format!(in alloc; "{line}")?)?;
    }
    Ok(shown)
}
