//! Statements that other programs write, and that aren't read.

ghost use Rattle.std.specs.Prelude.{◌≡◌, option_copied};
ghost use Rattle.std.specs.List.{find};
ghost use Rattle.fork_rez.specs.Reading.{begins, word_of_unread};

use crate::blanks::after_word;
use std::fmt;

/// What begins with a word of Rez's that isn't read.
#[derive(Clone, Copy, Debug, PartialEq, Eq)]
pub enum Unread {
    Resource,
    Read,
    Include,
    TypeDeclaration,
    Change,
    Delete,
    /// A line for the preprocessor.
    Directive,
}

/// All of them.
pub(crate) const UNREADS: &[Unread] = &[
    Unread::Resource,
    Unread::Read,
    Unread::Include,
    Unread::TypeDeclaration,
    Unread::Change,
    Unread::Delete,
    Unread::Directive,
];

impl Unread {
    /// The word.
    fn word(self) -> &'static [u8]
        ensures { result.now ≡ word_of_unread self }
    {
        match self {
            Unread::Resource => b"resource",
            Unread::Read => b"read",
            Unread::Include => b"include",
            Unread::TypeDeclaration => b"type",
            Unread::Change => b"change",
            Unread::Delete => b"delete",
            Unread::Directive => b"#",
        }
    }

    /// Whether a text begins with the word.
    fn begins(self, text: &[u8]) -> bool
        ensures { result ≡ begins text.now self }
    {
        after_word(self.word(), text).is_some()
    }
}

impl fmt::Display for Unread {
    fn fmt<W: fmt::Write>(&self, f: &mut fmt::Formatter<W>) -> fmt::Result {
        match *self {
            Unread::Resource => write!(f, "`resource`"),
            Unread::Read => write!(f, "`read`"),
            Unread::Include => write!(f, "`include`"),
            Unread::TypeDeclaration => write!(f, "`type`"),
            Unread::Change => write!(f, "`change`"),
            Unread::Delete => write!(f, "`delete`"),
            Unread::Directive => write!(f, "a line that begins with # (`#include`)"),
        }
    }
}

/// The first of these that a text begins with.
pub(crate) fn first_at<'a>(unreads: &'a [Unread], text: &[u8]) -> Option<&'a Unread>
    ensures { option_copied result ≡ find (begins text.now) unreads.now }
{
    unreads.iter().find(|unread| unread.begins(text))
}
