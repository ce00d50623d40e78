//! Types and names as text.

ghost use Rattle.std.specs.Prelude.{◌≡◌, ◌<◌, ◌≤◌, ◌==◌, Some, drop, option_map};
ghost use Rattle.std.specs.List.{list_all};
ghost use Rattle.fork_list.specs.Listing.{cell_text, kind_text, name_text};

use crate::letters::Letters;
use crate::{Escaped, Quoted};
use mac_base::resource::ResType;
use std::fmt;

/// The name of a resource if it has one, with a space before it.
#[derive(Clone, Copy)]
pub struct NamePart<'a> {
    letters: Letters,
    name: Option<&'a [u8]>,
}

impl<'a> NamePart<'a> {
    /// The part of a line for this name.
    pub fn new(letters: Letters, name: Option<&'a [u8]>) -> NamePart<'a>
        ensures letters { result.letters ≡ letters }
        ensures name { result.name ≡ name.entry }
    {
        NamePart { letters, name }
    }
}

impl fmt::Display for NamePart<'_> {
    ghost output = { λ p. Some (name_text p.letters (option_map (λ name. name.now) p.name)) };

    fn fmt<W: fmt::Write>(&self, f: &mut fmt::Formatter<W>) -> fmt::Result {
        match self.name {
            Some(name) => {
                let name = Quoted::double(self.letters, name);
                write!(f, " {name}")
            }
            None => Ok(()),
        }
    }
}

/// Whether all bytes are blanks.
fn is_blank(bytes: &[u8]) -> bool
    ensures { result ≡ list_all (λ byte. byte == 32) bytes.now }
{
    bytes.iter().all(|byte| *byte == b' ')
}

/// Whether a type has nothing but blanks from this place on.
fn is_padding(kind: &[u8; 4], at: usize) -> bool
    requires { at ≤ 4 }
    ensures { result ≡ list_all (λ byte. byte == 32) (drop at kind.now) }
{
    let rest = &kind[at..];
    is_blank(rest)
}

/// A byte of a type as a part of a column: a blank is padding at the end, and else `\x20`.
#[derive(Clone, Copy)]
struct KindCell {
    letters: Letters,
    kind: [u8; 4],
    at: usize,
    ghost within: { at < 4 },
}

impl fmt::Display for KindCell {
    ghost output = { λ c. Some (cell_text c.letters c.kind c.at) };

    fn fmt<W: fmt::Write>(&self, f: &mut fmt::Formatter<W>) -> fmt::Result {
        let byte = self.kind[self.at];
        if byte != b' ' {
            let shown = Escaped::single(self.letters, byte);
            write!(f, "{shown}")
        } else if self.at > 0 && is_padding(&self.kind, self.at) {
            write!(f, " ")
        } else {
            write!(f, "\\x20")
        }
    }
}

/// A type as a column of four characters or more, without blanks but at its end: different types give different texts.
#[derive(Clone, Copy)]
pub struct KindText {
    letters: Letters,
    kind: [u8; 4],
}

impl KindText {
    /// The text of a type.
    pub fn new(letters: Letters, kind: ResType) -> KindText
        ensures letters { result.letters ≡ letters }
        ensures kind { result.kind ≡ kind }
    {
        KindText {
            letters,
            kind: kind.bytes(),
        }
    }

    /// The byte at a place, as a part of the column.
    fn cell(&self, at: usize) -> KindCell
        requires { at < 4 }
        ensures letters { result.letters ≡ self.now.letters }
        ensures kind { result.kind ≡ self.now.kind }
        ensures at { result.at ≡ at }
    {
        KindCell {
            letters: self.letters,
            kind: self.kind,
            at,
        }
    }
}

impl fmt::Display for KindText {
    ghost output = { λ k. Some (kind_text k.letters k.kind) };

    fn fmt<W: fmt::Write>(&self, f: &mut fmt::Formatter<W>) -> fmt::Result {
        let first = self.cell(0);
        let second = self.cell(1);
        let third = self.cell(2);
        let fourth = self.cell(3);
        write!(f, "{first}{second}{third}{fourth}")
    }
}
