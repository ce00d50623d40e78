//! The file of a resource.

ghost use Rattle.std.specs.Prelude.{◌≡◌, ◌<◌, ◌^◌, Some, option_map, take};
ghost use Rattle.std.specs.List.{flat_map};
ghost use Rattle.fork_folder.specs.Names.{file_name, is_shown, letter, name_text, nth_text};

use crate::folder::Escape;
use std::fmt;

/// The most bytes of a resource's name that the file's name has.
const LONGEST: usize = 72;

/// Whether a byte is in the name of a file as it is.
fn is_shown(byte: u8) -> bool
    ensures { result ≡ is_shown byte }
{
    b' ' <= byte && byte <= b'~' && !b"%/\\:*?\"<>|".contains(&byte)
}

/// A byte of a resource's name.
#[derive(Clone, Copy)]
struct Letter(u8);

impl fmt::Display for Letter {
    ghost output = { λ l. Some (letter l.0) };

    fn fmt<W: fmt::Write>(&self, f: &mut fmt::Formatter<W>) -> fmt::Result {
        if is_shown(self.0) {
            let letter = char::from(self.0);
            write!(f, "{letter}")
        } else {
            let escape = Escape(self.0);
            write!(f, "{escape}")
        }
    }
}

/// Which one a resource is of those with its type and its id, from 0 on.
#[derive(Clone, Copy)]
struct Nth {
    n: usize,
    ghost few: { n < 2 ^ 63 },
}

impl fmt::Display for Nth {
    ghost output = { λ n. Some (nth_text n.n) };

    fn fmt<W: fmt::Write>(&self, f: &mut fmt::Formatter<W>) -> fmt::Result {
        if self.n == 0 {
            return Ok(());
        }
        let count = self.n + 1;
        write!(f, ".{count}")
    }
}

/// Bytes of a resource's name.
#[derive(Clone, Copy)]
struct Letters<'a>(&'a [u8]);

impl fmt::Display for Letters<'_> {
    ghost output = { λ l. Some (flat_map letter l.0.now) };

    fn fmt<W: fmt::Write>(&self, f: &mut fmt::Formatter<W>) -> fmt::Result {
        for byte in self.0 {
            let letter = Letter(*byte);
            write!(f, "{letter}")?;
        }
        Ok(())
    }
}

/// The first bytes of a name.
#[tactic(auto, using(std::proofs::lemmas::List::take_min))]
fn front(name: &[u8]) -> &[u8]
    ensures { result.now ≡ take 72 name.now }
{
    let count = LONGEST.min(name.len());
    &name[..count]
}

/// The first bytes of a resource's name, if it has one, with a blank before them.
#[derive(Clone, Copy)]
struct NamePart<'a>(Option<&'a [u8]>);

impl fmt::Display for NamePart<'_> {
    ghost output = { λ p. Some (name_text (option_map (λ name. name.now) p.0)) };

    fn fmt<W: fmt::Write>(&self, f: &mut fmt::Formatter<W>) -> fmt::Result {
        match self.0 {
            Some(name) => {
                let letters = Letters(front(name));
                write!(f, " {letters}")
            }
            None => Ok(()),
        }
    }
}

/// The name of the file for a resource.
#[derive(Clone, Copy)]
pub(crate) struct FileName<'a> {
    id: i16,
    n: usize,
    name: Option<&'a [u8]>,
    ghost few: { n < 2 ^ 63 },
}

impl<'a> FileName<'a> {
    /// The name for the n-th of those resources, from 0 on, that have one type and this id.
    pub(crate) fn new(id: i16, n: usize, name: Option<&'a [u8]>) -> FileName<'a>
        requires { n < 2 ^ 63 }
        ensures id { result.id ≡ id }
        ensures n { result.n ≡ n }
        ensures name { result.name ≡ name.entry }
    {
        FileName { id, n, name }
    }
}

impl fmt::Display for FileName<'_> {
    ghost output = { λ n. Some (file_name n.id n.n (option_map (λ name. name.now) n.name)) };

    fn fmt<W: fmt::Write>(&self, f: &mut fmt::Formatter<W>) -> fmt::Result {
        let id = self.id;
        let nth = Nth { n: self.n };
        let name = NamePart(self.name);
        write!(f, "{id}{nth}{name}.bin")
    }
}
