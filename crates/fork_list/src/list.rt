//! A list of resources.

ghost use Rattle.std.specs.Prelude.{◌≡◌, Some, IfOk, option_map, string_bytes, bytes_eq};
ghost use Rattle.std.specs.List.{list_any};
ghost use Rattle.fork_list.specs.Listing.{absent_kind, cells_text, has_kind, is_chosen, listing, row_line, unpacked_text};

use crate::attribute::Attributes;
use crate::letters::Letters;
use crate::shown::{KindText, NamePart};
use crate::size::HasSize;
use mac_base::resource::{ResAttrs, ResType, Resource};
use std::alloc::{AllocError, Global};
use std::fmt;

/// The bytes of a row's name, if it has one.
fn name_of<D>(row: &Resource<D>) -> Option<&[u8]>
    ensures { option_map (λ name. name.now) result ≡ row.now.name }
{
    match &row.name {
        Some(name) => Some(name.as_slice()),
        None => None,
    }
}

/// That a resource is compressed, with its length unpacked; nothing of another one.
#[derive(Clone, Copy)]
struct UnpackedPart(Option<usize>);

impl fmt::Display for UnpackedPart {
    ghost output = { λ p. Some (unpacked_text p.0) };

    fn fmt<W: fmt::Write>(&self, f: &mut fmt::Formatter<W>) -> fmt::Result {
        match self.0 {
            Some(length) => write!(f, " compressed:{length}"),
            None => Ok(()),
        }
    }
}

/// A resource as a line shows it: its type, its id, how many bytes it has, its attributes, its name in double quotes if
/// it has one, and `compressed:` with its length unpacked if it is, with a space or more between them.
#[derive(Clone, Copy)]
pub struct RowText<'a> {
    pub letters: Letters,
    pub kind: ResType,
    pub id: i16,
    pub count: usize,
    pub attributes: ResAttrs,
    pub name: Option<&'a [u8]>,
    pub unpacked: Option<usize>,
}

impl fmt::Display for RowText<'_> {
    ghost output = { λ t. Some (cells_text t.letters t.kind t.id t.count t.attributes (option_map (λ name. name.now) t.name) t.unpacked) };

    fn fmt<W: fmt::Write>(&self, f: &mut fmt::Formatter<W>) -> fmt::Result {
        let kind = KindText::new(self.letters, self.kind);
        let id = self.id;
        let count = self.count;
        let attributes = Attributes::new(self.attributes);
        let name = NamePart::new(self.letters, self.name);
        let unpacked = UnpackedPart(self.unpacked);
        write!(f, "{kind} {id:>6} {count:>8} {attributes}{name}{unpacked}")
    }
}

/// Whether a type is one of these.
fn is_one_of(kinds: &[ResType], kind: ResType) -> bool
    ensures { result ≡ list_any (λ one. bytes_eq one kind) kinds.now }
{
    kinds.iter().any(|one| *one == kind)
}

/// Whether a type is one of these, where none are named for all.
pub fn is_chosen(kinds: &[ResType], kind: ResType) -> bool
    ensures { result ≡ is_chosen kinds.now kind }
{
    kinds.is_empty() || is_one_of(kinds, kind)
}

/// Whether there is a resource of a type.
fn has_kind<D>(rows: &[Resource<D>], kind: ResType) -> bool
    ensures { result ≡ has_kind rows.now kind }
{
    rows.iter().any(|row| row.kind == kind)
}

/// The first of these types of which there is no resource.
pub fn absent_kind<D>(kinds: &[ResType], rows: &[Resource<D>]) -> Option<ResType>
    ensures { result ≡ absent_kind kinds.now rows.now }
{
    kinds.iter().copied().find(|kind| !has_kind(rows, *kind))
}

/// The line of a row, if its type is chosen.
#[derive(Drop)]
struct RowLine<'a, D> {
    letters: Letters,
    kinds: &'a [ResType],
    row: &'a Resource<D>,
}

impl<D: HasSize> fmt::Display for RowLine<'_, D> {
    ghost output = { λ l. Some (row_line D.size D.unpacked l.letters l.kinds.now l.row.now) };

    fn fmt<W: fmt::Write>(&self, f: &mut fmt::Formatter<W>) -> fmt::Result {
        if !is_chosen(self.kinds, self.row.kind) {
            return Ok(());
        }
        let row = self.row;
        let text = RowText {
            letters: self.letters,
            kind: row.kind,
            id: row.id,
            count: row.datum.size(),
            attributes: row.attributes,
            name: name_of(row),
            unpacked: row.datum.unpacked(row.attributes),
        };
        writeln!(f, "{text}")
    }
}

/// A line for each row whose type is chosen, in the order of the rows.
#[derive(Drop)]
struct Lines<'a, D> {
    letters: Letters,
    kinds: &'a [ResType],
    rows: &'a [Resource<D>],
}

impl<D: HasSize> fmt::Display for Lines<'_, D> {
    ghost output = { λ l. Some (listing D.size D.unpacked l.letters l.kinds.now l.rows.now) };

    fn fmt<W: fmt::Write>(&self, f: &mut fmt::Formatter<W>) -> fmt::Result {
        for row in self.rows {
            let line = RowLine {
                letters: self.letters,
                kinds: self.kinds,
                row,
            };
            write!(f, "{line}")?;
        }
        Ok(())
    }
}

/// A list of resources, those of these types, or all where none are named: a line for each in the order of the rows,
/// with its type, its id, how many bytes it has, its attributes, its name, and its length unpacked if it is compressed.
pub fn listing<D: HasSize>(
    alloc: Global,
    letters: Letters,
    kinds: &[ResType],
    rows: &[Resource<D>],
) -> Result<String, AllocError>
    ensures { IfOk result (λ text. string_bytes text ≡ listing D.size D.unpacked letters kinds.now rows.now) }
{
    let lines = Lines {
        letters,
        kinds,
        rows,
    };
    format!(in alloc; "{lines}")
}
