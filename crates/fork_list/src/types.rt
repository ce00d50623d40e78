//! A list of types.

ghost use Rattle.std.specs.Prelude.{◌≡◌, Some, None, IfOk, string_bytes};
ghost use Rattle.fork_list.specs.Types.{begins_type, counted_line, type_lines};

use crate::counts::{count_of, counts_of};
use crate::letters::Letters;
use crate::list::is_chosen;
use crate::shown::KindText;
use mac_base::resource::{ResType, Resource};
use std::alloc::{AllocError, Global};
use std::fmt;

/// Whether a row after one of this type, or after none, is the first of its own.
fn begins_type(before: Option<ResType>, kind: ResType) -> bool
    ensures { result ≡ begins_type before kind }
{
    match before {
        Some(other) => other != kind,
        None => true,
    }
}

/// The line of a type, at its first row: the type, and how many rows have it. Nothing at other rows, and where the type
/// isn't chosen.
#[derive(Drop)]
struct TypeLine<'a> {
    letters: Letters,
    kinds: &'a [ResType],
    before: Option<ResType>,
    kind: ResType,
    count: usize,
}

impl fmt::Display for TypeLine<'_> {
    ghost output = { λ l. Some (counted_line l.letters l.kinds.now l.before l.kind l.count) };

    fn fmt<W: fmt::Write>(&self, f: &mut fmt::Formatter<W>) -> fmt::Result {
        if !begins_type(self.before, self.kind) || !is_chosen(self.kinds, self.kind) {
            return Ok(());
        }
        let kind = KindText::new(self.letters, self.kind);
        let count = self.count;
        writeln!(f, "{kind} {count:>6}")
    }
}

/// A list of types, these ones or all where none are named: a line for each with the type, and how many rows have it.
pub fn types_listing<D>(
    alloc: Global,
    letters: Letters,
    kinds: &[ResType],
    rows: &[Resource<D>],
) -> Result<String, AllocError>
    ensures { IfOk result (λ text. string_bytes text ≡ type_lines letters kinds.now rows.now None rows.now) }
{
    let counts = counts_of(alloc, rows)?;
    let mut text = String::new(alloc);
    let mut before = None;
    for row in rows {
        let kind = row.kind;
        let line = TypeLine {
            letters,
            kinds,
            before,
            kind,
            count: count_of(&counts, kind),
        };
        write!(text, "{line}")?;
        before = Some(kind);
    }
    Ok(text)
}
