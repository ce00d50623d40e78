//! Whether the current file fits a fork with one more resource.

ghost use Rattle.std.specs.Prelude.{◌≡◌, ◌+◌, ◌-◌, ◌≤◌, ◌↔◌, ◌++◌, ◌∷◌, List, ℕ, false, length, take, drop, IsTrue};
ghost use Rattle.std.specs.Option.{option_copied, option_map_or};
ghost use Rattle.fork_bytes.specs.Fork.{max_rows};
ghost use Rattle.fork_bytes.specs.Written.{name_text};
ghost use Rattle.fork_bytes.specs.declared.place.Place.{Place};
ghost use Rattle.mac_base.specs.declared.resource.Resource.{Resource};
ghost use Rattle.res_table.specs.declared.row.Row.{Row};
ghost use Rattle.res_table.specs.After.{end_of_type};
ghost use Rattle.res_table.specs.Rows.{added, names_size};
ghost use Rattle.res_table.specs.Saved.{bare, row_types};
ghost use Rattle.res_update.specs.Changes.{FileRow, current_rows};
ghost use Rattle.res_update.specs.Fitting.{rows_fit, names_fit};

use crate::current::current_rows;
use crate::files::ResourceFiles;
use fork_bytes::layout::MAX_ROWS;
use fork_bytes::place::Place;
use fork_disk::store::ForkStore;
use mac_base::resource::ResType;
use res_table::row::Row;
use res_table::rows::Rows;

/// The largest offset of a name: one more says that there is none.
const MAX_NAME_OFFSET: usize = 65534;

/// The largest offset of a list in the map.
const MAX_OFFSET: usize = 65535;

/// Where a new row of a type belongs.
fn end_of_type(rows: &Rows<Place>, kind: ResType) -> usize
    ensures { result ≡ end_of_type kind rows.now }
{
    let end = rows.len();
    match rows.index_of_ith(kind, rows.count_of_type(kind)) {
        Some(last) => last + 1,
        None => end,
    }
}

/// How many types rows have with one more of this type.
fn types_with(rows: &Rows<Place>, kind: ResType) -> usize
    requires { length rows.now ≤ max_rows }
    ensures types { (r : Row Place) → r.resource.kind ≡ kind → result ≡ length (row_types (added r rows.now)) }
    ensures few { result ≤ length rows.now + 1 }
{
    let types = rows.count_types();
    if rows.count_of_type(kind) == 0 {
        types + 1
    } else {
        types
    }
}

/// The name of a row.
fn name_of(row: &Row<Place>) -> Option<&[u8]>
    ensures { option_copied result ≡ row.now.resource.name }
{
    match &row.resource.name {
        Some(name) => Some(name.as_slice()),
        None => None,
    }
}

/// The offset after a name that is to be at this one, if two bytes hold that.
fn after(start: usize, name: Option<&[u8]>) -> Option<usize>
    ensures { (row : Resource (List ℕ)) → (rest : List (Resource (List ℕ))) → row.name ≡ option_copied name.entry
        → names_fit start (row ∷ rest) ≡ option_map_or (λ end. names_fit end rest) result false }
{
    let Some(name) = name else {
        return Some(start);
    };
    if start > MAX_NAME_OFFSET {
        return None;
    }
    Some(start + 1 + name.len())
}

/// The offset after the names of the rows between two indexes, where the first is to be at this one, if two bytes hold
/// each.
fn names_end(rows: &Rows<Place>, from: usize, to: usize, start: usize) -> Option<usize>
    requires order { from ≤ to }
    requires within { to ≤ length rows.now }
    ensures { (rest : List (Resource (List ℕ))) → names_fit start (bare (take (to - from) (drop from rows.now)) ++ rest)
        ≡ option_map_or (λ end. names_fit end rest) result false }
{
    let mut next = start;
    let mut at = from;
    while at < to {
        next = after(next, name_of(rows.row(at)))?;
        at += 1;
    }
    Some(next)
}

/// Whether two bytes hold the offset of each name, with one more name at an index.
fn names_fit_with(rows: &Rows<Place>, at: usize, name: Option<&[u8]>) -> bool
    requires { at ≤ length rows.now }
    ensures { (row : Resource (List ℕ)) → row.name ≡ option_copied name.entry → result ≡ names_fit 0 (bare (take at rows.now) ++ row ∷ bare (drop at rows.now)) }
{
    let Some(here) = names_end(rows, 0, at, 0) else {
        return false;
    };
    let Some(next) = after(here, name) else {
        return false;
    };
    names_end(rows, at, rows.len(), next).is_some()
}

/// How many bytes a name takes, with its byte of length.
fn size_of(name: Option<&[u8]>) -> usize
    ensures { result ≡ length (name_text (option_copied name.entry)) }
{
    match name {
        Some(name) => 1 + name.len(),
        None => 0,
    }
}

/// Whether the names take so few bytes, with one more, that two bytes hold each offset in whatever order they are.
fn names_are_few(rows: &Rows<Place>, name: Option<&[u8]>) -> bool
    ensures { IsTrue result ↔ (names_size rows.now + length (name_text (option_copied name.entry)) ≤ 65535) }
{
    let size = rows.names_size();
    size <= MAX_OFFSET && size_of(name) <= MAX_OFFSET - size
}

/// Whether rows fit a fork with one more. The rows are gone through only where the names take many bytes.
fn fits_with(rows: &Rows<Place>, kind: ResType, name: Option<&[u8]>) -> bool
    requires { length rows.now ≤ max_rows }
    ensures { (r : Row Place) → r.resource.kind ≡ kind → r.resource.name ≡ option_copied name.entry → result ≡ rows_fit (bare (added r rows.now)) }
{
    let names = 42 + 8 * types_with(rows, kind) + 12 * rows.len();
    if rows.len() >= MAX_ROWS || names > MAX_OFFSET {
        return false;
    }
    if names_are_few(rows, name) {
        return true;
    }
    names_fit_with(rows, end_of_type(rows, kind), name)
}

impl<S: ForkStore> ResourceFiles<S> {
    /// Whether the current file fits a fork with one more resource, of this type and name.
    pub fn has_room(&self, kind: ResType, name: Option<&[u8]>) -> bool
        ensures { (r : FileRow) → r.resource.kind ≡ kind → r.resource.name ≡ option_copied name.entry
            → result ≡ rows_fit (bare (added r (current_rows self.now.files))) }
    {
        match current_rows(&self.chain) {
            Some(rows) => fits_with(rows, kind, name),
            None => true,
        }
    }
}
