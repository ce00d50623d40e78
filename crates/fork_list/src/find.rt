//! A resource by its type, and its id or its name.

ghost use Rattle.std.specs.Prelude.{◌≡◌, option_copied, slice_get};
ghost use Rattle.std.specs.List.{filter};
ghost use Rattle.fork_list.specs.Find.{has_key, is_wanted};

use mac_base::resource::{ResType, Resource};

/// What a resource of a type is called by.
#[derive(Drop)]
pub enum Key {
    /// Its id.
    Id(i16),
    /// Its name, in MacRoman.
    Name(Vec<u8>),
}

/// A resource of a type with an id or a name: of several such ones this one, where the first is 0.
#[derive(Drop)]
pub struct Wanted {
    pub kind: ResType,
    pub key: Key,
    pub nth: usize,
}

/// Whether a row has this id, or this name.
fn has_key<D>(key: &Key, row: &Resource<D>) -> bool
    ensures { result ≡ has_key key.now row.now }
{
    match (key, &row.name) {
        (Key::Id(id), _) => row.id == *id,
        (Key::Name(name), Some(own)) => own.as_slice() == name.as_slice(),
        (Key::Name(_), None) => false,
    }
}

/// Whether a row is of the type that is wanted, and has its id or its name.
fn is_wanted<D>(wanted: &Wanted, row: &Resource<D>) -> bool
    ensures { result ≡ is_wanted wanted.now row.now }
{
    row.kind == wanted.kind && has_key(&wanted.key, row)
}

/// The row that is wanted: the n-th of those with its type, and its id or its name.
pub fn find_row<'r, D>(rows: &'r [Resource<D>], wanted: &Wanted) -> Option<&'r Resource<D>>
    ensures { option_copied result ≡ slice_get (filter (is_wanted wanted.now) rows.now) wanted.now.nth }
{
    rows.iter()
        .filter(|row| is_wanted(wanted, row))
        .nth(wanted.nth)
}
