//! Which resources of a file are sought: by their type, their id, letters of their name, and bytes of their own.
#![tactic(auto)]

ghost use Rattle.std.specs.Prelude.{◌≡◌, IfOk, string_bytes};
ghost use Rattle.fork_find.specs.Sought.{found_line, found_lines, has_all, has_bytes, has_id, has_letters, is_sought};

use fork_bytes::table::Row;
use fork_list::letters::Letters;
use fork_list::{is_chosen, listing};
use mac_base::name::Name;
use mac_base::resource::ResType;
use memchr::memmem;
use std::alloc::{AllocError, Global};
use std::slice;

/// What a resource has to be, and to have, to be found. What isn't given asks for nothing.
#[derive(Drop)]
pub struct Sought {
    /// It is of one of these types, where there are some.
    pub kinds: Vec<ResType>,
    /// It has this id.
    pub id: Option<i16>,
    /// These bytes, letters of MacRoman, are somewhere in its name.
    pub name: Option<Vec<u8>>,
    /// These bytes are somewhere in its own.
    pub bytes: Option<Vec<u8>>,
}

/// Whether bytes are somewhere in others. No bytes are in all.
fn has_bytes(all: &[u8], part: &[u8]) -> bool
    ensures { result ≡ has_bytes all.now part.now }
{
    memmem::find(all, part).is_some()
}

/// Whether bytes that are sought are somewhere in others, if some are.
fn has_all(all: &[u8], part: &Option<Vec<u8>>) -> bool
    ensures { result ≡ has_all all.now part.now }
{
    match part {
        Some(part) => has_bytes(all, part),
        None => true,
    }
}

/// Whether a name has letters that are sought, if some are.
fn has_letters(name: &Option<Name>, letters: &Option<Vec<u8>>) -> bool
    ensures { result ≡ has_letters name.now letters.now }
{
    match (letters, name) {
        (None, _) => true,
        (Some(_), None) => false,
        (Some(letters), Some(name)) => has_bytes(name.as_slice(), letters),
    }
}

/// Whether an id is the one that is sought, if one is.
fn has_id(id: i16, sought: Option<i16>) -> bool
    ensures { result ≡ has_id id sought }
{
    match sought {
        Some(sought) => id == sought,
        None => true,
    }
}

/// Whether a resource is sought.
fn is_sought(sought: &Sought, row: &Row<'_>) -> bool
    ensures { result ≡ is_sought sought.now row.now }
{
    is_chosen(&sought.kinds, row.kind)
        && has_id(row.id, sought.id)
        && has_letters(&row.name, &sought.name)
        && has_all(row.datum.as_slice(), &sought.bytes)
}

/// The line of a list that shows a resource, if it is sought.
fn found_line(alloc: Global, sought: &Sought, row: &Row<'_>) -> Result<String, AllocError>
    ensures { IfOk result (λ text. string_bytes text ≡ found_line sought.now row.now) }
{
    if is_sought(sought, row) {
        listing(alloc, Letters::Roman, &[], slice::from_ref(row))
    } else {
        Ok(String::new(alloc))
    }
}

/// A line of a list for each of these resources that is sought, in their order (see `fork_list::listing`). `AllocError`
/// comes where the host has no memory.
pub fn found_lines(alloc: Global, sought: &Sought, rows: &[Row<'_>]) -> Result<String, AllocError>
    ensures { IfOk result (λ text. string_bytes text ≡ found_lines sought.now rows.now) }
{
    let mut text = String::new(alloc);
    for row in rows {
        let line = found_line(alloc, sought, row)?;
        text.push_str(line.as_str())?;
    }
    Ok(text)
}
