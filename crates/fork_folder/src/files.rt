//! The files of all resources.

ghost use Rattle.std.specs.Prelude.{◌≡◌, ℕ, List, ◌<◌, ◌^◌, IfOk, OnOk, if◌then◌else◌, map, option_map, [], ◌∷◌, ◌++◌};
ghost use Rattle.fork_list.specs.Listing.{is_chosen};
ghost use Rattle.fork_bytes.specs.Rows.{Row};
ghost use Rattle.fork_folder.specs.Counts.{CountTypes};
ghost use Rattle.fork_folder.specs.Unpacked.{chosen, file_row, nth_file, types_of, unpacked, unpacked_file};

use crate::counts::{Counts, count_row};
use crate::file_name::FileName;
use crate::types::Types;
use fork_bytes::table::Row;
use fork_list::is_chosen;
use mac_base::resource::ResType;
use std::alloc::{AllocError, Global};

/// A file that a resource is unpacked to.
#[derive(Drop)]
pub struct File<'a> {
    /// The folder that it is in.
    pub folder: String,
    pub name: String,
    /// The resource, whose bytes are those of the file.
    pub row: &'a Row<'a>,
}

/// The bytes of a row's name, if it has one.
fn name_of<'r>(row: &'r Row) -> Option<&'r [u8]>
    ensures { option_map (λ name. name.now) result ≡ row.now.name }
{
    match &row.name {
        Some(name) => Some(name.as_slice()),
        None => None,
    }
}

/// The file of the nth row, from 0 on, of its type and id.
fn nth_file<'a>(
    alloc: Global,
    types: &Types,
    n: usize,
    row: &'a Row<'a>,
) -> Result<File<'a>, AllocError>
    requires { n < 2 ^ 63 }
    ensures file { IfOk result (λ file. (all : List Row) → CountTypes types.now all → unpacked_file file ≡ nth_file (types_of all) n row.now) }
    ensures row { IfOk result (λ file. file_row file ≡ row.now) }
{
    let name = FileName::new(row.id, n, name_of(row));
    Ok(File {
        folder: types.folder(alloc, row.kind)?,
        name: format!(in alloc; "{name}")?,
        row,
    })
}

/// Adds the file of the nth row of its type and id, if its type is chosen.
#[tactic(auto, using(std::proofs::lemmas::List::map_push))]
fn push_file<'a>(
    alloc: Global,
    files: &mut Vec<File<'a>>,
    types: &Types,
    kinds: &[ResType],
    n: usize,
    row: &'a Row<'a>,
) -> Result<(), AllocError>
    requires { n < 2 ^ 63 }
    ensures files { OnOk result ((all : List Row) → CountTypes types.now all → map unpacked_file files.new.items
        ≡ map unpacked_file files.old.items ++ (if is_chosen kinds.now row.now.kind then nth_file (types_of all) n row.now ∷ [] else [])) }
    ensures rows { OnOk result (map file_row files.new.items ≡ map file_row files.old.items ++ chosen kinds.now (row.now ∷ [])) }
{
    if !is_chosen(kinds, row.kind) {
        return Ok(());
    }
    let file = nth_file(alloc, types, n, row)?;
    files.push(file)?;
    Ok(())
}

/// The files of the resources of these types, or of all where none are named, in the order of the rows. The only error
/// is that the host has no memory.
pub fn unpacked<'a>(
    alloc: Global,
    kinds: &[ResType],
    rows: &'a [Row<'a>],
) -> Result<Vec<File<'a>>, AllocError>
    ensures files { IfOk result (λ files. map unpacked_file files.items ≡ unpacked kinds.now rows.now) }
    ensures rows { IfOk result (λ files. map file_row files.items ≡ chosen kinds.now rows.now) }
{
    let mut files = Vec::new(alloc);
    let types = Types::of_rows(alloc, rows)?;
    let mut counts = Counts::new(alloc);
    for row in rows {
        let n = count_row(&mut counts, row)?;
        push_file(alloc, &mut files, &types, kinds, n, row)?;
    }
    Ok(files)
}
