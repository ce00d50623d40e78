//! A file whose resources are changed.

ghost use Rattle.fork_edit.specs.Changes.{Comes, IsTableIn};

use crate::difference::text_of;
use crate::edit::{Edit, edited};
use crate::file::{NotWritten, fork_or_none, with_table};
use fork_answer::{Failure, read_table};
use fork_bytes::table::{Row, Table};
use fork_change::{Refusal, compare, same_table};
use mac_base::error::HostFull;
use std::alloc::Global;
use thiserror::Error;

/// Why the resources of a file aren't changed.
#[derive(Debug, Drop, Error)]
pub enum NotChanged {
    /// The file has no fork, or a damaged one.
    #[error("{0}")]
    Read(Failure),
    /// The table has no such resource, or has one already.
    #[error("{0}")]
    Edit(Refusal),
    /// The file can't hold the new table.
    #[error("{0}")]
    Write(NotWritten),
    /// The host has no memory.
    #[error("the host has no memory")]
    HostFull,
}

impl From<HostFull> for NotChanged {
    ghost use Rattle.std.specs.Prelude.{◌≡◌};
    ghost use Rattle.fork_edit.specs.declared.change.NotChanged.TheVariants as unchanged;

    ghost from_gives = { λ _ fault. fault ≡ unchanged.HostFull };

    fn from(_: HostFull) -> NotChanged {
        NotChanged::HostFull
    }
}

/// The bytes of a file whose resources are changed, and a line for each of these.
#[derive(Drop)]
pub struct NewFile {
    pub file: Vec<u8>,
    pub told: String,
}

/// The file after a change of its table, to which resources are copied from these rows, and all else as it was. None
/// exactly where the change leaves the table as it is: then nothing is to be written.
pub fn changed(
    alloc: Global,
    file: &[u8],
    from: &[Row<'_>],
    edit: Edit<'_>,
) -> Result<Option<NewFile>, NotChanged>
    ensures { Comes file.now from.now edit.entry result }
{
    let found = match fork_or_none(alloc, file) {
        Ok(found) => found,
        Err(fault) => return Err(NotChanged::Read(Failure::NoFork(fault))),
    };
    let before = match read_table(alloc, found.fork()) {
        Ok(table) => table,
        Err(fault) => return Err(NotChanged::Read(Failure::Fork(fault))),
    };
    changed_from(alloc, file, &before, from, edit)
}

/// The file after a change of its table, which is this one.
fn changed_from<'a>(
    alloc: Global,
    file: &[u8],
    before: &Table<'a>,
    from: &[Row<'a>],
    edit: Edit<'a>,
) -> Result<Option<NewFile>, NotChanged>
    ensures { IsTableIn file.now before.now → Comes file.now from.now edit.entry result }
{
    let after = match edited(same_table(alloc, before)?, from, edit) {
        Ok(table) => table,
        Err(fault) => return Err(NotChanged::Edit(fault)),
    };
    let differences = compare(alloc, before, &after)?;
    if differences.is_empty() {
        return Ok(None);
    }
    match with_table(alloc, file, &after) {
        Ok(file) => Ok(Some(NewFile {
            file,
            told: text_of(alloc, &differences)?,
        })),
        Err(fault) => Err(NotChanged::Write(fault)),
    }
}
