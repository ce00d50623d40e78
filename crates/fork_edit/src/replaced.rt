//! What a file loses whose place another file takes.

ghost use Rattle.std.specs.Prelude.{◌≡◌, IfOk, IsTrue};
ghost use Rattle.fork_edit.specs.Files.{HasTable, IsSourceOf};
ghost use Rattle.fork_edit.specs.Replaced.{IsLostOr};

use crate::file::{NotWritten, fork_or_none, with_table};
use fork_answer::{NoFork, read_table};
use fork_bytes::fault::ForkFault;
use fork_bytes::table::{Row, Table};
use fork_change::lacking;
use mac_base::error::HostFull;
use mac_files::bin_hex::fault::BinHexFault;
use mac_files::old_file::FileFault;
use std::alloc::Global;

/// What a file loses whose place another file takes.
#[derive(Clone, Copy, Debug, PartialEq, Eq)]
pub enum Lost {
    /// No resource: each of its types and ids is among the new ones.
    Nothing,
    /// So many resources have a type and an id that no new one has.
    Resources(usize),
    /// It isn't known: the file has no resource fork that can be read.
    Unknown,
}

/// Whether a file has no fork for want of memory.
fn is_host_full(fault: &NoFork) -> bool {
    matches!(
        fault,
        NoFork::File(FileFault::HostFull | FileFault::Text(BinHexFault::HostFull))
    )
}

/// What the file loses where these rows are all that takes its place. A file of no bytes has no resources. The only
/// error is that the host has no memory.
pub fn lost_of(alloc: Global, file: &[u8], rows: &[Row]) -> Result<Lost, HostFull>
    ensures { IsLostOr file.now rows.now result }
{
    let found = match fork_or_none(alloc, file) {
        Ok(found) => found,
        Err(fault) if is_host_full(&fault) => return Err(HostFull),
        Err(_) => return Ok(Lost::Unknown),
    };
    lost_in(alloc, file, found.fork(), rows)
}

/// What the file loses, whose resource fork this is.
fn lost_in(alloc: Global, _file: &[u8], fork: &[u8], rows: &[Row]) -> Result<Lost, HostFull>
    requires { IsSourceOf _file.now fork.now }
    ensures { IsLostOr _file.now rows.now result }
{
    let table = match read_table(alloc, fork) {
        Ok(table) => table,
        Err(ForkFault::HostFull) => return Err(HostFull),
        Err(_) => return Ok(Lost::Unknown),
    };
    match lacking(alloc, rows, table.rows.as_slice())? {
        0 => Ok(Lost::Nothing),
        count => Ok(Lost::Resources(count)),
    }
}

/// Whether a file with a table is another one as that would be with the same table: so nothing of the other is lost but
/// resources.
pub fn keeps_others(alloc: Global, file: &[u8], table: &Table, new: &[u8]) -> Result<bool, HostFull>
    ensures { IfOk result (λ keeps. IsTrue keeps → HasTable file.now table.now new.now) }
{
    match with_table(alloc, file, table) {
        Ok(kept) => Ok(kept.as_slice() == new),
        Err(NotWritten::HostFull) => Err(HostFull),
        Err(_) => Ok(false),
    }
}
