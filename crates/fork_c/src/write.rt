//! The exports that write a fork.

ghost use Rattle.std.specs.Prelude.{◌≡◌, length, IfOk, IfErr};
ghost use Rattle.fork_c.specs.Given.{IsForkOf, IsUnwritten, IsWritten, rows_given, size_of, table_given};
ghost use Rattle.fork_c.specs.Told.{sized};

use crate::given::{MfExtra, table_given};
use crate::rows::MfRow;
use crate::told::{copied, shown};
use fork_bytes::fault::WriteFault;
use fork_bytes::write_fork;
use mac_base::error::{HostFull, OsErr};
use std::alloc::Global;

/// How many bytes the fork has that `mf_write` writes.
#[unsafe(no_mangle)]
pub extern "C" fn mf_written_length(
    alloc: Global,
    rows: &[MfRow],
    names: &[u8],
    contents: &[u8],
    extra: &MfExtra,
    count: &mut usize,
) -> i16
    ensures { IsWritten size_of (table_given extra.now (rows_given rows.now names.now contents.now)) result count.old count.new }
{
    match written(alloc, rows, names, contents, extra) {
        Ok(fork) => shown(Ok(fork.len()), count),
        Err(code) => code,
    }
}

/// Writes the fork of a table: the rows, the bytes of their names and of their data, one after the other, and what a
/// fork has beside them. paramErr where a name or a datum isn't there, bytes are left over, rows of one type are apart,
/// or the fork has more bytes or fewer; dskFulErr where the table is too big for a fork.
#[unsafe(no_mangle)]
pub extern "C" fn mf_write(
    alloc: Global,
    rows: &[MfRow],
    names: &[u8],
    contents: &[u8],
    extra: &MfExtra,
    fork: &mut [u8],
) -> i16
    ensures { IsWritten (sized (length fork.old)) (table_given extra.now (rows_given rows.now names.now contents.now)) result fork.old fork.new }
{
    match written(alloc, rows, names, contents, extra) {
        Ok(bytes) => copied(bytes.as_slice(), fork),
        Err(code) => code,
    }
}

/// The fork of the table that C gives, or the code that C gets.
fn written(
    alloc: Global,
    rows: &[MfRow],
    names: &[u8],
    contents: &[u8],
    extra: &MfExtra,
) -> Result<Vec<u8>, i16>
    ensures fork { IfOk result (λ fork. IsForkOf (table_given extra.now (rows_given rows.now names.now contents.now)) fork.items) }
    ensures refused { IfErr result (λ code. IsUnwritten (table_given extra.now (rows_given rows.now names.now contents.now)) code) }
{
    let table = match table_given(alloc, rows, names, contents, extra) {
        Ok(Some(table)) => table,
        Ok(None) => return Err(OsErr::ParamErr.code()),
        Err(HostFull) => return Err(OsErr::MemFullErr.code()),
    };
    match write_fork(alloc, &table) {
        Ok(fork) => Ok(fork),
        Err(WriteFault::TooBig) => Err(OsErr::DskFulErr.code()),
        Err(WriteFault::HostFull) => Err(OsErr::MemFullErr.code()),
    }
}
