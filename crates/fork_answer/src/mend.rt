//! What can still be read of a damaged fork.

ghost use Rattle.std.specs.Prelude.{◌≡◌, IfErr, IfOk};
ghost use Rattle.fork_bytes.specs.Laws.{IsGrouped};
ghost use Rattle.fork_answer.specs.Mended.{IsMended, IsMendedFork, IsTooBig};

use crate::answer::read_table;
use crate::salvaged_table;
use fork_bytes::fault::{ForkFault, WriteFault};
use fork_bytes::layout::Limits;
use fork_bytes::table::Table;
use fork_bytes::write_fork_within;
use std::alloc::Global;

/// The table of a fork, or of all resources that can be read where it is damaged.
fn mended_table(alloc: Global, fork: &[u8]) -> Result<Table, WriteFault>
    ensures table { IfOk result (IsMended fork.now) }
    ensures grouped { IfOk result (λ table. IsGrouped table.rows) }
    ensures too_big { IfErr result (λ fault. fault ≡ WriteFault.TooBig → IsTooBig fork.now) }
{
    match read_table(alloc, fork) {
        Ok(table) => Ok(table),
        Err(ForkFault::HostFull) => Err(WriteFault::HostFull),
        Err(ForkFault::EndOfFile) => salvaged_table(alloc, fork),
        Err(ForkFault::BadMap(_)) => salvaged_table(alloc, fork),
    }
}

/// A fork of all resources that can be read of these bytes: of a fork that isn't damaged just its table, and else the
/// resources that are left, with those of each type together. It is read as that table.
pub fn mended_fork(alloc: Global, fork: &[u8]) -> Result<Vec<u8>, WriteFault>
    ensures fork { IfOk result (λ bytes. IsMendedFork fork.now bytes.items) }
    ensures too_big { IfErr result (λ fault. fault ≡ WriteFault.TooBig → IsTooBig fork.now) }
{
    let table = mended_table(alloc, fork)?;
    match write_fork_within(alloc, Limits::FORMAT, &table) {
        Ok(bytes) => Ok(bytes),
        Err(fault) => Err(fault),
    }
}
