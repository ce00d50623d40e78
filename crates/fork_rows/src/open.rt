//! A fork is opened on its disk.

ghost use Rattle.std.specs.Prelude.{◌≤◌, length, IfOk};
ghost use Rattle.std.specs.List.{AllByRecursion};
ghost use Rattle.fork_bytes.specs.Fork.{max_rows};
ghost use Rattle.fork_bytes.specs.Reading.{AreFewBytes, AreFewBytesWithin};
ghost use Rattle.fork_rows.specs.Opening.{Reads, OpensAs, OpensAsWithin, EndsBy, FitsInFork, AreGrouped, CountsDevice};

use crate::fault::OpenFault;
use crate::part::{find_rows, read_front, read_part};
use crate::table::{PlacedRows, PlacedTable};
use fork_bytes::fault::ForkFault;
use fork_bytes::layout::Limits;
use fork_bytes::{HEADER_LENGTH, check_bytes, check_parts, read_attributes, read_map};
use fork_disk::store::ForkStore;
use std::alloc::Global;

/// The resources of a fork within these limits, with the places of their bytes. These aren't read: the device is asked
/// for the fork's length, for its first 256 bytes, for its map, and for four bytes for each resource. A fault of the
/// bytes is EndOfFile exactly where there are fewer than 16, and else BadMap of the first condition that doesn't hold;
/// it comes as soon as what was read shows it. HostFull comes where the host has no memory for the table, and Device
/// where the device failed, which it has counted. The bytes are as before in any case.
pub fn read_rows_within<S: ForkStore>(
    alloc: Global,
    store: &mut S,
    limits: Limits,
) -> Result<PlacedTable, OpenFault>
    requires { S.is_honest store.old → S.is_ready store.old }
    ensures reads { S.is_honest store.new → Reads S.ForkStore store.old store.new (OpensAsWithin limits result) }
    ensures inside { IfOk result (λ table. AllByRecursion (EndsBy limits.fork) table.rows) }
    ensures most { IfOk result (λ table. length table.rows ≤ limits.rows) }
    ensures few { IfOk result (λ table. AreFewBytesWithin limits.bytes table.rows) }
    ensures grouped { IfOk result (λ table. AreGrouped table.rows) }
    ensures cause { CountsDevice (S.failures store.old) (S.failures store.new) result }
{
    let fork_length = store.len()? as usize;
    if fork_length < HEADER_LENGTH {
        return Err(OpenFault::Fork(ForkFault::EndOfFile));
    }
    let front = read_front(alloc, store, fork_length)?;
    let header = front.header;
    check_parts(header, fork_length, limits)?;
    let map = read_part(alloc, store, header.map_offset, header.map_length)?;
    let rows = find_rows(alloc, store, header, read_map(alloc, &map, limits)?)?;
    check_bytes(&rows, limits.most_bytes(header.data_length as usize))?;
    Ok(PlacedTable {
        rows: PlacedRows::new(rows),
        extra: front.extra,
        map_attributes: read_attributes(&map),
    })
}

/// The resources of a fork within macheap's limits, with the places of their bytes.
pub fn read_rows<S: ForkStore>(alloc: Global, store: &mut S) -> Result<PlacedTable, OpenFault>
    requires { S.is_honest store.old → S.is_ready store.old }
    ensures reads { S.is_honest store.new → Reads S.ForkStore store.old store.new (OpensAs result) }
    ensures inside { IfOk result (λ table. AllByRecursion FitsInFork table.rows) }
    ensures most { IfOk result (λ table. length table.rows ≤ max_rows) }
    ensures few { IfOk result (λ table. AreFewBytes table.rows) }
    ensures grouped { IfOk result (λ table. AreGrouped table.rows) }
    ensures cause { CountsDevice (S.failures store.old) (S.failures store.new) result }
{
    read_rows_within(alloc, store, Limits::MACHEAP)
}
