//! The table of a file, read from its disk.

ghost use Rattle.std.specs.Prelude.{◌≡◌, ℕ, List, IfOk, Ok};
ghost use Rattle.fork_rows.specs.Opening.{CountsDevice};
ghost use Rattle.res_update.specs.Answered.{IsOpening};
ghost use Rattle.res_update.specs.Placed.{table_on};
ghost use Rattle.res_files.specs.Opening.{code_of};
ghost use Rattle.res_files.specs.Standing.{AreSmall};
ghost use Rattle.res_files.specs.Stores.{ReadsTable};

use fork_bytes::fault::ForkFault;
use fork_bytes::place::Place;
use fork_disk::store::ForkStore;
use fork_rows::fault::OpenFault;
use fork_rows::read_rows;
use mac_base::error::{HostFull, OsErr};
use res_table::chain::ResourceTable;
use res_table::rows::Rows;
use std::alloc::Global;

/// The code of a fault in opening a file, unless the host has no memory.
pub(crate) fn code_of(fault: OpenFault) -> Result<OsErr, HostFull>
    ensures { result ≡ code_of fault }
{
    match fault {
        OpenFault::Fork(ForkFault::EndOfFile) => Ok(OsErr::EofErr),
        OpenFault::Fork(ForkFault::BadMap(_)) => Ok(OsErr::MapReadErr),
        OpenFault::Fork(ForkFault::HostFull) => Err(HostFull),
        OpenFault::Device => Ok(OsErr::IoErr),
    }
}

/// Makes a store ready, and reads the table of the file on it: without bytes it has no resources.
pub(crate) fn read_table<S: ForkStore>(
    alloc: Global,
    store: &mut S,
) -> Result<ResourceTable<Place>, OpenFault>
    ensures reads { S.is_honest store.new → ReadsTable S.ForkStore store.old store.new result }
    ensures opening { IfOk result (λ table. (fork : List ℕ) → IsOpening (Ok (table_on fork table))) }
    ensures small { IfOk result (λ table. AreSmall table.rows) }
    ensures cause { CountsDevice (S.failures store.old) (S.failures store.new) result }
{
    store.recover()?;
    if store.len()? == 0 {
        return Ok(ResourceTable {
            rows: Rows::new(alloc),
            extra: [0; 240],
            map_attributes: 0,
        });
    }
    let table = read_rows(alloc, store)?;
    let Ok(rows) = Rows::opened(alloc, table.rows.into_vec()) else {
        return Err(OpenFault::Fork(ForkFault::HostFull));
    };
    Ok(ResourceTable {
        rows,
        extra: table.extra,
        map_attributes: table.map_attributes,
    })
}
