//! What C gets.

ghost use Rattle.std.specs.Prelude.{◌≡◌, ◌≤◌, length, IfOk, IfErr};
ghost use Rattle.std.specs.List.{flat_map};
ghost use Rattle.fork_bytes.specs.Fork.{max_fork, max_rows, Refuses, StandsFor};
ghost use Rattle.fork_bytes.specs.Rows.{Row};
ghost use Rattle.fork_c.specs.Told.{IsCodeOf, IsRefused, Shows, sized};

use fork_bytes::fault::ForkFault;
use fork_bytes::table::Table;
use fork_bytes::{is_over_by, read_fork};
use mac_base::error::{NO_ERR, OsErr};
use std::alloc::Global;

/// The code of a fork that has more bytes or resources than macheap reads.
const TOO_BIG: i16 = -1001;

/// The table that bytes stand for, or the code that C gets.
#[tactic(auto, using(crate::proofs::Pieces::few_bytes, crate::proofs::Pieces::few_rows))]
pub(crate) fn read<'a>(alloc: Global, fork: &'a [u8]) -> Result<Table<'a>, i16>
    ensures table { IfOk result (λ table. StandsFor fork.now table) }
    ensures few { IfOk result (λ table. length table.rows ≤ max_rows) }
    ensures small { IfOk result (λ table. length (flat_map (λ (row : Row). row.datum) table.rows) ≤ max_fork) }
    ensures refused { IfErr result (λ code. IsRefused fork.now code) }
{
    match read_fork(alloc, fork) {
        Ok(table) => Ok(table),
        Err(fault) => Err(code_of_fault(fork, fault)),
    }
}

/// The code of a fault of the bytes.
fn code_of_fault(fork: &[u8], fault: ForkFault) -> i16
    requires { Refuses fork.now fault }
    ensures { IsCodeOf fork.now fault result }
{
    let is_over = is_over_by(fork, fault);
    match fault {
        ForkFault::EndOfFile => OsErr::EofErr.code(),
        ForkFault::BadMap(_) if is_over => TOO_BIG,
        ForkFault::BadMap(_) => OsErr::MapReadErr.code(),
        ForkFault::HostFull => OsErr::MemFullErr.code(),
    }
}

/// Shows what was found, or says why nothing was.
pub(crate) fn shown<T: Copy>(found: Result<T, OsErr>, place: &mut T) -> i16
    ensures { Shows found result place.old place.new }
{
    match found {
        Ok(found) => {
            *place = found;
            NO_ERR
        }
        Err(refusal) => refusal.code(),
    }
}

/// Copies bytes over just as many others; paramErr where there are more or fewer.
pub(crate) fn copied(bytes: &[u8], place: &mut [u8]) -> i16
    ensures { Shows (sized (length place.old) bytes.now) result place.old place.new }
{
    if bytes.len() != place.len() {
        return OsErr::ParamErr.code();
    }
    place.copy_from_slice(bytes);
    NO_ERR
}
