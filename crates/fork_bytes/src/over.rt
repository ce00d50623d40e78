//! Whether macheap refuses a fork for its size, and not since it is damaged.

ghost use Rattle.std.specs.Prelude.{◌≡◌, ◌≢◌, ◌↔◌, length, true, IfOk};
ghost use Rattle.fork_bytes.specs.Fork.{Refuses};
ghost use Rattle.fork_bytes.specs.Over.{IsOver, is_limit};

use crate::fault::{Condition, ForkFault};
use crate::layout::MAX_FORK;
use crate::read::read_fork;
use mac_base::error::HostFull;
use std::alloc::Global;

/// Whether a fault of so many bytes is that of a limit.
fn is_limit(count: usize, fault: ForkFault) -> bool
    ensures { result ≡ is_limit count fault }
{
    match fault {
        ForkFault::BadMap(Condition::Parts) => count > MAX_FORK,
        ForkFault::BadMap(Condition::RowCount) => true,
        ForkFault::BadMap(Condition::ByteCount) => true,
        _ => false,
    }
}

/// Whether the fault for which a fork isn't read is that it has more than macheap reads: more than `MAX_FORK` bytes, of
/// the fork or of all resources, or more than `MAX_ROWS` resources. It says no where the host has no memory to know.
pub fn is_over_by(fork: &[u8], fault: ForkFault) -> bool
    requires { Refuses fork.now fault }
    ensures over { result ≡ true → IsOver fork.now }
    ensures known { fault ≢ ForkFault.HostFull → IsOver fork.now → result ≡ true }
{
    is_limit(fork.len(), fault)
}

/// Whether bytes are refused as a fork since they have more than macheap reads.
pub fn is_over(alloc: Global, fork: &[u8]) -> Result<bool, HostFull>
    ensures { IfOk result (λ over. (over ≡ true) ↔ IsOver fork.now) }
{
    match read_fork(alloc, fork) {
        Ok(_) => Ok(false),
        Err(ForkFault::HostFull) => Err(HostFull),
        Err(ForkFault::EndOfFile) => Ok(false),
        Err(ForkFault::BadMap(condition)) => Ok(is_over_by(fork, ForkFault::BadMap(condition))),
    }
}
