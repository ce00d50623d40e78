//! What a file holds: its resource fork, and the table of that; or why they aren't read.

ghost use Rattle.std.specs.Prelude.{IfErr, IfOk};
ghost use Rattle.fork_answer.specs.Answer.{IsTableOf};
ghost use Rattle.fork_answer.specs.Source.{IsForkIn};
ghost use Rattle.mac_files.specs.OldFiles.{fork_of};
ghost use Rattle.file_acts.specs.Problems.{IsForkRefused, IsToldOfFailure, LacksFork};

use crate::message::Problem;
use fork_answer::{Failure, read_table, resource_fork};
use fork_bytes::table::Table;
use fork_report::Refusal;
use mac_files::OldFile;
use std::alloc::Global;

/// Why something isn't shown of a file with these bytes.
pub fn refused_as(alloc: Global, failure: Failure, bytes: &[u8]) -> Problem
    ensures { IsToldOfFailure bytes.now failure result }
{
    let refusal = Refusal::of_failure(alloc, failure, bytes);
    Problem::of_refusal(alloc, refusal, bytes)
}

/// The file that bytes hold, which has a resource fork; or why no fork is found in them.
pub fn fork_found<'a>(alloc: Global, bytes: &'a [u8]) -> Result<OldFile<'a>, Problem>
    ensures fork { IfOk result (λ found. IsForkIn bytes.now (fork_of found)) }
    ensures none { IfErr result (LacksFork bytes.now) }
{
    match resource_fork(alloc, bytes) {
        Ok(found) => Ok(found),
        Err(fault) => Err(refused_as(alloc, Failure::NoFork(fault), bytes)),
    }
}

/// The table of the resource fork that was found in a file with these bytes; or which fault the fork has.
pub fn table_found<'a>(
    alloc: Global,
    found: &'a OldFile<'_>,
    bytes: &[u8],
) -> Result<Table<'a>, Problem>
    ensures table { IfOk result (IsTableOf (fork_of found.now)) }
    ensures refused { IfErr result (IsForkRefused bytes.now (fork_of found.now)) }
{
    match read_table(alloc, found.fork()) {
        Ok(table) => Ok(table),
        Err(fault) => Err(refused_as(alloc, Failure::Fork(fault), bytes)),
    }
}
