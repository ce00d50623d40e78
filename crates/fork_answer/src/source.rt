//! The resource fork in a file.

ghost use Rattle.std.specs.Prelude.{◌≡◌, IfErr, IfOk, Ok};
ghost use Rattle.mac_files.specs.Kinds.{kind_of};
ghost use Rattle.mac_files.specs.OldFiles.{fork_of, kind_by, old_file, said_by};
ghost use Rattle.fork_answer.specs.Source.{IsForkIn, IsNoForkIn};

use mac_files::OldFile;
use mac_files::old_file::FileFault;
use std::alloc::Global;
use thiserror::Error;

/// Why a file has no resource fork to read.
#[derive(Clone, Copy, Debug, Error)]
pub enum NoFork {
    /// It can't be read.
    #[error("{0}")]
    File(FileFault),
    /// The file has no resource fork.
    #[error("it has no resource fork")]
    Absent,
}

/// The file that bytes hold, which has a resource fork.
pub fn resource_fork<'a>(alloc: Global, file: &'a [u8]) -> Result<OldFile<'a>, NoFork>
    ensures fork { IfOk result (λ found. IsForkIn file.now (fork_of found)) }
    ensures file { IfOk result (λ found. old_file file.now ≡ Ok (said_by found)) }
    ensures kind { IfOk result (λ found. kind_by found ≡ kind_of file.now) }
    ensures none { IfErr result (IsNoForkIn file.now) }
{
    let found = match OldFile::open(alloc, file) {
        Ok(found) => found,
        Err(fault) => return Err(NoFork::File(fault)),
    };
    if found.has_fork() {
        Ok(found)
    } else {
        Err(NoFork::Absent)
    }
}
