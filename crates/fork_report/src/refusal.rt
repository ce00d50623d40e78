//! Why nothing is shown of a file's fork.

ghost use Rattle.std.specs.Prelude.{◌≡◌, IfNone, IfSome};
ghost use Rattle.mac_files.specs.Kinds.{kind_of};
ghost use Rattle.fork_report.specs.Refused.{IsOther, IsRefusedAsOther, IsTaken, IsTakenForFork, IsToldDamaged, IsToldUnknown, IsToldOf, IsToldOfFork, begins_as_fork};

use crate::damage::Damage;
use crate::inside::archive_inside;
use crate::salvaged::ContainerDamage;
use fork_answer::{Failure, NoFork};
use fork_bytes::fault::ForkFault;
use mac_files::archive::Archive;
use mac_files::kind::FileKind;
use mac_files::kind_of;
use mac_files::old_file::FileFault;
use std::alloc::Global;
use thiserror::Error;

/// Why what a file holds isn't shown, or not all of it.
#[derive(Debug, Drop, Error)]
pub enum Refusal {
    /// The resource isn't there, or the output or the host's memory fails.
    #[error("{0}")]
    Show(Failure),
    /// Its container or its text is damaged, or has no resource fork.
    #[error("{container}: {fault}")]
    Container {
        container: &'static str,
        fault: NoFork,
    },
    /// It is an archive or a disk image.
    #[error("{0}")]
    Archive(Archive),
    /// It has no resources, and its data fork is an archive or the image of a disk.
    #[error("no resources; its data fork is {0}")]
    Inside(Archive),
    /// Its fork is damaged: what is reported of that.
    #[error("{told}")]
    Damaged {
        told: String,
        is_readable: bool,
    },
    /// It has no data fork. This is what the file is.
    #[error("{0}: it has no data fork")]
    NoData(&'static str),
    /// Nothing can be read of its fork.
    #[error("no resource can be read")]
    Nothing,
    /// Nothing can be read of what is there of its fork.
    #[error("{0}\n  no resource can be read")]
    NothingLeft(ContainerDamage),
    /// Too much can be read for one fork.
    #[error("more can be read than one fork holds, 268435456 bytes of resources, each of which begins in the first 16777216, and a map whose offsets have two bytes (5,458 resources without names): nothing is written; resfork salvage --list shows what there is")]
    TooMuch,
    /// It is nothing that is known.
    #[error("neither a resource fork nor a file that has one in it: {0}")]
    Unknown(String),
    /// It is nothing that is known, and doesn't begin as a fork does.
    #[error("neither a resource fork nor a file that has one in it")]
    NoHeader,
}

/// How many bytes the header of a fork has.
const HEADER_LENGTH: usize = 16;

/// Whether a file begins as a fork does: a byte of its header is zero, as none of a text is, or it ends within the
/// header.
fn begins_as_fork(file: &[u8]) -> bool
    ensures { result ≡ begins_as_fork file.now }
{
    file.len() < HEADER_LENGTH || file[..HEADER_LENGTH].contains(&0)
}

impl Refusal {
    /// Why what this file holds can't be shown, by what the file is known as.
    pub fn of_failure(alloc: Global, failure: Failure, file: &[u8]) -> Refusal
        ensures { IsToldOf file.now failure result }
    {
        match failure {
            Failure::NoFork(NoFork::Absent) => Refusal::of_absent(alloc, file),
            Failure::NoFork(NoFork::File(fault)) => Refusal::of_fault(fault, file),
            Failure::Fork(fault) => Refusal::of_fork(alloc, fault, file),
            failure => Refusal::Show(failure),
        }
    }

    /// Why a file that isn't opened isn't shown.
    fn of_fault(fault: FileFault, file: &[u8]) -> Refusal
        ensures { IsToldOf file.now (Failure.NoFork (NoFork.File fault)) result }
    {
        match fault {
            FileFault::HostFull => Refusal::Show(Failure::HostFull),
            FileFault::Container(_) | FileFault::Text(_) => Refusal::Container {
                container: kind_of(file).name(),
                fault: NoFork::File(fault),
            },
        }
    }

    /// Why a file without a resource fork isn't shown.
    fn of_absent(alloc: Global, file: &[u8]) -> Refusal
        ensures { IsToldOf file.now (Failure.NoFork NoFork.Absent) result }
    {
        match archive_inside(alloc, file) {
            Some(archive) => Refusal::Inside(archive),
            None => Refusal::Container {
                container: kind_of(file).name(),
                fault: NoFork::Absent,
            },
        }
    }

    /// Why a fork that is refused isn't shown.
    fn of_fork(alloc: Global, refusal: ForkFault, file: &[u8]) -> Refusal
        ensures { IsToldOf file.now (Failure.Fork refusal) result }
    {
        match refusal {
            ForkFault::HostFull => Refusal::Show(Failure::HostFull),
            refusal => Refusal::of_damage(alloc, refusal, file),
        }
    }

    /// What is reported of a fork that is refused: its first fault, with its place, if this file has a fork at all.
    fn of_damage(alloc: Global, refusal: ForkFault, file: &[u8]) -> Refusal
        ensures { IsToldOfFork file.now refusal result }
    {
        let Some(damage) = Damage::of_file(alloc, file) else {
            return Refusal::Show(Failure::Fork(refusal));
        };
        match Refusal::of_other(alloc, &damage, file) {
            Some(refusal) => refusal,
            None => Refusal::damaged(alloc, damage),
        }
    }

    /// Why this file, whose bytes have this damage as a fork, isn't taken for one with a fork in it: it is an archive, or
    /// nothing in it looks like a fork. None where it is taken for one.
    #[tactic(auto, using(crate::proofs::Refusing::other_unknown))]
    fn of_other(alloc: Global, damage: &Damage, file: &[u8]) -> Option<Refusal>
        ensures other { IfSome result (IsOther file.now damage.now) }
        ensures taken { IfNone result (IsTakenForFork damage.now.kind damage.now) }
    {
        match damage.kind {
            FileKind::Container(_) | FileKind::BinHex => None,
            FileKind::Archive(archive) => Some(Refusal::Archive(archive)),
            FileKind::Unknown if damage.is_of_fork() => None,
            FileKind::Unknown if !begins_as_fork(file) => Some(Refusal::NoHeader),
            FileKind::Unknown => Some(Refusal::unknown(alloc, damage)),
        }
    }

    /// That nothing is known of a file, and what of a fork it lacks.
    fn unknown(alloc: Global, damage: &Damage) -> Refusal
        ensures { IsToldUnknown result }
    {
        match format!(in alloc; "{damage}") {
            Ok(told) => Refusal::Unknown(told),
            Err(_) => Refusal::Show(Failure::HostFull),
        }
    }

    /// That a fork is damaged.
    fn damaged(alloc: Global, damage: Damage) -> Refusal
        ensures { IsToldDamaged damage result }
    {
        let Ok(told) = format!(in alloc; "{damage}") else {
            return Refusal::Show(Failure::HostFull);
        };
        Refusal::Damaged {
            told,
            is_readable: damage.is_readable(),
        }
    }
}

/// Why these bytes, which are known as this, are taken for no file with a fork in it, if they aren't.
pub(crate) fn other_than_fork(alloc: Global, kind: FileKind, bytes: &[u8]) -> Option<Refusal>
    requires { kind ≡ kind_of bytes.now }
    ensures other { IfSome result (IsRefusedAsOther bytes.now) }
    ensures taken { IfNone result (IsTaken bytes.now) }
{
    if kind.is_known() {
        return None;
    }
    if bytes.is_empty() {
        return None;
    }
    let Some(damage) = Damage::of_file(alloc, bytes) else {
        return None;
    };
    Refusal::of_other(alloc, &damage, bytes)
}
