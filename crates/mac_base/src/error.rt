//! The result codes of toolbox calls, and the refusal for want of host memory.

use std::alloc::{AllocError, AllocFailed};
use std::error::Error;
use std::fmt;

/// The code of a call that wasn't refused (noErr).
pub const NO_ERR: i16 = 0;

/// Why a toolbox call is refused: the result codes other than noErr (Inside Macintosh, result codes of the
/// Memory Manager, the Resource Manager and the File Manager).
#[derive(Clone, Copy, Debug, PartialEq, Eq)]
pub enum OsErr {
    /// paramErr: an operand is out of its range.
    ParamErr,
    /// memFullErr: the zone has no room.
    MemFullErr,
    /// nilHandleErr: a handle is nil, or its master pointer is.
    NilHandleErr,
    /// memWZErr: a number names no block of the zone.
    MemWzErr,
    /// memPurErr: a locked block can't be purged.
    MemPurErr,
    /// memBCErr: no block's contents begin at an address.
    MemBcErr,
    /// memLockedErr: a block is locked, or lent.
    MemLockedErr,
    /// eofErr: a file ends too early.
    EofErr,
    /// resNotFound: no such resource.
    ResNotFound,
    /// resFNotFound: no such resource file is open.
    ResFNotFound,
    /// addResFailed: a resource can't be added.
    AddResFailed,
    /// rmvResFailed: a resource can't be removed.
    RmvResFailed,
    /// resAttrErr: a resource's attributes forbid the call.
    ResAttrErr,
    /// mapReadErr: a resource map is damaged.
    MapReadErr,
    /// dskFulErr: the disk has no room.
    DskFulErr,
    /// ioErr: the device failed.
    IoErr,
    /// fnfErr: no such file.
    FnfErr,
}

impl OsErr {
    ghost use Rattle.std.specs.Prelude.{◌≡◌};
    ghost use Rattle.mac_base.specs.Codes.{code_of};

    /// What the code says, in words, and its number.
    fn message(self) -> &'static str {
        match self {
            OsErr::ParamErr => "an operand is out of its range (-50)",
            OsErr::MemFullErr => "the zone has no room (-108)",
            OsErr::NilHandleErr => "a handle is nil or empty (-109)",
            OsErr::MemWzErr => "a number names no block of the zone (-111)",
            OsErr::MemPurErr => "a locked block can't be purged (-112)",
            OsErr::MemBcErr => "no block's contents begin at the address (-115)",
            OsErr::MemLockedErr => "a block is locked or lent (-117)",
            OsErr::EofErr => "the file ends too early (-39)",
            OsErr::ResNotFound => "no such resource (-192)",
            OsErr::ResFNotFound => "no such resource file is open (-193)",
            OsErr::AddResFailed => "the resource can't be added (-194)",
            OsErr::RmvResFailed => "the resource can't be removed (-196)",
            OsErr::ResAttrErr => "the resource's attributes forbid the call (-198)",
            OsErr::MapReadErr => "the resource map is damaged (-199)",
            OsErr::DskFulErr => "the disk has no room (-34)",
            OsErr::IoErr => "the device failed (-36)",
            OsErr::FnfErr => "no such file (-43)",
        }
    }

    /// The number of the code, as the toolbox returns it in a register.
    pub fn code(self) -> i16
        ensures { result ≡ code_of self }
    {
        match self {
            OsErr::ParamErr => -50,
            OsErr::MemFullErr => -108,
            OsErr::NilHandleErr => -109,
            OsErr::MemWzErr => -111,
            OsErr::MemPurErr => -112,
            OsErr::MemBcErr => -115,
            OsErr::MemLockedErr => -117,
            OsErr::EofErr => -39,
            OsErr::ResNotFound => -192,
            OsErr::ResFNotFound => -193,
            OsErr::AddResFailed => -194,
            OsErr::RmvResFailed => -196,
            OsErr::ResAttrErr => -198,
            OsErr::MapReadErr => -199,
            OsErr::DskFulErr => -34,
            OsErr::IoErr => -36,
            OsErr::FnfErr => -43,
        }
    }
}

impl fmt::Display for OsErr {
    fn fmt<W: fmt::Write>(&self, f: &mut fmt::Formatter<W>) -> fmt::Result {
        f.write_str(self.message())
    }
}

impl Error for OsErr {}

/// The host refused memory: no code of the toolbox, and nothing of the zone is changed by it.
#[derive(Clone, Copy, Debug, PartialEq, Eq, thiserror::Error)]
#[error("the host has no memory")]
pub struct HostFull;

impl From<AllocError> for HostFull {
    fn from(_: AllocError) -> HostFull {
        HostFull
    }
}

impl<T: Drop> From<AllocFailed<T>> for HostFull {
    fn from(_: AllocFailed<T>) -> HostFull {
        HostFull
    }
}
