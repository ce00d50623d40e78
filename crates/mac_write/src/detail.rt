//! What of a file a container can't hold.

ghost use Rattle.std.specs.Prelude.{◌≡◌};
ghost use Rattle.mac_write.specs.Parts.{view};
ghost use Rattle.mac_write.specs.Lost.{has, holds, is_lost, says_something};

use crate::mac_file::MacFile;
use crate::target::Target;
use thiserror::Error;

/// Something of a file that not every container holds.
#[derive(Clone, Copy, Debug, PartialEq, Eq, Error)]
pub enum Detail {
    #[error("its name")]
    Name,
    #[error("its type, creator and flags")]
    Finder,
    #[error("its dates")]
    Dates,
    #[error("its comment")]
    Comment,
    #[error("its data fork")]
    DataFork,
}

/// All of them.
pub const DETAILS: [Detail; 5] = [
    Detail::Name,
    Detail::Finder,
    Detail::Dates,
    Detail::Comment,
    Detail::DataFork,
];

/// Whether some of these bytes aren't zero.
fn says_something(bytes: &[u8]) -> bool
    ensures { result ≡ says_something bytes.now }
{
    bytes.iter().any(|byte| *byte != 0)
}

/// Whether the file has it: what is empty or zero isn't there.
pub(crate) fn has(detail: Detail, file: &MacFile) -> bool
    ensures { result ≡ has detail (view file.now) }
{
    match detail {
        Detail::Name => !file.name.is_empty(),
        Detail::Finder => {
            says_something(&file.finder.kind)
                || says_something(&file.finder.creator)
                || file.finder.flags != 0
        }
        Detail::Dates => file.created != 0 || file.modified != 0,
        Detail::Comment => !file.comment.is_empty(),
        Detail::DataFork => !file.data_fork.is_empty(),
    }
}

/// Whether a container holds it.
fn holds(target: Target, detail: Detail) -> bool
    ensures { result ≡ holds target detail }
{
    match target {
        Target::Raw => false,
        Target::AppleDouble => detail != Detail::DataFork,
        Target::AppleSingle | Target::MacBinary => true,
        Target::BinHex => detail != Detail::Dates && detail != Detail::Comment,
    }
}

/// Whether the file has something that a container doesn't hold.
pub fn is_lost(detail: Detail, target: Target, file: &MacFile) -> bool
    ensures { result ≡ is_lost detail target (view file.now) }
{
    !holds(target, detail) && has(detail, file)
}
