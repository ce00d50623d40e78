//! Who owns a file, and what its mode lets others do.

ghost use Rattle.std.specs.Prelude.{◌≡◌};
ghost use Rattle.file_replace.specs.Rights.{mode_for};

/// The user and the group to which a file belongs, by their numbers.
#[derive(Clone, Copy, Debug, PartialEq, Eq)]
pub struct Owner {
    pub user: u32,
    pub group: u32,
}

/// To whom a file belongs, and its mode: who may read, write and run it, and the special bits.
#[derive(Clone, Copy, Debug, PartialEq, Eq)]
pub struct Rights {
    pub owner: Owner,
    pub mode: u32,
}

/// A digit of a mode, which is written with base 8: that of others, of the group, of the user, and the special bits.
const OTHERS: u32 = 1;

const GROUP: u32 = 8;

const USER: u32 = 64;

const SPECIAL: u32 = 512;

/// The mode of a new file in the place of one of this mode. The special bits stay only where the new one belongs to the
/// same user and group. Where the group is another one, members of the old one are others now: group and others get
/// what both had. No other bits are carried over.
pub fn mode_for(mode: u32, keeps_user: bool, keeps_group: bool) -> u32
    ensures { result ≡ mode_for mode keeps_user keeps_group }
{
    let special = if keeps_user && keeps_group {
        mode / SPECIAL % 8
    } else {
        0
    };
    let (group, others) = (mode / GROUP % 8, mode / OTHERS % 8);
    let (group, others) = if keeps_group {
        (group, others)
    } else {
        (group & others, group & others)
    };
    special * SPECIAL + mode / USER % 8 * USER + group * GROUP + others
}
