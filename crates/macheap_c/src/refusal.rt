//! Why a call of C is refused that makes, shows or wakes a zone.

ghost use Rattle.std.specs.Prelude.{◌≡◌};
ghost use Rattle.macheap_c.specs.Refusals.{refusal_code, reply_code};

use held_zone::host_err::HostErr;
use mac_base::error::{NO_ERR, OsErr};

/// Why a call of C is refused.
#[derive(Clone, Copy)]
pub(crate) enum Refusal {
    /// As a guest's call is, or since the host has no memory: a code of the Toolbox.
    Toolbox(OsErr),
    /// By a rule of the host's.
    Host(HostErr),
}

impl From<OsErr> for Refusal {
    ghost use Rattle.std.specs.Prelude.{◌≡◌};
    ghost use Rattle.macheap_c.specs.declared.refusal.Refusal.TheVariants as refusals;

    ghost from_gives = { λ code refusal. refusal ≡ refusals.Toolbox code };

    fn from(code: OsErr) -> Refusal {
        Refusal::Toolbox(code)
    }
}

impl From<HostErr> for Refusal {
    ghost use Rattle.std.specs.Prelude.{◌≡◌};
    ghost use Rattle.macheap_c.specs.declared.refusal.Refusal.TheVariants as refusals;

    ghost from_gives = { λ code refusal. refusal ≡ refusals.Host code };

    fn from(code: HostErr) -> Refusal {
        Refusal::Host(code)
    }
}

impl Refusal {
    /// The number of its code.
    fn code(self) -> i16
        ensures { result ≡ refusal_code self }
    {
        match self {
            Refusal::Toolbox(code) => code.code(),
            Refusal::Host(code) => code.code(),
        }
    }
}

/// The code of a call without results.
pub(crate) fn reply(done: Result<(), Refusal>) -> i16
    ensures { result ≡ reply_code done }
{
    match done {
        Ok(()) => NO_ERR,
        Err(refusal) => refusal.code(),
    }
}
