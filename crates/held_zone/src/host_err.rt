//! The codes that C gets where its own call is refused, and not a guest's.

ghost use Rattle.std.specs.Prelude.{◌≡◌};
ghost use Rattle.mac_base.specs.Codes.{code_of};
ghost use Rattle.mac_base.specs.declared.error.OsErr.{OsErr};
ghost use Rattle.held_zone.specs.HostCodes.{host_code};

/// Why a call of C is refused, or isn't made, where a Macintosh has no code for that.
#[derive(Clone, Copy)]
pub enum HostErr {
    /// What the call needs isn't there: a zone that is awake, one that sleeps, files that have begun, or bytes of the
    /// host.
    NotThere,
    /// A fork is bigger than the library reads.
    TooBig,
    /// A call of the Memory Manager would purge, and is held.
    WouldPurge,
    /// Files can't be saved over a zone, or bytes are those of none that can.
    BadState,
    /// A call on resource files has to be made over another zone.
    OtherZone,
    /// There is one already, and there may be no other: a zone, files, bytes of the host; or as many answers wait as may.
    InUse,
    /// A base, a size, a limit, a mode, a kind or a count is none that the call takes.
    BadNumber,
    /// There is none such: no ask, call or file with this number, no call that was held, no handle, no other zone.
    NoneSuch,
}

impl HostErr {
    /// The number of the code: -1000 or less. No refusal of the Toolbox has it.
    #[tactic(auto, using(crate::proofs::HostCodes::none_guests))]
    pub fn code(self) -> i16
        ensures code { result ≡ host_code self }
        ensures no_guests { (guest : OsErr) → result ≡ code_of guest → ⊥ }
    {
        match self {
            HostErr::NotThere => -1000,
            HostErr::TooBig => -1001,
            HostErr::WouldPurge => -1002,
            HostErr::BadState => -1003,
            HostErr::OtherZone => -1004,
            HostErr::InUse => -1005,
            HostErr::BadNumber => -1006,
            HostErr::NoneSuch => -1007,
        }
    }
}
