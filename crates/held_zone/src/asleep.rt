//! A zone that sleeps, as C holds it.

ghost use Rattle.std.specs.Prelude.{◌≡◌, None, Some, IfSome, MatchBool};
ghost use Rattle.std.specs.Option.{option_map};
ghost use Rattle.held_zone.specs.Asleep.{IsAsleep};
ghost use Rattle.held_zone.specs.State.{State};
ghost use Rattle.std.proofs.Props.{props};

use crate::session::Session;
use crate::zone::MhZone;
use std::alloc::Global;

/// A zone that sleeps, or none.
#[repr(C)]
#[derive(Drop)]
pub struct MhAsleep {
    pub zone: MhZone,
    ghost sleeps: { IfSome zone.held.session IsAsleep } by { Prim.hlevel props },
}

impl MhAsleep {
    /// Whether there is a zone.
    pub fn is_live(&self) -> bool
        ensures { MatchBool result ((session : State) × (self.now.zone.held.session ≡ Some session)) (self.now.zone.held.session ≡ None) }
    {
        self.zone.is_live()
    }

    /// Takes the session out, where there is one.
    pub fn take(&mut self, alloc: Global) -> Option<Box<Session>>
        ensures given { self.old.zone.held.session ≡ option_map (λ session. session.value) result }
        ensures asleep { IfSome result (λ session. IsAsleep session.value) }
        ensures none { self.new.zone.held.session ≡ None }
    {
        self.zone.take(alloc)
    }

    /// Puts a session in that sleeps, where there is none.
    pub fn put(&mut self, session: Box<Session>)
        requires none { self.old.zone.held.session ≡ None }
        requires asleep { IsAsleep session.value }
        ensures { self.new.zone.held.session ≡ Some session.value }
    {
        self.zone.put(session);
    }
}
