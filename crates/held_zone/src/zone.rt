//! A zone that C holds.

ghost use Rattle.std.specs.Prelude.{◌≡◌, Option, Some, None, IsTrue, IsFalse, MatchBool};
ghost use Rattle.std.specs.Option.{option_map};
ghost use Rattle.held_zone.specs.Held.{is_there};
ghost use Rattle.held_zone.specs.State.{State};

use crate::host_err::HostErr;
use crate::parked::Parked;
use crate::session::{CallEnd, Session};
use crate::told;
pub use held_calls::window::Window;
use mac_base::{LoanCall, MemoryCall, Outcome};
use std::alloc::Global;
use std::marker::Model;
use std::{mem, ptr};

/// A session at a pointer, or none.
#[repr(C)]
#[derive(Drop)]
pub struct Held {
    at: *mut u8,
    pub ghost session: { Option State },
}

impl Model for Held {
    ghost use Rattle.held_zone.specs.Held.{held};

    ghost also_owns = { λ h. held h.session h.at };
}

impl Held {
    /// No session.
    fn none(at: *mut u8) -> Held
        ensures { result.session ≡ None }
    {
        Held { at }
    }

    /// This session.
    fn of(parked: Parked<Session, Global>) -> Held
        ensures { result.session ≡ Some parked.value }
    {
        let Parked { at, alloc: _ } = parked;
        Held { at: at as *mut u8 }
    }

    /// The session.
    fn into_parked(self, alloc: Global) -> Parked<Session, Global>
        requires { IsTrue (is_there self.session) }
        ensures { self.session ≡ Some result.value }
    {
        let Held { at } = self;
        Parked {
            at: at as *mut Session,
            alloc,
        }
    }

    /// The session in its box.
    fn into_box(self, alloc: Global) -> Box<Session>
        requires { IsTrue (is_there self.session) }
        ensures { self.session ≡ Some result.value }
    {
        let parked = self.into_parked(alloc);
        parked.into_box()
    }
}

/// A zone that C holds: live, or none.
#[repr(C)]
#[derive(Drop)]
pub struct MhZone {
    live: bool,
    pub held: Held,
    ghost agrees: { live ≡ is_there held.session },
}

impl MhZone {
    /// No zone.
    fn none() -> MhZone
        ensures { result.held.session ≡ None }
    {
        let at = null();
        MhZone::without(at)
    }

    /// No zone, at this pointer.
    fn without(at: *mut u8) -> MhZone
        ensures { result.held.session ≡ None }
    {
        let held = Held::none(at);
        MhZone { live: false, held }
    }

    /// Whether there is a zone.
    pub fn is_live(&self) -> bool
        ensures { MatchBool result ((session : State) × (self.now.held.session ≡ Some session)) (self.now.held.session ≡ None) }
    {
        self.live
    }

    /// The session, where there is one.
    fn opened(self, alloc: Global) -> Option<Box<Session>>
        ensures { self.held.session ≡ option_map (λ session. session.value) result }
    {
        let MhZone { live, held } = self;
        if !live {
            return None;
        }
        let session = held.into_box(alloc);
        Some(session)
    }

    /// Takes the session out, where there is one.
    pub fn take(&mut self, alloc: Global) -> Option<Box<Session>>
        ensures given { self.old.held.session ≡ option_map (λ session. session.value) result }
        ensures none { self.new.held.session ≡ None }
    {
        let before = mem::replace(self, MhZone::none());
        before.opened(alloc)
    }

    /// Puts a session in, where there is none.
    pub fn put(&mut self, session: Box<Session>)
        requires none { self.old.held.session ≡ None }
        ensures { self.new.held.session ≡ Some session.value }
    {
        *self = MhZone {
            live: true,
            held: Held::of(Parked::of(session)),
        };
    }
}

impl MhZone {
    ghost use Rattle.held_calls.specs.Making.{copies};
    ghost use Rattle.held_zone.specs.Told.{EndsCall, LoanCalled, LoanTold, Told, ToldNumber, ToldNumbers, shows};

    /// Makes a call of the Memory Manager, where there is a zone, or holds it.
    fn call(&mut self, alloc: Global, call: &MemoryCall<'_>) -> CallEnd
        requires { IsFalse (copies call.now) }
        ensures { EndsCall self.old.held.session call.now result self.new.held.session }
    {
        let Some(mut session) = self.take(alloc) else {
            return CallEnd::Ended(None);
        };
        let end = session.call(call);
        self.put(session);
        end
    }

    /// Makes a call, or holds it, and returns its code.
    pub fn code(&mut self, alloc: Global, call: &MemoryCall<'_>) -> i16
        requires { IsFalse (copies call.now) }
        ensures { Told self.old.held.session call.now result self.new.held.session }
    {
        match self.call(alloc, call) {
            CallEnd::Held => HostErr::WouldPurge.code(),
            CallEnd::Ended(outcome) => told::code(&outcome),
        }
    }

    /// Makes a call, or holds it, returns its code, and writes its number, where it gives one.
    pub fn number(&mut self, alloc: Global, call: &MemoryCall<'_>, number: &mut u32) -> i16
        requires { IsFalse (copies call.now) }
        ensures { ToldNumber self.old.held.session call.now result number.old number.new self.new.held.session }
    {
        match self.call(alloc, call) {
            CallEnd::Held => HostErr::WouldPurge.code(),
            CallEnd::Ended(outcome) => told::number(&outcome, number),
        }
    }

    /// Makes a call, or holds it, returns its code, and writes its two numbers, where it gives them.
    pub fn numbers(
        &mut self,
        alloc: Global,
        call: &MemoryCall<'_>,
        first: &mut u32,
        second: &mut u32,
    ) -> i16
        requires { IsFalse (copies call.now) }
        ensures { ToldNumbers self.old.held.session call.now result (first.old, second.old) (first.new, second.new) self.new.held.session }
    {
        match self.call(alloc, call) {
            CallEnd::Held => HostErr::WouldPurge.code(),
            CallEnd::Ended(outcome) => told::numbers(&outcome, first, second),
        }
    }

    /// Makes a call on a block that is lent or is to be lent, where there is a zone.
    fn call_loan(&mut self, alloc: Global, call: &LoanCall<'_>) -> Option<Outcome>
        requires { IsFalse (shows call.now) }
        ensures { LoanCalled self.old.held.session call.now result self.new.held.session }
    {
        let mut session = self.take(alloc)?;
        let outcome = session.make_loan(call);
        self.put(session);
        outcome
    }

    /// Makes a call on a block that is lent or is to be lent, and returns its code.
    pub fn loan(&mut self, alloc: Global, call: &LoanCall<'_>) -> i16
        requires { IsFalse (shows call.now) }
        ensures { LoanTold self.old.held.session call.now result self.new.held.session }
    {
        told::code(&self.call_loan(alloc, call))
    }
}

/// The null pointer.
fn null() -> *mut u8 {
    ptr::null_mut()
}
