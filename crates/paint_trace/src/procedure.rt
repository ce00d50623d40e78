//! The grow-zone procedure of a program.

ghost use Rattle.std.specs.Prelude.{◌≡◌, []};
ghost use Rattle.paint_trace.specs.Trace.{asks_of, source_of};

use mac_base::error::OsErr;
use mac_base::releasing::ReleasingCall;
use mac_base::{Answer, GrowZone};

/// A call of an answer that was carried out, and the code of its refusal, if it was refused.
#[derive(Clone, Copy)]
pub(crate) struct Carried {
    call: ReleasingCall,
    code: Option<OsErr>,
}

/// A grow-zone procedure that gives up a block which the program keeps for that, its memory cushion, and nothing else
/// (Inside Macintosh: Memory, chapter 1, "Low-Memory Conditions"). Without one it is asked in vain. A call of the
/// Memory Manager begins with a procedure that wasn't asked yet.
#[derive(Clone, Copy)]
pub(crate) struct Procedure {
    /// The call that gives the cushion up, if there is one.
    cushion: Option<ReleasingCall>,
    /// The bytes that were asked for when it was given up.
    given_for: Option<u32>,
    /// That call, once it was carried out.
    carried: Option<Carried>,
    /// The bytes that were asked for in vain.
    in_vain: Option<u32>,
}

impl Procedure {
    /// A procedure of a program that has no cushion.
    pub(crate) fn without_cushion() -> Procedure
        ensures asks { asks_of result ≡ [] }
        ensures source { source_of result ≡ [] }
    {
        Procedure {
            cushion: None,
            given_for: None,
            carried: None,
            in_vain: None,
        }
    }
}

impl GrowZone for Procedure {
    ghost asks = { λ p. asks_of p };

    ghost source = { λ p. source_of p };

    fn ask(&mut self, needed: u32) -> Option<Answer> {
        let gives = self.cushion.is_some() && self.given_for.is_none();
        if !gives {
            self.in_vain = Some(needed);
            return None;
        }
        self.given_for = Some(needed);
        self.carried = None;
        Some(Answer::new([self.cushion, None, None, None, None, None, None, None], 1))
    }

    fn did(&mut self, call: ReleasingCall, code: Option<OsErr>) {
        self.carried = Some(Carried { call, code });
    }
}
