//! No grow-zone procedure.

use crate::error::OsErr;
use crate::grow_zone::{Answer, GrowZone};
use crate::releasing::ReleasingCall;
use std::marker::Model;

/// No grow-zone procedure: a request that finds no room asks it once, in vain. Each call of the Memory Manager begins
/// with a new one. A contract sees what it was asked.
#[derive(Drop)]
pub struct NoProcedure {
    /// The bytes that were asked for, if any were.
    in_vain: Option<u32>,
}

impl Model for NoProcedure {
    ghost use Rattle.std.specs.Prelude.{List};
    ghost use Rattle.mac_base.specs.GrowZone.{Ask, asked_in_vain};

    ghost Value = { List Ask };

    ghost view = { λ p. asked_in_vain p.in_vain };
}

impl NoProcedure {
    ghost use Rattle.std.specs.Prelude.{◌≡◌, []};

    /// One that wasn't asked yet.
    pub fn new() -> NoProcedure
        ensures { result ≡ [] }
    {
        NoProcedure { in_vain: None }
    }
}

impl GrowZone for NoProcedure {
    ghost use Rattle.std.specs.Prelude.{[]};

    ghost asks = { λ p. p };

    ghost source = { λ _. [] };

    fn ask(&mut self, needed: u32) -> Option<Answer> {
        self.in_vain = Some(needed);
        None
    }

    fn did(&mut self, _call: ReleasingCall, _code: Option<OsErr>) {
        let _in_vain = self.in_vain;
    }
}
