//! The grow-zone procedure: what a request asks it that finds no room, and what it answers.

ghost use Rattle.std.specs.Prelude.{◌≡◌, ℕ, List, [], ◌∷◌, ◌++◌, IsTrue};
ghost use Rattle.mac_base.specs.GrowZone.{Ask, Answer, new_ask, may_ask, noted, may_note};

use crate::error::OsErr;
use crate::releasing::ReleasingCall;
use std::marker::Model;

/// An answer of the grow-zone procedure: calls that release blocks, in order, and a value that isn't 0 where another
/// trial may find room (Inside Macintosh: Memory, Changing the Grow-Zone Function).
#[derive(Drop)]
pub struct Answer {
    calls: [Option<ReleasingCall>; 8],
    value: u32,
}

impl Model for Answer {
    ghost use Rattle.std.specs.List.{flat_map};
    ghost use Rattle.std.specs.Option.{option_to_list};
    ghost use Rattle.mac_base.specs.GrowZone.{Answer};

    ghost Value = { Answer };

    ghost view = { λ a. record { calls = flat_map option_to_list a.calls; value = a.value } };
}

impl Answer {
    ghost use Rattle.std.specs.Prelude.{◌≡◌, ◌≤◌, length};
    ghost use Rattle.std.specs.List.{flat_map};
    ghost use Rattle.std.specs.Option.{option_to_list};

    /// An answer with these calls, but for the places that have none.
    pub fn new(calls: [Option<ReleasingCall>; 8], value: u32) -> Answer
        ensures { result ≡ record { calls = flat_map option_to_list calls; value = value } }
    {
        Answer { calls, value }
    }

    /// Its calls, in order, and places without one.
    pub fn calls(&self) -> &[Option<ReleasingCall>]
        ensures { flat_map option_to_list result.now ≡ self.now.calls }
    {
        &self.calls
    }

    /// The same answer once more. It has 8 calls at most.
    pub fn again(&self) -> Answer
        ensures same { result ≡ self.now }
        ensures few { length self.now.calls ≤ 8 }
    {
        let [a, b, c, d, e, f, g, h] = &self.calls;
        Answer {
            calls: [*a, *b, *c, *d, *e, *f, *g, *h],
            value: self.value,
        }
    }

    /// Its value.
    pub fn value(&self) -> u32
        ensures { result ≡ self.now.value }
    {
        self.value
    }
}

/// A grow-zone procedure (Inside Macintosh: Memory, Changing the Grow-Zone Function). One call of the Memory Manager
/// asks it at most 16 times.
pub trait GrowZone {
    /// What it was asked in the running call, with each answer and how its calls went.
    ghost asks: { Self → List Ask };

    /// What stays through a call: the answers that it had when the call began, where it is a list of them.
    ghost source: { Self → List Answer };

    /// Asks for `needed` bytes, header included. Without an answer there is no procedure, and nothing more is asked.
    fn ask(&mut self, needed: u32) -> Option<Answer>
        requires { IsTrue (may_ask (asks self.old)) }
        ensures asks { asks self.new ≡ asks self.old ++ new_ask needed result ∷ [] }
        ensures source { source self.new ≡ source self.old };

    /// Reports to it that a call of its last answer was carried out, and the code of its refusal, if it was refused.
    fn did(&mut self, call: ReleasingCall, code: Option<OsErr>)
        requires { IsTrue (may_note (asks self.old)) }
        ensures asks { asks self.new ≡ noted call code (asks self.old) }
        ensures source { source self.new ≡ source self.old };
}

/// What was asked and answered, as it is printed.
#[derive(Clone, Copy, Default)]
pub struct Asked {
    /// The bytes that were asked for, header included.
    pub needed: u32,
    /// The answer's value.
    pub value: u32,
}
