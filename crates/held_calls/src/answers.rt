//! The answers of the grow-zone procedure that wait for a call, and what the last call asked.

ghost use Rattle.std.specs.Prelude.{◌≡◌, ◌≤◌, ◌<◌, ◌++◌, ◌∷◌, [], length, IfOk, IfSome, IfNone, IsTrue};
ghost use Rattle.std_alloc.specs.VecDeque.{deque_capacity};
ghost use Rattle.mac_base.specs.GrowZone.{answered, may_note, new_ask, noted};
ghost use Rattle.held_calls.specs.Answers.{taken};

use arrayvec::ArrayVec;
use mac_base::error::{HostFull, OsErr};
use mac_base::handle::Handle;
use mac_base::releasing::ReleasingCall;
use mac_base::{Answer, Asked, GrowZone};
use std::alloc::Global;
use std::collections::VecDeque;
use std::marker::Model;

/// How often one call asks at most.
pub const MOST_ASKS: usize = 16;

/// How many calls an answer has at most.
const MOST_CALLS: usize = 8;

/// A call of an answer that was carried out, and the code of its refusal, if it was refused. A contract sees the two.
#[derive(Drop)]
pub struct Carried {
    call: ReleasingCall,
    code: Option<OsErr>,
}

impl Model for Carried {
    ghost use Rattle.std.specs.Prelude.{Option};
    ghost use Rattle.mac_base.specs.declared.error.OsErr.{OsErr};
    ghost use Rattle.mac_base.specs.declared.releasing.ReleasingCall.{ReleasingCall};

    ghost Value = { ReleasingCall × Option OsErr };

    ghost view = { λ c. (c.call, c.code) };
}

/// What fills a place that isn't used.
impl Default for Carried {
    fn default() -> Carried {
        Carried {
            call: ReleasingCall::Empties(Handle::new(0)),
            code: None,
        }
    }
}

impl Carried {
    /// The call.
    pub fn call(&self) -> ReleasingCall
        ensures { result ≡ self.now.0 }
    {
        self.call
    }

    /// The code of its refusal, if it was refused.
    pub fn code(&self) -> Option<OsErr>
        ensures { result ≡ self.now.1 }
    {
        self.code
    }
}

/// One ask of a call: what was needed, the answer, and its calls that were carried out.
#[derive(Drop)]
pub struct MadeAsk {
    needed: u32,
    answer: Option<Answer>,
    carried: ArrayVec<Carried, MOST_CALLS>,
}

impl Model for MadeAsk {
    ghost use Rattle.mac_base.specs.GrowZone.{Ask};
    ghost use Rattle.held_calls.specs.Answers.{HasFewCalls};

    ghost Value = { Ask };

    ghost view = { λ a. record { needed = a.needed; answer = a.answer; carried = a.carried.items } };

    ghost invariant = { λ a. HasFewCalls a.answer };
}

/// What fills a place that isn't used.
impl Default for MadeAsk {
    fn default() -> MadeAsk {
        MadeAsk {
            needed: 0,
            answer: None,
            carried: ArrayVec::new(),
        }
    }
}

impl MadeAsk {
    ghost use Rattle.std.specs.Option.{option_copied};

    /// An ask and its answer, of which no call has been carried out.
    fn new(needed: u32, answer: &Option<Answer>) -> MadeAsk
        ensures { result ≡ new_ask needed answer.now }
    {
        MadeAsk {
            needed,
            answer: answer.as_ref().map(Answer::again),
            carried: ArrayVec::new(),
        }
    }

    /// The bytes that were needed.
    pub fn needed(&self) -> u32
        ensures { result ≡ self.now.needed }
    {
        self.needed
    }

    /// The answer, if it was given one.
    pub fn answer(&self) -> Option<&Answer>
        ensures { option_copied result ≡ self.now.answer }
    {
        self.answer.as_ref()
    }

    /// The calls of the answer that were carried out.
    pub fn carried(&self) -> &[Carried]
        ensures value { result.now ≡ self.now.carried }
        ensures few { length result.now ≤ 8 }
    {
        self.carried.as_slice()
    }

    /// One more call of the answer was carried out.
    fn note(&mut self, call: ReleasingCall, code: Option<OsErr>)
        requires { IsTrue (may_note (self.old ∷ [])) }
        ensures { self.new ∷ [] ≡ noted call code (self.old ∷ []) }
    {
        self.carried.push(Carried { call, code });
    }
}

/// The answers that are left, which are given first in, first out, and what the last call asked. With none left there
/// is no procedure. `ROOM` answers may wait without more memory of the host.
#[derive(Drop)]
pub struct AnswerQueue<const ROOM: usize> {
    left: VecDeque<Answer>,
    asks: ArrayVec<MadeAsk, MOST_ASKS>,
}

impl<const ROOM: usize> Model for AnswerQueue<ROOM> {
    ghost use Rattle.std.specs.Prelude.{◌≤◌};
    ghost use Rattle.std_alloc.specs.VecDeque.{deque_capacity};
    ghost use Rattle.held_calls.specs.Answers.{Queue, OutOfAnswers};

    ghost Value = { Queue };

    ghost view = { λ q. record { left = q.left.items; asks = q.asks.items } };

    ghost invariant = { λ q. OutOfAnswers q.asks.items q.left.items × (ROOM ≤ deque_capacity q.left) };
}

impl<const ROOM: usize> AnswerQueue<ROOM> {
    ghost use Rattle.std.specs.Prelude.{OnOk, OnErr, nat_le};
    ghost use Rattle.held_calls.specs.Answers.{OutOfAnswers, no_answers, waits};

    /// No answers, and nothing was asked. It takes no memory.
    pub fn new(alloc: Global) -> AnswerQueue<ROOM>
        requires { ROOM ≡ 0 }
        ensures { result ≡ no_answers }
    {
        AnswerQueue {
            left: VecDeque::new(alloc),
            asks: ArrayVec::new(),
        }
    }

    /// The same with memory for the answers that may wait without more.
    pub fn with_room(alloc: Global) -> Result<AnswerQueue<ROOM>, HostFull>
        ensures { IfOk result (λ queue. queue ≡ no_answers) }
    {
        Ok(AnswerQueue {
            left: VecDeque::with_capacity(alloc, ROOM)?,
            asks: ArrayVec::new(),
        })
    }

    /// Whether no answer may wait any more without more memory of the host.
    pub fn is_full(&self) -> bool
        ensures { result ≡ nat_le ROOM (length self.now.left) }
    {
        ROOM <= self.left.len()
    }

    /// Queues an answer after the others, for the calls to come: nothing is asked then. `HostFull` where it takes more
    /// memory than the host has.
    pub fn push(&mut self, answer: Answer) -> Result<(), HostFull>
        ensures queued { OnOk result (self.new ≡ waits answer self.old) }
        ensures unchanged { OnErr result (self.new ≡ record self.old { asks = [] }) }
        ensures full { OnErr result (ROOM ≤ length self.old.left) }
    {
        self.begin();
        self.left.push_back(answer)?;
        Ok(())
    }

    /// Queues an answer after the others, for the calls to come: nothing is asked then. It takes no more memory.
    pub fn push_within(&mut self, answer: Answer)
        requires room { length self.old.left < ROOM }
        ensures { self.new ≡ waits answer self.old }
    {
        self.begin();
        self.left.push_back_reserved(answer);
    }

    /// A call begins: nothing is asked yet.
    pub fn begin(&mut self)
        ensures { self.new ≡ record self.old { asks = [] } }
    {
        self.asks.clear();
    }

    /// What the last call asked, in order. An ask that got no answer found none left.
    pub fn asks(&self) -> &[MadeAsk]
        ensures value { result.now ≡ self.now.asks }
        ensures few { length result.now ≤ 16 }
        ensures out { OutOfAnswers self.now.asks self.now.left }
    {
        self.asks.as_slice()
    }

    /// What the last call asked that had an answer, in order.
    pub fn asked(&self) -> ArrayVec<Asked, MOST_ASKS>
        ensures { result.items ≡ answered self.now.asks }
    {
        answered(self.asks.as_slice())
    }
}

impl<const ROOM: usize> GrowZone for AnswerQueue<ROOM> {
    ghost asks = { λ q. q.asks };

    ghost source = { λ q. taken q.asks q.left };

    fn ask(&mut self, needed: u32) -> Option<Answer> {
        let answer = take_front(&mut self.left);
        self.asks.push(MadeAsk::new(needed, &answer));
        answer
    }

    fn did(&mut self, call: ReleasingCall, code: Option<OsErr>) {
        prove!(self.asks.len() <= MOST_ASKS);
        if let Some(mut ask) = self.asks.pop() {
            ask.note(call, code);
            self.asks.push(ask);
        }
    }
}

/// Takes the first of the answers, if there is one.
fn take_front(left: &mut VecDeque<Answer>) -> Option<Answer>
    ensures some { IfSome result (λ answer. left.old.items ≡ answer ∷ left.new.items) }
    ensures none { IfNone result (left.old.items ≡ []) }
    ensures stays { IfNone result (left.new.items ≡ []) }
    ensures capacity { deque_capacity left.new ≡ deque_capacity left.old }
{
    left.pop_front()
}

/// Those of these asks that had an answer, as they are printed.
fn answered(asks: &[MadeAsk]) -> ArrayVec<Asked, MOST_ASKS>
    requires { length asks.now ≤ 16 }
    ensures { result.items ≡ answered asks.now }
{
    let mut asked = ArrayVec::new();
    for ask in asks {
        if let Some(answer) = &ask.answer {
            asked.push(Asked {
                needed: ask.needed,
                value: answer.value(),
            });
        }
    }
    asked
}
