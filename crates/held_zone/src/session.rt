//! What belongs to a zone that C holds.

ghost use Rattle.std.specs.Prelude.{◌≡◌, []};

use crate::fields::GuestFields;
use crate::host_err::HostErr;
use crate::lent;
use crate::purges::{self, Purges};
use arrayvec::ArrayVec;
use held_calls::answers::{AnswerQueue, MOST_ASKS, MadeAsk};
use held_calls::loans::Loans;
use held_calls::window::Window;
use held_calls::{bytes, lending, making};
use mac_base::error::{HostFull, OsErr};
use mac_base::zone_spec::ZoneSpec;
use mac_base::{Answer, LoanCall, MemoryCall, Outcome};
use mem_calls::{MOST_LOANS, MemoryManager};
use std::alloc::Global;
use std::marker::Model;

/// How many answers may wait.
const MOST_WAITING: usize = 16;

/// How a call of C ends: it is held, since it would purge; or with its outcome, if there is a zone.
#[derive(Drop)]
pub enum CallEnd {
    Held,
    Ended(Option<Outcome>),
}

/// The Memory Manager with its zone, the loans that C has of it, the answers of its grow-zone procedure, the blocks that
/// wait while the zone sleeps to be lent again, the guest's fields of the zone's header, and what C learns of purges.
pub struct Session {
    pub memory: MemoryManager,
    pub loans: Loans,
    pub answers: AnswerQueue<MOST_WAITING>,
    pub waiting: ArrayVec<u32, MOST_LOANS>,
    pub guest: GuestFields,
    pub purges: Purges,
}

impl Model for Session {
    ghost use Rattle.held_calls.specs.Holding.{Holds, loans_of};
    ghost use Rattle.held_zone.specs.State.{State, WaitAsleep};

    ghost Value = { State };

    ghost view = { λ s. record { zone = s.memory; loans = loans_of s.loans; left = s.answers.left; asks = s.answers.asks; waiting = s.waiting.items; guest = s.guest; purges = s.purges } };

    ghost invariant = { λ s. Holds s.memory s.loans × WaitAsleep s.memory s.waiting.items };
}

impl Drop for Session {
    /// What is lent comes back, and the zone ends.
    fn drop(self) {
        let Session {
            memory,
            loans,
            answers,
            waiting,
            guest: _,
            purges,
        } = self;
        drop(lending::finish(memory, loans));
        drop(answers);
        drop(waiting);
        drop(purges);
    }
}

impl Session {
    ghost use Rattle.std.specs.Prelude.{◌++◌, ◌∷◌, not, length, is_some, IfOk, IfSome, IfNone, OnOk, OnErr};
    ghost use Rattle.std.specs.Result.{result_err};
    ghost use Rattle.mac_base.specs.declared.loan_call.LoanCall.TheVariants as loan_call;
    ghost use Rattle.mac_base.specs.declared.memory_call.MemoryCall.TheVariants.{Showing};
    ghost use Rattle.mac_base.specs.declared.memory_call.ShowingCall.TheVariants.{Peek};
    ghost use Rattle.mac_base.specs.LoanStep.{loan_refusal};
    ghost use Rattle.held_calls.specs.Making.{copies};
    ghost use Rattle.held_calls.specs.Holding.{IsWindow};
    ghost use Rattle.held_zone.specs.Asleep.{IsAsleep};
    ghost use Rattle.held_zone.specs.State.{IsNew, queue_refusal, with_no_asks};
    ghost use Rattle.std.specs.Prelude.{IsFalse};
    ghost use Rattle.held_zone.specs.Told.{EndsIn, Makes, MakesLoan, shown_outcome, shows};

    /// A new zone. Nothing is lent, no answer and no block waits, and nothing was asked. It is in memory of its own.
    pub fn create(alloc: Global, spec: ZoneSpec) -> Result<Box<Session>, HostFull>
        ensures new { IfOk result (λ session. IsNew spec session.value) }
        ensures asleep { IfOk result (λ session. IsAsleep session.value) }
    {
        let answers = AnswerQueue::with_room(alloc)?;
        let memory = MemoryManager::create(alloc, spec)?;
        let session = Session {
            memory,
            loans: Loans::new(),
            answers,
            waiting: ArrayVec::new(),
            guest: GuestFields::new(),
            purges: Purges::new(),
        };
        Ok(Box::new(alloc, session)?)
    }

    /// Makes a call; one that finds no room takes the answers that are left. For a call that gives a copy of what the
    /// zone has it returns none, and only what was asked is forgotten.
    pub fn make(&mut self, call: &MemoryCall<'_>) -> Option<Outcome>
        ensures makes { IfSome result (λ outcome. Makes self.old call.now outcome self.new) }
        ensures plain { is_some result ≡ not (copies call.now) }
        ensures unmade { IfNone result (self.new ≡ with_no_asks self.old) }
    {
        self.answers.begin();
        let outcome = making::make_plain(&mut self.memory, call, &mut self.answers);
        // What was asked says whether answers are left.
        prove!(self.answers.asks().len() <= MOST_ASKS);
        outcome
    }

    /// Makes a call after the handles that it would purge are emptied in turn, and notes them. Where purges are held, and
    /// it would purge one, the call is held: it is made only up to there.
    pub fn call(&mut self, call: &MemoryCall<'_>) -> CallEnd
        requires { IsFalse (copies call.now) }
        ensures { EndsIn self.old call.now result self.new }
    {
        if !purges::purge_in_turn(&mut self.memory, &mut self.purges, call) {
            self.answers.begin();
            return CallEnd::Held;
        }
        CallEnd::Ended(self.make(call))
    }

    /// Peek: copies bytes of a block, from an offset on, over as many others.
    #[tactic(auto, using(crate::proofs::Made::stays_lent, crate::proofs::Made::same_lent))]
    pub fn peek(&mut self, block: u32, offset: u32, bytes: &mut [u8]) -> Result<(), OsErr>
        ensures makes { Makes self.old (Showing (Peek block offset (length bytes.old))) (shown_outcome result bytes.new) self.new }
        ensures kept { OnErr result (bytes.new ≡ bytes.old) }
    {
        self.answers.begin();
        let shown = bytes::peek(&self.memory, block, offset, bytes.len())?;
        bytes.copy_from_slice(shown);
        Ok(())
    }

    /// Makes a call on a block that is lent or is to be lent. For one that shows bytes it returns none, and only what
    /// was asked is forgotten.
    pub fn make_loan(&mut self, call: &LoanCall<'_>) -> Option<Outcome>
        ensures makes { IfSome result (λ outcome. MakesLoan self.old call.now outcome self.new) }
        ensures plain { is_some result ≡ not (shows call.now) }
        ensures unmade { IfNone result (self.new ≡ with_no_asks self.old) }
    {
        self.answers.begin();
        let memory = &mut self.memory;
        let loans = &mut self.loans;
        match call {
            LoanCall::Lend(block) => Some(lending::lend(memory, loans, *block)),
            LoanCall::LentPeek { .. } => None,
            LoanCall::LentPoke {
                block,
                offset,
                bytes,
            } => Some(lending::lent_poke(memory, loans, *block, *offset, bytes.as_slice())),
            LoanCall::Return(block) => Some(lending::take_back(memory, loans, *block)),
        }
    }

    /// LentPeek: copies bytes that C has of a block, from an offset on, over as many others.
    pub fn lent_peek(&mut self, block: u32, offset: u32, bytes: &mut [u8]) -> Result<(), OsErr>
        ensures makes { MakesLoan self.old (loan_call.LentPeek block offset (length bytes.old)) (shown_outcome result bytes.new) self.new }
        ensures kept { OnErr result (bytes.new ≡ bytes.old) }
    {
        self.answers.begin();
        lent::peek(&self.memory, &self.loans, block, offset, bytes)
    }

    /// The window on the bytes that C has of a block. It is refused as Return is.
    pub fn window(&mut self, block: u32) -> Result<Window, OsErr>
        ensures refusal { result_err result ≡ loan_refusal self.old.zone.shape self.old.zone.heap (loan_call.Return block) }
        ensures window { IfOk result (λ window. IsWindow self.old.zone self.old.loans block window) }
        ensures state { self.new ≡ with_no_asks self.old }
    {
        self.answers.begin();
        lending::window(&self.memory, &self.loans, block)
    }

    /// Queues an answer after the others: nothing is asked then. Sixteen may wait: then the error is InUse.
    pub fn queue(&mut self, answer: Answer) -> Result<(), HostErr>
        ensures queued { OnOk result (self.new ≡ record self.old { left = self.old.left ++ answer ∷ []; asks = [] }) }
        ensures refusal { result_err result ≡ queue_refusal self.old }
        ensures unchanged { OnErr result (self.new ≡ self.old) }
    {
        if self.answers.is_full() {
            return Err(HostErr::InUse);
        }
        self.answers.push_within(answer);
        Ok(())
    }

    /// How often the last call asked.
    pub fn asks_made(&self) -> u32
        ensures { result ≡ length self.now.asks }
    {
        self.answers.asks().len() as u32
    }

    /// What the last call asked, in order.
    pub fn asks(&self) -> &[MadeAsk]
        ensures { result.now ≡ self.now.asks }
    {
        self.answers.asks()
    }
}
