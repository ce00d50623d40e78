//! The toolbox: one call, one reply.

ghost use Rattle.std.specs.Prelude.{◌≡◌, [], None, IfOk, OnErr, IsTrue};
ghost use Rattle.mac_base.specs.Tests.{refusal};
ghost use Rattle.mac_base.specs.Released.{disposed_itself};
ghost use Rattle.held_calls.specs.Making.{copies};
ghost use Rattle.toolbox.specs.Steps.{refused_after, resource_refused_after};

use crate::{AnswerQueue, lending};
use fork_disk::store::ForkStore;
use held_calls::answers::MOST_ASKS;
use held_calls::loans::Loans;
use held_calls::making;
use mac_base::error::{HostFull, OsErr};
use mac_base::handle::Handle;
use mac_base::{BlockCall, Call, GrowZone, MemoryCall, Outcome, Reply, ResourceCall, Results};
use mem_calls::MemoryManager;
use res_files::ResourceFiles;
use res_manager::watch::{Before, Watched};
use std::alloc::Global;
use std::marker::{Brand, Model};

/// The number of the file that is opened first.
const FIRST_FILE: u32 = 1;

/// The toolbox over one zone and some resource files, which holds the script's loans. Contracts see where the zone
/// lies, its heap, the loans with the bytes that their holder has, the resource files with their stores, and the codes
/// of the last calls.
pub struct Toolbox<S: ForkStore> {
    alloc: Global,
    memory: MemoryManager,
    loans: Loans,
    refused: Option<OsErr>,
    files: ResourceFiles<S>,
    resource_refused: Option<OsErr>,
}

impl<S: ForkStore> Model for Toolbox<S> {
    ghost use Rattle.held_calls.specs.Holding.{Holds, loans_of};
    ghost use Rattle.toolbox.specs.ToolState.{ToolState};

    ghost Value = { ToolState S };

    ghost view = { λ t. record { shape = t.memory.shape; heap = t.memory.heap; loans = loans_of t.loans; refused = t.refused; resources = t.files; resource_refused = t.resource_refused } };

    ghost invariant = { λ t. Holds t.memory t.loans };
}

impl<S: ForkStore> Toolbox<S> {
    ghost use Rattle.mac_base.specs.declared.call.Call.TheVariants.{Memory, Resource};
    ghost use Rattle.mac_base.specs.declared.resource_call.ResourceCall.TheVariants.{OpenResFile};
    ghost use Rattle.mac_base.specs.LoanStep.{all_returned};
    ghost use Rattle.toolbox.specs.Headline.{ToolboxShows};
    ghost use Rattle.toolbox.specs.Recovery.{ToolboxRecovers};
    ghost use Rattle.toolbox.specs.Steps.{Gives, LeavesAnswers, Steps, Unchanged, refusal_of, takes_memory};

    /// The toolbox over this memory, of which nothing is lent, and these resource files. What takes host memory takes
    /// it of `alloc`.
    pub fn open(alloc: Global, memory: MemoryManager, files: ResourceFiles<S>) -> Toolbox<S>
        requires { memory.heap.table.lent ≡ [] }
        ensures { result ≡ record { shape = memory.shape; heap = memory.heap; loans = []; refused = None; resources = files; resource_refused = None } }
    {
        Toolbox {
            alloc,
            memory,
            loans: Loans::new(),
            refused: None,
            files,
            resource_refused: None,
        }
    }

    /// Opens the first file, as the system opens a program's own before it runs: ResError knows nothing of that.
    pub fn open_first(&mut self) -> Result<Outcome, HostFull>
        ensures opens { IfOk result (λ outcome. Gives S.ForkStore self.old (Resource (OpenResFile 1)) [] outcome self.new) }
        ensures shape { self.new.shape ≡ self.old.shape }
        ensures refused { self.new.refused ≡ self.old.refused }
        ensures resource_refused { self.new.resource_refused ≡ self.old.resource_refused }
        ensures unchanged { OnErr result (Unchanged S.ForkStore self.old (Resource (OpenResFile 1)) self.new) }
    {
        let mut no_answers = AnswerQueue::new(self.alloc);
        let call = Call::Resource(ResourceCall::OpenResFile(FIRST_FILE));
        self.outcome(&call, &mut no_answers)
    }

    /// Makes one call; one that finds no room asks the procedure. A call that is refused for its operands changes
    /// nothing in the zone nor in the loans, and its reply has the code. Over all calls that are made so, every handle
    /// and pointer shows the bytes last put there, and so on (`headline`), and where stores have journals, a crash
    /// leaves each file as before an update or after it (`recovers`). MemError gives the code of the last call of the
    /// Memory Manager or on a loan, ResError that of the last call of the Resource Manager. `HostFull` comes only from
    /// calls that take host memory, and only where the call isn't refused; then nothing has changed.
    pub fn step<G: GrowZone>(
        &mut self,
        call: &Call<'_>,
        procedure: &mut G,
    ) -> Result<Reply, HostFull>
        requires { G.asks procedure.old ≡ [] }
        ensures step { IfOk result (λ reply. Steps S.ForkStore self.old call.now (G.asks procedure.new) reply.outcome self.new) }
        ensures headline { ToolboxShows S.ForkStore }
        ensures recovers { ToolboxRecovers S.ForkStore }
        ensures source { G.source procedure.new ≡ G.source procedure.old }
        ensures unchanged { OnErr result (Unchanged S.ForkStore self.old call.now self.new) }
        ensures unasked { OnErr result (G.asks procedure.new ≡ []) }
        ensures full { OnErr result (IsTrue (takes_memory S.ForkStore self.old call.now)) }
        ensures late { OnErr result (refusal_of S.ForkStore self.old call.now ≡ None) }
    {
        let reply = Reply {
            outcome: self.outcome(call, procedure)?,
        };
        self.note(call, &reply);
        Ok(reply)
    }

    /// Notes the code of a call for MemError or ResError.
    fn note(&mut self, call: &Call<'_>, reply: &Reply)
        ensures { self.new ≡ record self.old { refused = refused_after self.old.refused call.now reply.now.outcome; resource_refused = resource_refused_after self.old.resource_refused call.now reply.now.outcome } }
    {
        match call {
            Call::Memory(_) | Call::Loan(_) => self.refused = reply.refusal(),
            Call::Resource(_) => self.resource_refused = reply.refusal(),
            Call::MemError | Call::ResError => {}
        }
    }

    /// What a call gives, or the code of its refusal.
    fn outcome<G: GrowZone>(
        &mut self,
        call: &Call<'_>,
        procedure: &mut G,
    ) -> Result<Outcome, HostFull>
        requires { G.asks procedure.old ≡ [] }
        ensures gives { IfOk result (λ outcome. Gives S.ForkStore self.old call.now (G.asks procedure.new) outcome self.new) }
        ensures shape { self.new.shape ≡ self.old.shape }
        ensures refused { self.new.refused ≡ self.old.refused }
        ensures resource_refused { self.new.resource_refused ≡ self.old.resource_refused }
        ensures source { G.source procedure.new ≡ G.source procedure.old }
        ensures unchanged { OnErr result (Unchanged S.ForkStore self.old call.now self.new) }
        ensures unasked { OnErr result (G.asks procedure.new ≡ []) }
        ensures full { OnErr result (IsTrue (takes_memory S.ForkStore self.old call.now)) }
        ensures late { OnErr result (refusal_of S.ForkStore self.old call.now ≡ None) }
    {
        match call {
            Call::Memory(call) => self.call_memory::<G, Brand>(call, procedure),
            Call::Loan(call) => lending::make(&mut self.memory, &mut self.loans, self.alloc, call),
            Call::Resource(call) => self.call_resource(call, procedure),
            Call::MemError => Ok(Ok(Results::Code(self.refused))),
            Call::ResError => Ok(Ok(Results::Code(self.resource_refused))),
        }
    }

    /// A call of the Memory Manager. Rows of resource files forget the handles that it disposes of.
    fn call_memory<G: GrowZone, B: Before<S>>(
        &mut self,
        call: &MemoryCall<'_>,
        procedure: &mut G,
    ) -> Result<Outcome, HostFull>
        requires unasked { G.asks procedure.old ≡ [] }
        requires before { self.old.resources ≡ B.files }
        ensures gives { IfOk result (λ outcome. Gives S.ForkStore self.old (Memory call.now) (G.asks procedure.new) outcome self.new) }
        ensures shape { self.new.shape ≡ self.old.shape }
        ensures refused { self.new.refused ≡ self.old.refused }
        ensures resource_refused { self.new.resource_refused ≡ self.old.resource_refused }
        ensures source { G.source procedure.new ≡ G.source procedure.old }
        ensures unchanged { OnErr result (self.new ≡ self.old) }
        ensures unasked { OnErr result (G.asks procedure.new ≡ []) }
        ensures full { OnErr result (IsTrue (copies call.now)) }
        ensures late { OnErr result (refusal self.old.shape self.old.heap call.now ≡ None) }
    {
        let mut watched = Watched::<S, G, B>::new(&mut self.files, procedure);
        let outcome = making::make(&mut self.memory, self.alloc, call, &mut watched)?;
        if let Some(handle) = disposed_itself(call, &outcome) {
            self.files.forget(handle);
        }
        Ok(outcome)
    }

    /// A call of the Resource Manager.
    fn call_resource<G: GrowZone>(
        &mut self,
        call: &ResourceCall<'_>,
        procedure: &mut G,
    ) -> Result<Outcome, HostFull>
        requires { G.asks procedure.old ≡ [] }
        ensures gives { IfOk result (λ outcome. Gives S.ForkStore self.old (Resource call.now) (G.asks procedure.new) outcome self.new) }
        ensures shape { self.new.shape ≡ self.old.shape }
        ensures refused { self.new.refused ≡ self.old.refused }
        ensures resource_refused { self.new.resource_refused ≡ self.old.resource_refused }
        ensures source { G.source procedure.new ≡ G.source procedure.old }
        ensures unchanged { OnErr result (Unchanged S.ForkStore self.old (Resource call.now) self.new) }
        ensures unasked { OnErr result (G.asks procedure.new ≡ []) }
        ensures full { OnErr result (IsTrue (takes_memory S.ForkStore self.old (Resource call.now))) }
        ensures late { OnErr result (refusal_of S.ForkStore self.old (Resource call.now) ≡ None) }
    {
        let lent = self.loans.blocks();
        res_manager::make(
            &mut self.files,
            &mut self.memory,
            lent.as_slice(),
            self.alloc,
            call,
            procedure,
        )
    }

    /// Makes one call as `step` does, where the procedure gives the answers that are queued, first in, first out; with
    /// none left there is no procedure. Where it is `HostFull`, no answer was taken.
    pub fn step_queued(
        &mut self,
        call: &Call<'_>,
        queue: &mut AnswerQueue,
    ) -> Result<Reply, HostFull>
        ensures step { IfOk result (λ reply. Steps S.ForkStore self.old call.now queue.new.asks reply.outcome self.new) }
        ensures answers { IfOk result (λ reply. LeavesAnswers S.ForkStore self.old queue.old.left call.now queue.new.asks reply.outcome self.new queue.new.left) }
        ensures unchanged { OnErr result (Unchanged S.ForkStore self.old call.now self.new) }
        ensures kept { OnErr result (queue.new.left ≡ queue.old.left) }
        ensures full { OnErr result (IsTrue (takes_memory S.ForkStore self.old call.now)) }
        ensures late { OnErr result (refusal_of S.ForkStore self.old call.now ≡ None) }
    {
        queue.begin();
        let reply = self.step(call, queue);
        // What was asked says whether answers are left.
        prove!(queue.asks().len() <= MOST_ASKS);
        reply
    }

    /// Gives back the loans that are left, first to last, and hands out the memory, of which nothing is lent then, and
    /// the resource files. What isn't written stays unwritten.
    pub fn finish(self) -> (MemoryManager, ResourceFiles<S>)
        ensures heap { result.0.heap ≡ all_returned self.loans self.heap }
        ensures shape { result.0.shape ≡ self.shape }
        ensures nothing_lent { result.0.heap.table.lent ≡ [] }
        ensures files { result.1 ≡ self.resources }
    {
        let Toolbox {
            alloc: _,
            memory,
            loans,
            refused: _,
            files,
            resource_refused: _,
        } = self;
        (held_calls::lending::finish(memory, loans), files)
    }
}

/// The handle that a call of the Memory Manager disposed of itself, if it did.
fn disposed_itself(call: &MemoryCall<'_>, outcome: &Outcome) -> Option<Handle>
    ensures { result ≡ disposed_itself call.now outcome.now }
{
    match *call {
        MemoryCall::OnBlock(BlockCall::DisposeHandle(handle)) if outcome.is_ok() => Some(handle),
        _ => None,
    }
}
