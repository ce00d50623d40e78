//! Requests for room: trials in the zone, and the grow-zone procedure between them.

ghost use Rattle.std.specs.Prelude.{◌≡◌, ◌≤◌, IsTrue, IsFalse, []};
ghost use Rattle.linked_zone.specs.Loans.{KeepsLoans};
ghost use Rattle.mac_base.specs.Sound.{Sound};
ghost use Rattle.mac_base.specs.Request.{length_asked};
ghost use Rattle.mac_base.specs.GrowZone.{may_ask, may_note, carried_once, carried_out};
ghost use Rattle.zone_heap.specs.Attempts.{CanAsk, lacks_slot, most_asked};
ghost use Rattle.zone_heap.specs.Purge.{is_protected};
ghost use Rattle.mem_calls.specs.Requesting.{EndsAttempt, IsTrial, IsNewlyAnswered, IsTurn, MayAskMore, IsRun, IsCallRun, with_carried};

use crate::releasing::{operand_of, release};
use mac_base::error::OsErr;
use mac_base::releasing::ReleasingCall;
use mac_base::request::Request;
use mac_base::size::{MASTER_LENGTH, need_for};
use mac_base::{Answer, GrowZone};
use zone_heap::Zone;

/// The answers that the grow-zone procedure may give in one call.
const MOST_ANSWERS: u32 = 16;

/// The bytes of contents that a request asks for.
fn length_asked(request: Request) -> u32
    ensures { result ≡ length_asked request }
{
    match request {
        Request::NewEmpty => 0,
        Request::NewMaster => MASTER_LENGTH,
        Request::NewBlock(size)
        | Request::NewPointer(size)
        | Request::Reserve(size)
        | Request::Resize(_, size)
        | Request::Replace(_, size) => size,
    }
}

/// One attempt to serve a request in the zone as it is. A slot is free where the request is for a new handle.
fn attempt(zone: &mut Zone, request: &Request) -> Option<u32>
    requires ready { CanAsk zone.old request.now }
    requires slot { IsFalse (lacks_slot request.now zone.old.heap) }
    ensures attempt { EndsAttempt zone.old request.now result zone.new }
    ensures loans { KeepsLoans zone.old zone.new }
{
    zone.attempt(*request).ok()
}

/// One trial of a request: in the zone as it is, or else once it has grown to its limit, or else once as few handles
/// are purged as serve, and all that may be where none do.
fn trial(zone: &mut Zone, request: &Request, protected: &[u32]) -> Option<u32>
    requires ready { CanAsk zone.old request.now }
    requires protects { IsTrue (is_protected protected.now request.now) }
    requires slot { IsFalse (lacks_slot request.now zone.old.heap) }
    ensures trial { IsTrial zone.old.shape protected.now request.now zone.old.heap result zone.new.heap }
    ensures shape { zone.new.shape ≡ zone.old.shape }
    ensures loans { KeepsLoans zone.old zone.new }
{
    if let Some(given) = attempt(zone, request) {
        return Some(given);
    }
    zone.extend();
    if let Some(given) = attempt(zone, request) {
        return Some(given);
    }
    zone.purge_for(*request, protected);
    attempt(zone, request)
}

/// Carries out a call of an answer, unless its operand is protected, and reports to the procedure how it ended.
fn carry_one<G: GrowZone>(
    zone: &mut Zone,
    call: &ReleasingCall,
    protected: &[u32],
    procedure: &mut G,
)
    requires { IsTrue (may_note (G.asks procedure.old)) }
    ensures heap { zone.new.heap ≡ (carried_once zone.old.shape protected.now call.now (record { heap = zone.old.heap; calls = [] })).heap }
    ensures asks { G.asks procedure.new ≡ with_carried (carried_once zone.old.shape protected.now call.now (record { heap = zone.old.heap; calls = [] })).calls (G.asks procedure.old) }
    ensures source { G.source procedure.new ≡ G.source procedure.old }
    ensures shape { zone.new.shape ≡ zone.old.shape }
    ensures loans { KeepsLoans zone.old zone.new }
{
    if !protected.contains(&operand_of(call)) {
        procedure.did(*call, release(zone, *call).err());
    }
}

/// Carries out the calls of an answer in order, each unless its operand is protected, and reports to the procedure how
/// each ended.
fn carry_out<G: GrowZone>(zone: &mut Zone, answer: &Answer, protected: &[u32], procedure: &mut G)
    requires { IsNewlyAnswered answer.now (G.asks procedure.old) }
    ensures heap { zone.new.heap ≡ (carried_out zone.old.shape protected.now answer.now.calls zone.old.heap).heap }
    ensures asks { G.asks procedure.new ≡ with_carried (carried_out zone.old.shape protected.now answer.now.calls zone.old.heap).calls (G.asks procedure.old) }
    ensures source { G.source procedure.new ≡ G.source procedure.old }
    ensures shape { zone.new.shape ≡ zone.old.shape }
    ensures loans { KeepsLoans zone.old zone.new }
{
    for place in answer.calls() {
        if let Some(call) = place {
            carry_one(zone, call, protected, procedure);
        }
    }
}

/// Asks the procedure for the bytes that a request needs, and carries out the calls of its answer. Whether another
/// trial may find room.
fn turn<G: GrowZone>(
    zone: &mut Zone,
    request: &Request,
    protected: &[u32],
    procedure: &mut G,
) -> bool
    requires size { length_asked request.now ≤ most_asked }
    requires may { IsTrue (may_ask (G.asks procedure.old)) }
    ensures turn { IsTurn zone.old.shape protected.now request.now zone.old.heap (G.asks procedure.old) result (G.asks procedure.new) zone.new.heap }
    ensures source { G.source procedure.new ≡ G.source procedure.old }
    ensures shape { zone.new.shape ≡ zone.old.shape }
    ensures loans { KeepsLoans zone.old zone.new }
{
    let needed = need_for(zone.linked().spec().heads(), length_asked(*request));
    match procedure.ask(needed) {
        Some(answer) => {
            carry_out(zone, &answer, protected, procedure);
            answer.value() != 0
        }
        None => false,
    }
}

/// Runs a request: trials, and turns of the procedure between them while it may still answer. It counts the answers
/// down, and calls itself after each turn: 17 deep at most, since a call begins with 16 answers.
fn run<G: GrowZone>(
    zone: &mut Zone,
    request: &Request,
    protected: &[u32],
    allowed: &mut u32,
    procedure: &mut G,
) -> Option<u32>
    requires ready { CanAsk zone.old request.now }
    requires protects { IsTrue (is_protected protected.now request.now) }
    requires slot { IsFalse (lacks_slot request.now zone.old.heap) }
    requires may { MayAskMore allowed.old (G.asks procedure.old) }
    ensures run { IsRun zone.old.shape protected.now request.now allowed.old allowed.new (G.asks procedure.old) (G.asks procedure.new) zone.old.heap result zone.new.heap }
    ensures source { G.source procedure.new ≡ G.source procedure.old }
    ensures shape { zone.new.shape ≡ zone.old.shape }
    ensures loans { KeepsLoans zone.old zone.new }
{
    if let Some(given) = trial(zone, request, protected) {
        return Some(given);
    }
    if *allowed == 0 {
        return None;
    }
    *allowed -= 1;
    if !turn(zone, request, protected, procedure) {
        return None;
    }
    run(zone, request, protected, allowed, procedure)
}

/// Whether a request is for a new handle, and no slot is free.
pub(crate) fn lacks_slot(zone: &Zone, request: &Request) -> bool
    ensures { result ≡ lacks_slot request.now zone.now.heap }
{
    matches!(request, Request::NewBlock(_) | Request::NewEmpty) && !zone.linked().has_slot()
}

/// Runs the request of a call, after one for a master block where it is for a new handle and no slot is free. In both
/// the grow-zone procedure may answer 16 times at most.
pub(crate) fn request<G: GrowZone>(
    zone: &mut Zone,
    request: &Request,
    protected: &[u32],
    procedure: &mut G,
) -> Result<u32, OsErr>
    requires ready { CanAsk zone.old request.now }
    requires protects { IsTrue (is_protected protected.now request.now) }
    requires unasked { G.asks procedure.old ≡ [] }
    ensures run { IsCallRun zone.old.shape protected.now request.now (G.asks procedure.new) zone.old.heap result zone.new.heap }
    ensures source { G.source procedure.new ≡ G.source procedure.old }
    ensures sound { Sound zone.old.shape zone.old.heap }
    ensures shape { zone.new.shape ≡ zone.old.shape }
    ensures loans { KeepsLoans zone.old zone.new }
{
    // The address of the first block says that the heap is sound.
    prove!(zone.first_block() > 0);
    let mut allowed = MOST_ANSWERS;
    if lacks_slot(zone, request) {
        run(
            zone,
            &Request::NewMaster,
            protected,
            &mut allowed,
            procedure,
        )
        .ok_or(OsErr::MemFullErr)?;
    }
    run(zone, request, protected, &mut allowed, procedure).ok_or(OsErr::MemFullErr)
}
