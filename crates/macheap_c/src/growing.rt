//! The grow-zone procedure of C: answers that are queued before a call, and what a call asked, which is read after it.

ghost use Rattle.std.specs.Prelude.{◌≡◌, IfSome, is_some, option_map};
ghost use Rattle.std.specs.List.{slice_get};
ghost use Rattle.mac_base.specs.GrowZone.{Ask};
ghost use Rattle.macheap_c.specs.Growing.{AnswerTold, IsShown, answer_of, ask_at, asks_made, carried_at, carried_for, is_known, release_of, shown_ask, shown_carried};

use held_calls::answers::{Carried, MadeAsk};
use held_zone::host_err::HostErr;
use held_zone::zone::MhZone;
use mac_base::Answer;
use mac_base::error::NO_ERR;
use mac_base::handle::{Handle, Ptr};
use mac_base::releasing::ReleasingCall;
use std::alloc::Global;

/// The kind of a place of an answer that has no call.
const NO_CALL: u32 = 0;

/// The kind of a call DisposeHandle of an answer.
const DISPOSE_HANDLE: u32 = 1;

/// That of a DisposePtr.
const DISPOSE_PTR: u32 = 2;

/// That of an EmptyHandle, the last of the kinds.
const EMPTY_HANDLE: u32 = 3;

/// A call of an answer, or none: its kind (0 none, 1 DisposeHandle, 2 DisposePtr, 3 EmptyHandle) and its operand.
#[repr(C)]
#[derive(Clone, Copy)]
pub struct MhRelease {
    pub kind: u32,
    pub operand: u32,
}

/// An answer of the grow-zone procedure: a value that isn't 0 where another trial may find room, and calls that release
/// blocks, in order: in C an array of eight.
#[repr(C)]
#[derive(Clone, Copy)]
pub struct MhAnswer {
    pub value: u32,
    pub first: MhRelease,
    pub second: MhRelease,
    pub third: MhRelease,
    pub fourth: MhRelease,
    pub fifth: MhRelease,
    pub sixth: MhRelease,
    pub seventh: MhRelease,
    pub eighth: MhRelease,
}

/// One ask of a call: the bytes that were needed, whether it was answered (1) or not (0), the answer's value, and how
/// many of its calls were carried out.
#[repr(C)]
#[derive(Clone, Copy)]
pub struct MhAsk {
    pub needed: u32,
    pub answered: u32,
    pub value: u32,
    pub carried: u32,
}

/// A call of an answer that was carried out, and its code.
#[repr(C)]
#[derive(Clone, Copy)]
pub struct MhCarried {
    pub kind: u32,
    pub operand: u32,
    pub code: i16,
}

/// Queues an answer after the others, for the calls to come. Sixteen may wait, and the next is InUse. BadNumber where a
/// place is of no known kind.
#[unsafe(no_mangle)]
pub extern "C" fn mh_queue_answer(alloc: Global, zone: &mut MhZone, answer: &MhAnswer) -> i16
    ensures { AnswerTold zone.old.held.session answer.now result zone.new.held.session }
{
    let Some(mut session) = zone.take(alloc) else {
        return HostErr::NotThere.code();
    };
    let Some(answer) = queued(answer) else {
        zone.put(session);
        return HostErr::BadNumber.code();
    };
    let done = session.queue(answer);
    zone.put(session);
    match done {
        Ok(()) => NO_ERR,
        Err(refusal) => refusal.code(),
    }
}

/// The answer that C gives, if all its places are of known kinds.
fn queued(answer: &MhAnswer) -> Option<Answer>
    ensures { result ≡ answer_of answer.now }
{
    let MhAnswer {
        value,
        first,
        second,
        third,
        fourth,
        fifth,
        sixth,
        seventh,
        eighth,
    } = *answer;
    let calls = [
        release(first)?,
        release(second)?,
        release(third)?,
        release(fourth)?,
        release(fifth)?,
        release(sixth)?,
        release(seventh)?,
        release(eighth)?,
    ];
    Some(Answer::new(calls, value))
}

/// The call at a place of an answer, or that it has none, if the place is of a known kind.
fn release(place: MhRelease) -> Option<Option<ReleasingCall>>
    ensures known { is_some result ≡ is_known place }
    ensures call { IfSome result (λ call. call ≡ release_of place) }
{
    let operand = place.operand;
    match place.kind {
        NO_CALL => Some(None),
        DISPOSE_HANDLE => Some(Some(ReleasingCall::DisposesHandle(Handle::new(operand)))),
        DISPOSE_PTR => Some(Some(ReleasingCall::DisposesPtr(Ptr::new(operand)))),
        EMPTY_HANDLE => Some(Some(ReleasingCall::Empties(Handle::new(operand)))),
        _ => None,
    }
}

/// How often the last call of the Memory Manager asked.
#[unsafe(no_mangle)]
pub extern "C" fn mh_asked(alloc: Global, zone: &mut MhZone, count: &mut u32) -> i16
    ensures { IsShown asks_made zone.old.held.session result count.old count.new zone.new.held.session }
{
    let Some(session) = zone.take(alloc) else {
        return HostErr::NotThere.code();
    };
    *count = session.asks_made();
    zone.put(session);
    NO_ERR
}

/// One of the asks of the last call, from 0 on. NoneSuch where there are not so many.
#[unsafe(no_mangle)]
pub extern "C" fn mh_ask(alloc: Global, zone: &mut MhZone, index: u32, ask: &mut MhAsk) -> i16
    ensures { IsShown (ask_at index) zone.old.held.session result ask.old ask.new zone.new.held.session }
{
    let Some(session) = zone.take(alloc) else {
        return HostErr::NotThere.code();
    };
    let found = shown_at(session.asks(), index as usize);
    zone.put(session);
    match found {
        Some(found) => {
            *ask = found;
            NO_ERR
        }
        None => HostErr::NoneSuch.code(),
    }
}

/// One of the calls that were carried out for one of these asks, both from 0 on. NoneSuch where there are not so many.
#[unsafe(no_mangle)]
pub extern "C" fn mh_carried(
    alloc: Global,
    zone: &mut MhZone,
    index: u32,
    place: u32,
    carried: &mut MhCarried,
) -> i16
    ensures { IsShown (carried_at index place) zone.old.held.session result carried.old carried.new zone.new.held.session }
{
    let Some(session) = zone.take(alloc) else {
        return HostErr::NotThere.code();
    };
    let found = carried_in(session.asks(), index as usize, place as usize);
    zone.put(session);
    match found {
        Some(found) => {
            *carried = found;
            NO_ERR
        }
        None => HostErr::NoneSuch.code(),
    }
}

/// The ask at a place, as C is shown it.
fn shown_at(asks: &[MadeAsk], index: usize) -> Option<MhAsk>
    ensures { result ≡ option_map shown_ask (slice_get asks.now index) }
{
    Some(shown_ask(asks.get(index)?))
}

/// An ask as C is shown it.
fn shown_ask(ask: &MadeAsk) -> MhAsk
    ensures { result ≡ shown_ask ask.now }
{
    let (answered, value) = match ask.answer() {
        Some(answer) => (1, answer.value()),
        None => (0, 0),
    };
    MhAsk {
        needed: ask.needed(),
        answered,
        value,
        carried: ask.carried().len() as u32,
    }
}

/// A call that was carried out for one of these asks, as C is shown it.
fn carried_in(asks: &[MadeAsk], index: usize, place: usize) -> Option<MhCarried>
    ensures { result ≡ option_map shown_carried (slice_get (carried_for (slice_get asks.now index)) place) }
{
    Some(shown_carried(asks.get(index)?.carried().get(place)?))
}

/// A call that was carried out, as C is shown it.
fn shown_carried(carried: &Carried) -> MhCarried
    ensures { result ≡ shown_carried carried.now }
{
    let (kind, operand) = match carried.call() {
        ReleasingCall::DisposesHandle(handle) => (DISPOSE_HANDLE, handle.number()),
        ReleasingCall::DisposesPtr(pointer) => (DISPOSE_PTR, pointer.number()),
        ReleasingCall::Empties(handle) => (EMPTY_HANDLE, handle.number()),
    };
    let code = match carried.code() {
        None => NO_ERR,
        Some(code) => code.code(),
    };
    MhCarried {
        kind,
        operand,
        code,
    }
}
