//! Crashes at each moment: what a start then finds is the fork before the update or the one after it.

use crate::forks::{MANY, front, is_replaced, journal_of, one_row, started, two_rows};
use fork_disk::store::ForkStore;
use fork_journal::{Call, Choice, CrashPair, Fate, Journal, MemPair, Side};
use std::alloc::{AllocError, Global};
use std::process::Abort;

/// What a crash may leave of a write, the n-th of six: lost, kept or filled, at the old length or the new one.
fn of_write(n: u64) -> Choice {
    let fate = match n / 2 {
        0 => Fate::Lost,
        1 => Fate::Kept,
        _ => Fate::Filled,
    };
    Choice {
        fate,
        has_new_length: n % 2 == 1,
    }
}

/// And of a cut, the n-th of three: as a write that is kept, or one that is filled at the old length.
fn of_cut(n: u64) -> Choice {
    of_write(match n {
        0 => 3,
        1 => 2,
        _ => 4,
    })
}

/// Whether a call is on this side.
fn is_on(side: Side, call: &Call) -> bool {
    let (Call::Write(other, ..) | Call::Cut(other, _) | Call::Sync(other)) = call;
    matches!(
        (side, other),
        (Side::Fork, Side::Fork) | (Side::Journal, Side::Journal)
    )
}

/// Whether a call is a sync, or one of its side comes after it.
fn is_settled(calls: &[Call], index: usize, call: &Call) -> bool {
    for later in calls.iter().skip(index) {
        if let Call::Sync(side) = later
            && is_on(*side, call)
        {
            return true;
        }
    }
    false
}

/// In how many ways a crash may leave what a call did.
fn count_ways(calls: &[Call], index: usize, call: &Call) -> u64 {
    if is_settled(calls, index, call) {
        1
    } else if matches!(call, Call::Write(..)) {
        6
    } else {
        3
    }
}

/// How many outcomes a crash may have.
fn count_outcomes(calls: &[Call]) -> u64 {
    let mut count: u64 = 1;
    for (index, call) in calls.iter().enumerate() {
        count = count.saturating_mul(count_ways(calls, index, call));
    }
    count
}

/// What the n-th outcome has of a call that may be left in so many ways, and which of the others it is for the calls
/// after it.
fn pick(ways: u64, n: u64) -> (Choice, u64) {
    match ways {
        6 => (of_write(n % 6), n / 6),
        3 => (of_cut(n % 3), n / 3),
        _ => (Choice::WHOLE, n),
    }
}

/// The n-th of these outcomes.
fn outcome(alloc: Global, pair: &CrashPair, n: u64) -> Result<MemPair, AllocError> {
    let calls = pair.pair().calls();
    let mut rest = n;
    let mut picked = Vec::new(alloc);
    for (index, call) in calls.iter().enumerate() {
        let (choice, more) = pick(count_ways(calls, index, call), rest);
        picked.push(choice)?;
        rest = more;
    }
    pair.outcome(alloc, &picked)
}

/// The fork of a store.
fn copied(alloc: Global, store: &Journal<CrashPair>) -> Result<Vec<u8>, AllocError> {
    store.pair().pair().fork().to_vec(alloc)
}

/// The fork after a start that nothing stops.
fn recovered(rt: &impl Abort, alloc: Global, found: &MemPair) -> Result<Vec<u8>, AllocError> {
    let mut store = started(alloc, found.fork(), found.journal(), MANY)?;
    assert!(rt; store.recover().is_ok());
    copied(alloc, &store)
}

/// Recovers each outcome of a recovery that was stopped after so many calls: always the same fork. How many there are.
fn check_recoveries(
    rt: &impl Abort,
    alloc: Global,
    pair: &CrashPair,
    calls: u64,
    want: &[u8],
) -> Result<u64, AllocError> {
    let count = count_outcomes(pair.pair().calls());
    for n in 0..count {
        let left = outcome(alloc, pair, n)?;
        assert!(rt;
            recovered(rt, alloc, &left)?.as_slice() == want,
            "recovery call {calls}, outcome {n}"
        );
    }
    Ok(count)
}

/// Stops a recovery after each of its calls, and recovers each outcome of that: always the same fork. How many were
/// seen.
fn stop_recovery(
    rt: &impl Abort,
    alloc: Global,
    found: &MemPair,
    want: &[u8],
) -> Result<u64, AllocError> {
    let mut seen: u64 = 0;
    for calls in 0..MANY {
        let mut store = started(alloc, found.fork(), found.journal(), calls)?;
        let is_done = store.recover().is_ok();
        let count = check_recoveries(rt, alloc, store.pair(), calls, want)?;
        seen = seen.saturating_add(count);
        if is_done {
            break;
        }
    }
    Ok(seen)
}

/// Whether a fork is one of both.
fn is_either(fork: &[u8], either: (&[u8], &[u8])) -> bool {
    fork == either.0 || fork == either.1
}

/// Recovers the n-th outcome of an update that was stopped after so many calls: one of both forks. Then it stops that
/// recovery. How many outcomes of that were seen.
fn check_outcome(
    rt: &impl Abort,
    alloc: Global,
    left: &MemPair,
    (calls, n): (u64, u64),
    either: (&[u8], &[u8]),
) -> Result<u64, AllocError> {
    let fork = recovered(rt, alloc, left)?;
    assert!(rt; is_either(&fork, either), "call {calls}, outcome {n}");
    stop_recovery(rt, alloc, left, &fork)
}

/// The same for each outcome.
fn check_outcomes(
    rt: &impl Abort,
    alloc: Global,
    pair: &CrashPair,
    calls: u64,
    either: (&[u8], &[u8]),
) -> Result<u64, AllocError> {
    let mut seen: u64 = 0;
    for n in 0..count_outcomes(pair.pair().calls()) {
        let left = outcome(alloc, pair, n)?;
        let count = check_outcome(rt, alloc, &left, (calls, n), either)?;
        seen = seen.saturating_add(count);
    }
    Ok(seen)
}

/// Stops an update after each of its calls, and each recovery of each outcome. How many outcomes were seen.
fn stop_update(
    rt: &impl Abort,
    alloc: Global,
    old: &[u8],
    journal: &[u8],
    new: &[u8],
) -> Result<u64, AllocError> {
    let mut seen: u64 = 0;
    for calls in 0..MANY {
        let mut store = started(alloc, old, journal, calls)?;
        let is_done = is_replaced(&mut store, new);
        let before = if is_done { new } else { old };
        let count = check_outcomes(rt, alloc, store.pair(), calls, (new, before))?;
        seen = seen.saturating_add(count);
        if is_done {
            break;
        }
    }
    Ok(seen)
}

/// The same after a journal of this gate, with these bytes.
fn stop_after(
    rt: &impl Abort,
    alloc: Global,
    old: &[u8],
    (gate, bytes): (u8, &[u8]),
    new: &[u8],
) -> Result<u64, AllocError> {
    let journal = journal_of(alloc, gate, bytes)?;
    stop_update(rt, alloc, old, &journal, new)
}

/// An update where there is no journal yet, and one after a gate that is open over too short a text.
fn stop_forth(
    rt: &impl Abort,
    alloc: Global,
    first: &[u8],
    second: &[u8],
) -> Result<u64, AllocError> {
    let seen = stop_update(rt, alloc, first, &[], second)?;
    let more = stop_after(rt, alloc, first, (1, front(second, 311)), second)?;
    Ok(seen.saturating_add(more))
}

/// One back with the journal of the first, and one back with a longer journal of any bytes.
fn stop_back(
    rt: &impl Abort,
    alloc: Global,
    first: &[u8],
    second: &[u8],
) -> Result<u64, AllocError> {
    let ones = vec![in alloc; 1; 400]?;
    let seen = stop_after(rt, alloc, second, (0, second), first)?;
    let more = stop_after(rt, alloc, second, (2, &ones), first)?;
    Ok(seen.saturating_add(more))
}

#[test]
fn leaves_the_fork_before_or_after(rt: HostRuntime) -> Result<(), AllocError> {
    let (first, second) = (two_rows(rt.alloc())?, one_row(rt.alloc())?);
    let forth = stop_forth(&rt, rt.alloc(), &first, &second)?;
    let back = stop_back(&rt, rt.alloc(), &first, &second)?;
    let seen = forth.saturating_add(back);
    assert!(rt; seen >= 6_000, "{seen} outcomes");
    Ok(())
}
