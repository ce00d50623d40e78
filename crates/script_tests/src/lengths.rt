//! Forks and journals of many bytes.

use crate::forks::{MANY, is_replaced, one_row, started};
use fork_disk::store::ForkStore;
use fork_journal::{Choice, CrashPair, Fate, Journal, MemPair};
use std::alloc::{AllocError, Global};
use std::process::Abort;

/// About as long as the longest fork.
const LONG: usize = 4_000_000;

/// So many bytes, which repeat after 251.
fn bytes_of(alloc: Global, count: usize) -> Result<Vec<u8>, AllocError> {
    let mut bytes = Vec::with_capacity(alloc, count)?;
    for n in 0..count {
        bytes.push((n % 251) as u8)?;
    }
    Ok(bytes)
}

/// The journal of a fork, with this gate.
fn journal_of(alloc: Global, gate: u8, fork: &[u8]) -> Result<Vec<u8>, AllocError> {
    let mut journal = vec![in alloc; gate]?;
    journal.extend_from_slice(&(fork.len() as u64).to_be_bytes()[4..])?;
    journal.extend_from_slice(fork)?;
    Ok(journal)
}

/// A store that is recovered, of a pair that a start finds so.
fn recovered(
    rt: &impl Abort,
    alloc: Global,
    fork: &[u8],
    journal: &[u8],
) -> Result<Journal<CrashPair>, AllocError> {
    let mut store = started(alloc, fork, journal, MANY)?;
    assert!(rt; store.recover().is_ok());
    Ok(store)
}

/// Whether a store has this fork, and a journal of it that is shut.
fn has_both(alloc: Global, store: &Journal<CrashPair>, fork: &[u8]) -> Result<bool, AllocError> {
    let pair = store.pair().pair();
    let shut = journal_of(alloc, 0, fork)?;
    Ok(pair.fork() == fork && pair.journal() == shut.as_slice())
}

#[test]
fn recovers_forks_of_any_length(rt: HostRuntime) -> Result<(), AllocError> {
    let old = one_row(rt.alloc())?;
    for count in [0, 1, 255, 256, 65_535, 65_536, 200_001, LONG] {
        let fork = bytes_of(rt.alloc(), count)?;
        let open = journal_of(rt.alloc(), 1, &fork)?;
        let store = recovered(&rt, rt.alloc(), &old, &open)?;
        assert!(rt; has_both(rt.alloc(), &store, &fork)?, "{count} bytes");
    }
    Ok(())
}

/// What a start finds where an update was stopped after so many calls, and each that waits for a sync comes to this.
fn stopped(
    alloc: Global,
    (old, new): (&[u8], &[u8]),
    calls: u64,
    choice: Choice,
) -> Result<MemPair, AllocError> {
    let mut store = started(alloc, old, &[], calls)?;
    let _done = is_replaced(&mut store, new);
    let choices = vec![in alloc; choice; MANY as usize]?;
    store.pair().outcome(alloc, &choices)
}

/// The fork after an update that was stopped after so many calls, and a recovery. The last of nine calls is the sync of
/// the open gate.
fn check_stop(
    rt: &impl Abort,
    alloc: Global,
    (old, new): (&[u8], &[u8]),
    calls: u64,
    choice: Choice,
) -> Result<(), AllocError> {
    let left = stopped(alloc, (old, new), calls, choice)?;
    let store = recovered(rt, alloc, left.fork(), left.journal())?;
    let want = if calls < 9 { old } else { new };
    assert!(rt; store.pair().pair().fork() == want, "call {calls}");
    Ok(())
}

#[test]
fn updates_long_forks(rt: HostRuntime) -> Result<(), AllocError> {
    let lost = Choice {
        fate: Fate::Lost,
        has_new_length: false,
    };
    let filled = Choice {
        fate: Fate::Filled,
        has_new_length: true,
    };
    let old = one_row(rt.alloc())?;
    let new = bytes_of(rt.alloc(), LONG)?;
    for (calls, choice) in [(8, lost), (10, filled)] {
        check_stop(&rt, rt.alloc(), (&old, &new), calls, choice)?;
    }
    let mut store = started(rt.alloc(), &old, &[], MANY)?;
    assert!(rt; is_replaced(&mut store, &new) && has_both(rt.alloc(), &store, &new)?);
    Ok(())
}
