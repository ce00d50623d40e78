//! What a crash leaves of each side by itself: a sync of one side settles nothing of the other.

use crate::forks::MANY;
use fork_disk::disk::DiskFault;
use fork_journal::{Choice, CrashPair, Fate, MemPair, PairDisk, Side};
use std::alloc::{AllocError, Global};

/// Writes to both sides, of which a sync before it settles nothing, and syncs these sides.
fn write_both(pair: &mut CrashPair, synced: &[Side]) -> Result<(), DiskFault> {
    pair.sync(Side::Fork)?;
    pair.sync(Side::Journal)?;
    pair.write_at(Side::Fork, 0, b"AB")?;
    pair.write_at(Side::Journal, 0, b"WX")?;
    for side in synced {
        pair.sync(*side)?;
    }
    Ok(())
}

/// A call of which a crash leaves this, at its new length.
fn left_as(fate: Fate) -> Choice {
    Choice {
        fate,
        has_new_length: true,
    }
}

/// What a start finds after that and a crash, by what becomes of the two writes where they wait for a sync.
fn found(alloc: Global, synced: &[Side], fates: (Fate, Fate)) -> Result<MemPair, AllocError> {
    let first = MemPair::new(alloc, b"abcd".to_vec(alloc)?, b"wxyz".to_vec(alloc)?)?;
    let mut pair = CrashPair::new(first, MANY);
    if write_both(&mut pair, synced).is_err() {
        return Err(AllocError);
    }
    let both = [
        Choice::WHOLE,
        Choice::WHOLE,
        left_as(fates.0),
        left_as(fates.1),
    ];
    pair.outcome(alloc, &both)
}

#[test]
fn settles_one_side(rt: HostRuntime) -> Result<(), AllocError> {
    let cases: [(&[Side], (Fate, Fate), (&[u8], &[u8])); 9] = [
        (&[], (Fate::Lost, Fate::Lost), (b"abcd", b"wxyz")),
        (&[], (Fate::Lost, Fate::Kept), (b"abcd", b"WXyz")),
        (&[], (Fate::Kept, Fate::Filled), (b"ABcd", b"\xFF\xFFyz")),
        (&[Side::Fork], (Fate::Lost, Fate::Lost), (b"ABcd", b"wxyz")),
        (
            &[Side::Fork],
            (Fate::Filled, Fate::Kept),
            (b"ABcd", b"WXyz"),
        ),
        (
            &[Side::Journal],
            (Fate::Lost, Fate::Lost),
            (b"abcd", b"WXyz"),
        ),
        (
            &[Side::Journal],
            (Fate::Filled, Fate::Lost),
            (b"\xFF\xFFcd", b"WXyz"),
        ),
        (
            &[Side::Journal],
            (Fate::Kept, Fate::Filled),
            (b"ABcd", b"WXyz"),
        ),
        (
            &[Side::Fork, Side::Journal],
            (Fate::Lost, Fate::Filled),
            (b"ABcd", b"WXyz"),
        ),
    ];
    for (index, (synced, fates, want)) in cases.iter().enumerate() {
        let left = found(rt.alloc(), synced, *fates)?;
        assert!(rt;
            left.fork() == want.0 && left.journal() == want.1,
            "case {index}"
        );
    }
    Ok(())
}
