//! The forks of the tests, and pairs that have them.

use fork_disk::store::ForkStore;
use fork_journal::{CrashPair, Journal, MemPair, PairDisk};
use std::alloc::{AllocError, Global};

/// More writes, cuts and syncs than an update or a recovery makes.
pub const MANY: u64 = 20;

/// A header, 240 bytes of zeros, and what follows.
fn fork_of(alloc: Global, header: &[u8; 16], rest: &[u8]) -> Result<Vec<u8>, AllocError> {
    let mut fork = header.to_vec(alloc)?;
    fork.resize(256, 0)?;
    fork.extend_from_slice(rest)?;
    Ok(fork)
}

/// One row, 'TEXT' 128 with the bytes "Hi": 312 bytes.
pub fn one_row(alloc: Global) -> Result<Vec<u8>, AllocError> {
    fork_of(
        alloc,
        b"\0\0\x01\0\0\0\x01\x06\0\0\0\x06\0\0\0\x32",
        b"\0\0\0\x02Hi\
          \0\0\x01\0\0\0\x01\x06\0\0\0\x06\0\0\0\x32\
          \0\0\0\0\0\0\0\0\0\x1C\0\x32\
          \0\0TEXT\0\0\0\x0A\
          \0\x80\xFF\xFF\0\0\0\0\0\0\0\0",
    )
}

/// Two rows of one id, 'TEXT' 5 with the bytes "a" and "b": 328 bytes.
pub fn two_rows(alloc: Global) -> Result<Vec<u8>, AllocError> {
    fork_of(
        alloc,
        b"\0\0\x01\0\0\0\x01\x0A\0\0\0\x0A\0\0\0\x3E",
        b"\0\0\0\x01a\0\0\0\x01b\
          \0\0\x01\0\0\0\x01\x0A\0\0\0\x0A\0\0\0\x3E\
          \0\0\0\0\0\0\0\0\0\x1C\0\x3E\
          \0\0TEXT\0\x01\0\x0A\
          \0\x05\xFF\xFF\0\0\0\0\0\0\0\0\
          \0\x05\xFF\xFF\0\0\0\x05\0\0\0\0",
    )
}

/// A journal with this gate, that says 312 bytes, and with these after it.
pub fn journal_of(alloc: Global, gate: u8, bytes: &[u8]) -> Result<Vec<u8>, AllocError> {
    let mut journal = vec![in alloc; gate, 0, 0, 1, 0x38]?;
    journal.extend_from_slice(bytes)?;
    Ok(journal)
}

/// A store as a start finds it with these bytes, whose pair stops after so many writes, cuts and syncs.
pub fn started(
    alloc: Global,
    fork: &[u8],
    journal: &[u8],
    calls: u64,
) -> Result<Journal<CrashPair>, AllocError> {
    let pair = MemPair::new(alloc, fork.to_vec(alloc)?, journal.to_vec(alloc)?)?;
    Ok(Journal::new(alloc, CrashPair::new(pair, calls)))
}

/// The first bytes of some, so many as there are.
pub fn front(bytes: &[u8], count: usize) -> &[u8] {
    bytes.get(..count).unwrap_or(bytes)
}

/// Whether a recovery and then an update were answered as done. A fork is too long whose length four bytes don't hold.
pub fn is_replaced<P: PairDisk>(store: &mut Journal<P>, new: &[u8]) -> bool {
    match store.recover() {
        Ok(()) => new.len() <= u32::MAX as usize && store.replace(new).is_ok(),
        Err(_) => false,
    }
}
