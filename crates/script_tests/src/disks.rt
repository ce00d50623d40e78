//! Runs over a resource file on a disk of which each call fails in turn.

use crate::runs::{Plan, number, run_on, word};
use script_run::RunEnd;
use std::alloc::{AllocError, Global};
use std::process::Abort;
use std::test::Fail;

/// The second of two resources loses its byte. Six calls open the file, and the seventh loads; an update reads the
/// first resource's byte, and then it writes, cuts and syncs.
const SCRIPT: &str = "\
h = GetIndResource 'TEXT' 2
SetHandleSize h 0
ChangedResource h
UpdateResFile
GetResAttrs h
GetHandleSize h
CurResFile
";

/// Numbers of calls, up to which they fail from the first one on, in the next words the fork that is there then; and
/// what is printed. The last row is after all calls.
const RUNS: &str = "\
1 6 old
0 OpenResFile -36
1 GetIndResource -193
2 SetHandleSize -109
3 ChangedResource -193
4 UpdateResFile -193
5 GetResAttrs -193
6 GetHandleSize -109
7 CurResFile 0 0
|7 7 old
1 GetIndResource -36
2 SetHandleSize -109
3 ChangedResource -192
4 UpdateResFile 0
5 GetResAttrs -192
6 GetHandleSize -109
7 CurResFile 1 0
|8 8 old
1 GetIndResource $0010003C 0
2 SetHandleSize 0
3 ChangedResource 0
4 UpdateResFile -36
5 GetResAttrs 2 0
6 GetHandleSize 0 0
7 CurResFile 1 0
|9 9 old
1 GetIndResource $0010003C 0
2 SetHandleSize 0
3 ChangedResource 0
4 UpdateResFile -36
5 GetResAttrs -193
6 GetHandleSize 0 0
7 CurResFile 0 0
|10 10 longer
1 GetIndResource $0010003C 0
2 SetHandleSize 0
3 ChangedResource 0
4 UpdateResFile -36
5 GetResAttrs -193
6 GetHandleSize 0 0
7 CurResFile 0 0
|11 11 new
1 GetIndResource $0010003C 0
2 SetHandleSize 0
3 ChangedResource 0
4 UpdateResFile -36
5 GetResAttrs -193
6 GetHandleSize 0 0
7 CurResFile 0 0
|12 12 new
1 GetIndResource $0010003C 0
2 SetHandleSize 0
3 ChangedResource 0
4 UpdateResFile 0
5 GetResAttrs 0 0
6 GetHandleSize 0 0
7 CurResFile 1 0
";

/// The fork of 'TEXT' 5 with the byte "a" and 'TEXT' 5 with "b", of 328 bytes.
const OLD: (&[u8], &[u8]) = (
    b"\x00\x00\x01\x00\x00\x00\x01\x0a\x00\x00\x00\x0a\x00\x00\x00\x3e",
    b"\x00\x00\x00\x01a\x00\x00\x00\x01b",
);

/// The same with no bytes in place of "b", of 327 bytes.
const NEW: (&[u8], &[u8]) = (
    b"\x00\x00\x01\x00\x00\x00\x01\x09\x00\x00\x00\x09\x00\x00\x00\x3e",
    b"\x00\x00\x00\x01a\x00\x00\x00\x00",
);

/// The map of both after its copy of the header.
const MAP: &[u8] = b"\x00\x00\x00\x00\x00\x00\x00\x00\x00\x1c\x00\x3e\x00\x00TEXT\x00\x01\x00\x0a\
\x00\x05\xff\xff\x00\x00\x00\x00\x00\x00\x00\x00\x00\x05\xff\xff\x00\x00\x00\x05\x00\x00\x00\x00";

/// A fork of a header and data.
fn fork_of(alloc: Global, (header, data): (&[u8], &[u8])) -> Result<Vec<u8>, AllocError> {
    let mut fork = header.to_vec(alloc)?;
    fork.resize(256, 0)?;
    fork.extend_from_slice(data)?;
    fork.extend_from_slice(header)?;
    fork.extend_from_slice(MAP)?;
    Ok(fork)
}

/// A fork by its name: the new one, also with the last byte of the old one after it, or the old one.
fn fork_named(alloc: Global, name: &str) -> Result<Vec<u8>, AllocError> {
    if name == "old" {
        return fork_of(alloc, OLD);
    }
    let mut fork = fork_of(alloc, NEW)?;
    if name == "longer" {
        fork.push(0)?;
    }
    Ok(fork)
}

/// A run of which the disk's call of this number fails prints this, and leaves these bytes.
fn check_fault(
    rt: &impl Abort,
    alloc: Global,
    turn: u64,
    output: &str,
    after: &[u8],
) -> Result<(), Fail> {
    let plan = Plan {
        script: SCRIPT.as_bytes(),
        read: usize::MAX,
        written: usize::MAX,
        room: usize::MAX,
        fails: (false, false),
    };
    let seen = run_on(alloc, plan, fork_of(alloc, OLD)?, turn)?;
    let is_told = seen.is_as(RunEnd::Finished, (0, 0), output.as_bytes());
    let had_it = seen.calls().saturating_add(1) >= turn;
    assert!(rt; is_told && had_it && seen.left() == after, "call {turn}");
    Ok(())
}

/// Each call that a row names fails in turn.
fn check_row(rt: &impl Abort, alloc: Global, row: &str) -> Result<(), Fail> {
    let (head, output) = row.split_once('\n').unwrap_or((row, ""));
    let after = fork_named(alloc, word(head, 2))?;
    for turn in number(rt, head, 0)..=number(rt, head, 1) {
        check_fault(rt, alloc, turn as u64, output, &after)?;
    }
    Ok(())
}

#[test]
fn an_update_fails_in_turn(rt: HostRuntime) -> Result<(), Fail> {
    for row in RUNS.split('|') {
        check_row(&rt, rt.alloc(), row)?;
    }
    Ok(())
}
