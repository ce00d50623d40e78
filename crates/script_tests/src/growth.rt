//! Runs over a disk in memory that grows.

use crate::runs::{Plan, run_in};
use script_run::RunEnd;
use std::alloc::Global;
use std::process::Abort;
use std::test::Fail;

/// A resource is made, and loaded from the disk again. Then it gets longer, and comes back from a file that is opened
/// once more.
const SCRIPT: &str = "\
h = NewHandle 70000
Poke h 69998 \"Hi\"
AddResource h 'TEXT' 128
UpdateResFile
ReleaseResource h
k = GetResource 'TEXT' 128
Peek k 69998 2
SetHandleSize k 90000
Poke k 89998 \"on\"
ChangedResource k
CloseResFile
OpenResFile 1
n = GetResource 'TEXT' 128
SizeResource n
Peek n 89998 2
";

const PRINTED: &str = "\
1 NewHandle $0010003C 0
2 Poke 0
3 AddResource 0
4 UpdateResFile 0
5 ReleaseResource 0
6 GetResource $0010003C 0
7 Peek \"Hi\" 0
8 SetHandleSize 0
9 Poke 0
10 ChangedResource 0
11 CloseResFile 0
12 OpenResFile 1 0
13 GetResource $0010003C 0
14 SizeResource 90000 0
15 Peek \"on\" 0
";

/// Where the resource's bytes begin: after the header, the extra bytes and their length.
const DATA: usize = 260;

/// How many bytes the fork has then: those, and a map of 50.
const LEFT: usize = 90_310;

/// The disk has the bytes that the script put there.
fn check_left(rt: &impl Abort, left: &[u8]) {
    assert!(rt; left.len() == LEFT, "{} bytes", left.len());
    assert!(rt; left[DATA + 69_998..].starts_with(b"Hi\0"));
    assert!(rt; left[DATA + 89_998..].starts_with(b"on"));
}

#[test]
fn a_fork_in_memory_grows(rt: HostRuntime) -> Result<(), Fail> {
    let alloc: Global = rt.alloc();
    let plan = Plan {
        script: SCRIPT.as_bytes(),
        read: usize::MAX,
        written: usize::MAX,
        room: usize::MAX,
        fails: (false, false),
    };
    let seen = run_in(alloc, plan, 131_072, Vec::new(alloc), 0)?;
    assert!(&rt; seen.is_as(RunEnd::Finished, (0, 0), PRINTED.as_bytes()));
    check_left(&rt, seen.left());
    Ok(())
}
