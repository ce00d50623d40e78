//! Runs in which the reader or the writer fails.

use crate::runs::{Plan, number, run_on, word};
use script_run::RunEnd;
use std::alloc::Global;
use std::process::Abort;
use std::test::Fail;

/// A script, and what it prints in three writes, which have 47 bytes.
const SHORT: (&[u8], &[u8]) = (
    b"h = NewHandle 2\nPoke h 0 \"Hi\"\nPeek h 0 2\n",
    b"1 NewHandle $0010003C 0\n2 Poke 0\n3 Peek \"Hi\" 0\n",
);

/// Runs of that script: how many bytes a read gives and a write takes at most, for how many bytes there is room, who
/// fails once there is no more, and how the run ends.
const RUNS: &str = "\
1 1 48 none finished
7 5 48 writer finished
7 48 0 reader reading
0 48 0 reader reading
48 48 30 writer writing
48 48 30 none writing
48 3 0 writer writing
1 48 0 reader reading
5 2 46 writer writing";

/// An end by its name, and how often reader and writer have failed then.
fn end_of(name: &str) -> (RunEnd, (u64, u64)) {
    match name {
        "reading" => (RunEnd::ReadFault, (1, 0)),
        "writing" => (RunEnd::WriteFault, (0, 1)),
        _ => (RunEnd::Finished, (0, 0)),
    }
}

/// The plan of a row.
fn plan_of<'a>(rt: &impl Abort, script: &'a [u8], row: &str) -> Plan<'a> {
    let who = word(row, 3);
    Plan {
        script,
        read: number(rt, row, 0),
        written: number(rt, row, 1),
        room: number(rt, row, 2),
        fails: (who == "reader", who == "writer"),
    }
}

/// A run goes as a row says.
fn check_run(rt: &impl Abort, alloc: Global, row: &str) -> Result<(), Fail> {
    let (script, whole) = SHORT;
    let plan = plan_of(rt, script, row);
    let seen = run_on(alloc, plan, Vec::new(alloc), 0)?;
    let (end, failures) = end_of(word(row, 4));
    let wanted = &whole[..plan.room.min(whole.len())];
    assert!(rt; seen.is_as(end, failures, wanted), "{row}");
    Ok(())
}

#[test]
fn failures_end_a_run(rt: HostRuntime) -> Result<(), Fail> {
    for row in RUNS.lines() {
        check_run(&rt, rt.alloc(), row)?;
    }
    Ok(())
}
