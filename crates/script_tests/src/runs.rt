//! Runs over a reader, a writer and one resource file, each of which may fail.

ghost use Rattle.std.specs.Prelude.{◌≤◌, length, IfOk};
ghost use Rattle.res_files.specs.Standing.{most_files};

use fork_disk::store::PlainStore;
use fork_disk::{FailAt, MemDisk};
use mac_base::zone_spec::ZoneSpec;
use script_run::{Counted, Moments, RunEnd, run};
use std::alloc::{AllocError, Global};
use std::io;
use std::io::{ErrorKind, Read, Write};
use std::process::Abort;
use std::test::Fail;

/// A fork on a disk of which one call may fail.
type TestStore = PlainStore<FailAt<MemDisk>>;

/// How the streams of a run go: the script, how many bytes a read gives and a write takes at most, for how many bytes
/// there is room, and whether the reader and the writer fail once there is no more.
#[derive(Clone, Copy)]
pub(crate) struct Plan<'a> {
    pub(crate) script: &'a [u8],
    pub(crate) read: usize,
    pub(crate) written: usize,
    pub(crate) room: usize,
    pub(crate) fails: (bool, bool),
}

/// A reader of bytes that gives at most `piece` of them in a read, and fails after them or ends there.
#[derive(Drop)]
struct Pieces<'a> {
    rest: &'a [u8],
    piece: usize,
    fails: bool,
}

impl Read for Pieces<'_> {
    fn read(&mut self, buf: &mut [u8]) -> io::Result<usize> {
        let count = self.rest.len().min(self.piece).min(buf.len());
        if count == 0 && self.fails {
            return Err(io::Error::from(ErrorKind::Other));
        }
        let rest = self.rest;
        buf[..count].copy_from_slice(&rest[..count]);
        self.rest = &rest[count..];
        Ok(count)
    }
}

/// A writer that takes at most `piece` bytes in a write. Once it has `room` bytes it fails, or takes nothing more.
#[derive(Drop)]
struct Paper {
    text: Vec<u8>,
    piece: usize,
    room: usize,
    fails: bool,
}

impl Write for Paper {
    fn write(&mut self, buf: &[u8]) -> io::Result<usize> {
        let room = self.room.saturating_sub(self.text.len());
        let count = buf.len().min(self.piece).min(room);
        if count == 0 && self.fails {
            return Err(io::Error::from(ErrorKind::Other));
        }
        self.text.extend_from_slice(&buf[..count])?;
        Ok(count)
    }

    fn flush(&mut self) -> io::Result<()> {
        Ok(())
    }
}

/// How a run ended, what was written, how often reader and writer failed, and the disk.
#[derive(Drop)]
pub(crate) struct Seen {
    end: RunEnd,
    text: Vec<u8>,
    failures: (u64, u64),
    stores: Vec<TestStore>,
}

impl Seen {
    /// Whether the run ended so, after so many failures of the reader and the writer, and wrote this.
    pub(crate) fn is_as(&self, end: RunEnd, failures: (u64, u64), text: &[u8]) -> bool {
        let (reads, writes) = self.failures;
        self.end == end
            && reads == failures.0
            && writes == failures.1
            && self.text.as_slice() == text
    }

    /// The bytes that the disk has then.
    pub(crate) fn left(&self) -> &[u8] {
        match self.stores.first() {
            Some(store) => store.disk.disk().bytes(),
            None => &[],
        }
    }

    /// How many calls the disk had.
    pub(crate) fn calls(&self) -> u64 {
        match self.stores.first() {
            Some(store) => store.disk.calls(),
            None => 0,
        }
    }
}

/// One disk with these bytes, whose call of this number fails. With 0 none does.
fn one_disk(alloc: Global, bytes: Vec<u8>, turn: u64) -> Result<Vec<TestStore>, AllocError>
    ensures { IfOk result (λ stores. length stores.items ≤ most_files) }
{
    let mut stores = Vec::new(alloc);
    stores.push(PlainStore {
        disk: FailAt::new(MemDisk::from_bytes(bytes), turn),
    })?;
    Ok(stores)
}

/// The reader of a plan.
fn reader_of(plan: Plan<'_>) -> Pieces<'_> {
    Pieces {
        rest: plan.script,
        piece: plan.read,
        fails: plan.fails.0,
    }
}

/// The writer of a plan.
fn writer_of(alloc: Global, plan: Plan<'_>) -> Paper {
    Paper {
        text: Vec::new(alloc),
        piece: plan.written,
        room: plan.room,
        fails: plan.fails.1,
    }
}

/// Runs a plan on a zone of 4096 bytes at $00100000 and a disk with these bytes, whose call of this number fails.
pub(crate) fn run_on(
    alloc: Global,
    plan: Plan<'_>,
    bytes: Vec<u8>,
    turn: u64,
) -> Result<Seen, Fail> {
    run_in(alloc, plan, 4096, bytes, turn)
}

/// Runs a plan as `run_on`, on a zone of this size.
pub(crate) fn run_in(
    alloc: Global,
    plan: Plan<'_>,
    size: u32,
    bytes: Vec<u8>,
    turn: u64,
) -> Result<Seen, Fail> {
    let spec = ZoneSpec::new(0x10_0000, size, size)?;
    let stores = one_disk(alloc, bytes, turn)?;
    let mut reader = Counted::new(reader_of(plan));
    let mut writer = Counted::new(writer_of(alloc, plan));
    let mut moments = Moments::new();
    let (end, stores) = run(alloc, &mut reader, &mut writer, &mut moments, spec, stores);
    let failures = (reader.failures(), writer.failures());
    let paper = writer.into_inner();
    Ok(Seen {
        end,
        text: paper.text,
        failures,
        stores,
    })
}

/// The n-th word of a row, from 0 on.
pub(crate) fn word(row: &str, n: usize) -> &str {
    row.split(' ').nth(n).unwrap_or("")
}

/// The n-th word of a row as a number.
pub(crate) fn number(rt: &impl Abort, row: &str, n: usize) -> usize {
    word(row, n)
        .parse::<usize>()
        .ok()
        .expect(rt, "a number stands there")
}
