//! Readers and writers that count their failures.

ghost use Rattle.std.specs.Prelude.{◌≡◌, ◌==◌, ◌++◌, [], length, is_err, true, false};
ghost use Rattle.std.specs.Io.{ReadsAtMost, WritesAtMost};
ghost use Rattle.std.specs.Io.KnownBytes.{Keeps, ReadConsumes, WriteAppends};
ghost use Rattle.script_run.specs.Counting.{counted, passed_by, takes_nothing};

use fork_disk::Record;
use std::io;
use std::io::{Read, Write};
use std::marker::Model;

/// A reader or a writer that counts its failures. A contract sees what is counted, the count, which stays at its last
/// value, and the bytes that were given or taken so far. No memory holds the bytes.
#[derive(Drop)]
pub struct Counted<T> {
    inner: T,
    failures: u64,
    passed: Record<u8>,
}

impl<T> Model for Counted<T> {
    ghost use Rattle.script_run.specs.Counting.{Counting};

    ghost Value = { Counting T };

    ghost view = { λ c. record { inner = c.inner; failures = c.failures; passed = c.passed.events } };
}

impl<T> Counted<T> {
    /// Nothing has passed or failed yet.
    pub fn new(inner: T) -> Counted<T>
        ensures inner { result.inner ≡ inner }
        ensures failures { result.failures ≡ 0 }
        ensures passed { result.passed ≡ [] }
    {
        Counted {
            inner,
            failures: 0,
            passed: Record::new(),
        }
    }

    /// What is counted.
    pub fn inner(&self) -> &T
        ensures { result.now ≡ self.now.inner }
    {
        &self.inner
    }

    /// What was counted.
    pub fn into_inner(self) -> T
        ensures { result ≡ self.inner }
    {
        self.inner
    }

    /// How often it has failed.
    pub fn failures(&self) -> u64
        ensures { result ≡ self.now.failures }
    {
        self.failures
    }
}

/// Notes that these bytes passed.
fn note(passed: &mut Record<u8>, bytes: &[u8])
    ensures { passed.new.events ≡ passed.old.events ++ bytes.now }
{
    *passed = Record::of_events_beside(passed, &bytes, &());
}

/// A read that fails counts once, and no other does.
impl<R: Read> Read for Counted<R> {
    ghost remaining = { λ c. R.remaining c.inner };

    fn read(&mut self, buf: &mut [u8]) -> io::Result<usize>
        ensures bound { ReadsAtMost result buf.new }
        ensures bytes { ReadConsumes (R.remaining self.old.inner) (R.remaining self.new.inner) result buf.new }
        ensures count { self.new.failures ≡ counted (is_err result) self.old.failures }
        ensures passed { self.new.passed ≡ self.old.passed ++ passed_by result buf.new }
    {
        let result = self.inner.read(buf);
        match &result {
            Ok(count) => note(&mut self.passed, &buf[..*count]),
            Err(_) => self.failures = self.failures.saturating_add(1),
        }
        result
    }
}

/// A write that fails counts once, and so does one that takes nothing of some bytes. No other does.
impl<W: Write> Write for Counted<W> {
    ghost contents = { λ c. W.contents c.inner };

    fn write(&mut self, buf: &[u8]) -> io::Result<usize>
        ensures bound { WritesAtMost result buf.now }
        ensures bytes { WriteAppends (W.contents self.old.inner) (W.contents self.new.inner) result buf.now }
        ensures count { self.new.failures ≡ counted (takes_nothing result buf.now) self.old.failures }
        ensures passed { self.new.passed ≡ self.old.passed ++ passed_by result buf.now }
    {
        let result = self.inner.write(buf);
        if let Ok(count) = &result {
            note(&mut self.passed, &buf[..*count]);
        }
        let has_failed = match &result {
            Ok(count) => *count == 0 && !buf.is_empty(),
            Err(_) => true,
        };
        if has_failed {
            self.failures = self.failures.saturating_add(1);
        }
        result
    }

    fn flush(&mut self) -> io::Result<()>
        ensures bytes { Keeps (W.contents self.old.inner) (W.contents self.new.inner) }
        ensures count { self.new.failures ≡ counted (is_err result) self.old.failures }
        ensures passed { self.new.passed ≡ self.old.passed }
    {
        let result = self.inner.flush();
        if result.is_err() {
            self.failures = self.failures.saturating_add(1);
        }
        result
    }
}
