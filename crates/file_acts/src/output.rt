//! The standard output.

ghost use Rattle.std.specs.Prelude.{◌≡◌, ◌+◌, ◌-◌, ◌<◌, ◌≤◌, IfOk, IfSome, IsErr, length, option_map};
ghost use Rattle.std.specs.Io.{WritesAtMost};
ghost use Rattle.std.specs.Io.KnownBytes.{Keeps, WriteAppends};

use host_paths::longest_file;
use std::io::{ErrorKind, Write};
use std::{fs, io};

/// A writer that takes so many bytes more, where this is known. What doesn't fit isn't begun.
#[derive(Drop)]
pub struct Output<W> {
    out: W,
    room: Option<u64>,
}

impl<W> Output<W> {
    /// A writer for so many bytes, or for any.
    pub fn new(out: W, room: Option<u64>) -> Output<W>
        ensures out { result.out ≡ out }
        ensures room { result.room ≡ room }
    {
        Output { out, room }
    }
}

impl<W: Write> Write for Output<W> {
    ghost contents = { λ o. W.contents o.out };

    fn write(&mut self, bytes: &[u8]) -> io::Result<usize>
        ensures bound { WritesAtMost result bytes.now }
        ensures bytes { WriteAppends (W.contents self.old.out) (W.contents self.new.out) result bytes.now }
        ensures full { IfSome self.old.room (λ room. room < length bytes.now → IsErr result × (self.new ≡ self.old)) }
        ensures room { IfSome self.old.room (λ room. length bytes.now ≤ room → IfOk result (λ count. IfSome self.new.room (λ left. left + count ≡ room))) }
    {
        let Some(room) = self.room else {
            return self.out.write(bytes);
        };
        if bytes.len() as u64 > room {
            return Err(ErrorKind::FileTooLarge.into());
        }
        let count = self.out.write(bytes)?;
        self.room = Some(room - count as u64);
        Ok(count)
    }

    fn flush(&mut self) -> io::Result<()> {
        self.out.flush()
    }
}

/// The value of a line of the kernel's text about an open file.
fn value_of<'a>(info: &'a str, name: &str) -> Option<&'a str> {
    info.lines()
        .find_map(|line| line.strip_prefix(name))
        .map(|value| value.trim())
}

/// The flag of an open file that is written at its end, as Linux has it.
const APPENDS: u64 = 0o2000;

/// Where the next byte is written of an open file that has so many bytes, by the kernel's text about it.
fn position_in(info: &str, length: u64) -> Option<u64> {
    let flags = u64::from_str_radix(value_of(info, "flags:")?, 8).ok()?;
    if flags & APPENDS != 0 {
        Some(length)
    } else {
        value_of(info, "pos:")?.parse().ok()
    }
}

/// How many bytes the standard output takes, where it is a file and the system says how long one may be. A write past
/// that would end the process.
pub fn room_of_output(rt: &HostRuntime) -> Option<u64> {
    let most = longest_file(rt);
    if most == u64::MAX {
        return None;
    }
    let found = fs::metadata(rt, "/proc/self/fd/1").ok()?;
    if !found.is_file() {
        return None;
    }
    let info = fs::read_to_string(rt, "/proc/self/fdinfo/1").ok()?;
    let position = position_in(&info, found.len())?;
    Some(most.saturating_sub(position))
}
