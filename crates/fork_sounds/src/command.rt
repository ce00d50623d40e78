//! The commands of a resource.

ghost use Rattle.std.specs.Prelude.{◌≡◌, ◌≤◌, ◌<◌, ◌+◌, ◌*◌, ◌^◌, IfOk, MatchResult, Ok, length};
ghost use Rattle.fork_sounds.specs.Commands.{command_at, commands_from, commands_of, first_at, plays};
ghost use Rattle.fork_sounds.specs.Hears.{Answers};

use crate::bytes::{long_at, word_at};
use crate::fault::{Fault, NotHeard};
use std::alloc::{AllocError, Global};
use std::fmt;

/// The most bytes of a resource that is read.
const MOST: usize = 16_777_216;

/// A command to a sound channel.
#[derive(Clone, Copy, Debug, PartialEq, Eq)]
pub struct Command {
    /// What is to be done.
    pub number: u16,
    /// Whether the second parameter is a place in the resource.
    pub has_place: bool,
    /// The first parameter.
    pub first: u16,
    /// The second parameter.
    pub second: u32,
}

impl Command {
    /// Whether it plays samples of the resource.
    pub(crate) fn plays(&self) -> bool
        ensures { result ≡ plays self.now }
    {
        self.has_place && (self.number == 80 || self.number == 81)
    }

    /// What Inside Macintosh calls it, without 'Cmd'.
    fn name(&self) -> Option<&'static str> {
        Some(match self.number {
            0 => "null",
            3 => "quiet",
            4 => "flush",
            5 => "reInit",
            10 => "wait",
            11 => "pause",
            12 => "resume",
            13 => "callBack",
            14 => "sync",
            24 => "available",
            25 => "version",
            26 => "totalLoad",
            27 => "load",
            40 => "freqDuration",
            41 => "rest",
            42 => "freq",
            43 => "amp",
            44 => "timbre",
            45 => "getAmp",
            46 => "volume",
            47 => "getVolume",
            60 => "waveTable",
            61 => "phase",
            80 => "sound",
            81 => "buffer",
            82 => "rate",
            83 => "continue",
            84 => "doubleBuffer",
            85 => "getRate",
            86 => "rateMultiplier",
            87 => "getRateMultiplier",
            90 => "size",
            91 => "convert",
            _ => return None,
        })
    }
}

impl fmt::Display for Command {
    fn fmt<W: fmt::Write>(&self, f: &mut fmt::Formatter<W>) -> fmt::Result {
        match self.name() {
            Some(name) => f.write_str(name)?,
            None => {
                let number = self.number;
                write!(f, "command {number}")?;
            }
        }
        let first = self.first;
        let second = self.second;
        if self.has_place {
            write!(f, " {first}, at {second}")
        } else {
            write!(f, " {first} {second}")
        }
    }
}

/// Where the first command is.
fn first_at(bytes: &[u8]) -> Result<usize, Fault>
    ensures is { result ≡ first_at bytes.now }
    ensures low { IfOk result (λ start. (6 ≤ start) × (start < 2 ^ 20)) }
{
    if bytes.len() > MOST {
        return Err(Fault::TooLarge);
    }
    if bytes.len() < 6 {
        return Err(Fault::Short(6));
    }
    match word_at(bytes, 0) {
        1 => Ok(6 + 6 * word_at(bytes, 2) as usize),
        2 => Ok(6),
        _ => Err(Fault::Kind),
    }
}

/// The command at a place.
fn command_at(bytes: &[u8], at: usize) -> Command
    requires { at < 2 ^ 40 }
    ensures { result ≡ command_at bytes.now at }
{
    let word = word_at(bytes, at);
    Command {
        number: word % 32768,
        has_place: word >= 32768,
        first: word_at(bytes, at + 2),
        second: long_at(bytes, at + 4),
    }
}

/// So many commands, from a place on.
fn commands_from(
    alloc: Global,
    bytes: &[u8],
    start: usize,
    count: u16,
) -> Result<Vec<Command>, AllocError>
    requires { start < 2 ^ 20 }
    ensures { IfOk result (λ commands. commands.items ≡ commands_from bytes.now start count) }
{
    let mut commands = Vec::new(alloc);
    for place in 0..count {
        commands.push(command_at(bytes, start + 8 * place as usize))?;
    }
    Ok(commands)
}

/// The commands of a resource, in their order (Inside Macintosh: Sound, "Sound Resources").
pub fn commands_of(alloc: Global, bytes: &[u8]) -> Result<Vec<Command>, NotHeard>
    ensures { Answers (λ commands. commands.items) result (commands_of bytes.now) }
{
    let start = first_at(bytes)?;
    let count = word_at(bytes, start - 2);
    let end = start + 8 * count as usize;
    if bytes.len() < end {
        return Err(NotHeard::Fault(Fault::Short(end as u64)));
    }
    Ok(commands_from(alloc, bytes, start, count)?)
}
