//! The sound that a resource is.

ghost use Rattle.std.specs.Prelude.{◌≡◌, ◌≤◌, ◌<◌, ◌%◌, ℕ, IfOk, length, option_copied, slice_index};
ghost use Rattle.std.specs.List.{find};
ghost use Rattle.fork_sounds.specs.Codings.{levels};
ghost use Rattle.fork_sounds.specs.Commands.{plays};
ghost use Rattle.fork_sounds.specs.Headers.{IsSource};
ghost use Rattle.fork_sounds.specs.Hears.{Answers};
ghost use Rattle.fork_sounds.specs.Sounds.{IsRecording, decodable, recorded, sound_of};

use crate::coding::Depth;
use crate::command::{Command, commands_of};
use crate::fault::{Fault, NotHeard};
use crate::header::{Source, source_at};
use std::alloc::{AllocError, Global};
use std::marker::Model;

/// A sound. A contract sees the rate, the number of channels, how many bits a sample has, and all samples, frame after
/// frame.
#[derive(Drop)]
pub struct Sound {
    rate: u32,
    channels: u16,
    depth: Depth,
    samples: Vec<u16>,
}

impl Model for Sound {
    ghost use Rattle.fork_sounds.specs.Sounds.{IsRecording, Recording};

    ghost Value = { Recording };

    ghost view = { λ s. record { rate = s.rate; channels = s.channels; depth = s.depth; samples = s.samples.items } };

    ghost invariant = { λ s. IsRecording (record { rate = s.rate; channels = s.channels; depth = s.depth; samples = s.samples.items }) };
}

impl Sound {
    /// The sound with these samples.
    fn new(rate: u32, channels: u16, depth: Depth, samples: Vec<u16>) -> Sound
        requires { IsRecording (record { rate = rate; channels = channels; depth = depth; samples = samples.items }) }
        ensures { result ≡ record { rate = rate; channels = channels; depth = depth; samples = samples.items } }
    {
        Sound {
            rate,
            channels,
            depth,
            samples,
        }
    }

    /// How many frames a second has, times 65,536: at least 32,768.
    pub fn rate(&self) -> u32
        ensures is { result ≡ self.now.rate }
        ensures some { 32768 ≤ result }
    {
        self.rate
    }

    /// How many samples a frame has, from 1 to 32,767.
    pub fn channels(&self) -> u16
        ensures is { result ≡ self.now.channels }
        ensures some { 1 ≤ result }
        ensures few { result ≤ 32767 }
    {
        self.channels
    }

    /// How many bits a sample has.
    pub fn depth(&self) -> Depth
        ensures { result ≡ self.now.depth }
    {
        self.depth
    }

    /// The samples, frame after frame: how far each is above the lowest level. They are at most 33,554,432.
    pub fn samples(&self) -> &[u16]
        ensures is { result.now ≡ self.now.samples }
        ensures frames { length result.now % self.now.channels ≡ 0 }
        ensures within { (place : ℕ) → slice_index result.now place < levels self.now.depth }
        ensures small { length result.now ≤ 33554432 }
    {
        &self.samples
    }
}

/// The first command that plays samples.
fn playing(commands: &[Command]) -> Option<&Command>
    ensures { option_copied result ≡ find plays commands.now }
{
    commands.iter().find(|command| command.plays())
}

/// A source, if no packet has an index of more than 88.
fn decodable(bytes: &[u8], source: Source) -> Result<Source, Fault>
    requires is { IsSource bytes.now source }
    requires small { length bytes.now ≤ 16777216 }
    ensures { result ≡ decodable bytes.now source }
{
    match source.wrong_head(bytes) {
        Some(at) => Err(Fault::Packet(at as u64)),
        None => Ok(source),
    }
}

/// The sound of a source.
fn recorded(alloc: Global, bytes: &[u8], source: Source) -> Result<Sound, AllocError>
    requires is { IsSource bytes.now source }
    requires small { length bytes.now ≤ 16777216 }
    ensures { IfOk result (λ sound. sound ≡ recorded source bytes.now) }
{
    let samples = source.samples(alloc, bytes)?;
    Ok(Sound::new(source.rate, source.channels, source.coding.depth(), samples))
}

/// The sound that a 'snd ' resource of format 1 or 2 is: that of its first command which plays samples (Inside Macintosh:
/// Sound, "Sound Resources"). A fault is the first one in the order of `Fault`'s uses: the resource's head, its
/// commands, the sound header, the samples.
pub fn sound_of(alloc: Global, bytes: &[u8]) -> Result<Sound, NotHeard>
    ensures { Answers (λ sound. sound) result (sound_of bytes.now) }
{
    let commands = commands_of(alloc, bytes)?;
    let Some(command) = playing(&commands) else {
        return Err(NotHeard::Fault(Fault::Silent));
    };
    let source = source_at(bytes, command.second)?;
    let source = decodable(bytes, source)?;
    Ok(recorded(alloc, bytes, source)?)
}
