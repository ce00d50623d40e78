//! The sounds that resources are, as WAV files and in words.

ghost use Rattle.std.specs.Prelude.{◌≡◌, ◌⊎◌, IfErr, IfOk, Err, Ok};
ghost use Rattle.fork_view.specs.Forms.{is_sound};
ghost use Rattle.fork_view.specs.Sights.{wav_file_of};

use crate::view::NotShown;
use fork_bytes::table::Row;
use fork_sounds::fault::NotHeard;
use fork_sounds::sound::Sound;
use fork_sounds::{commands_of, sound_of, wav_file};
use std::alloc::{AllocError, Global};

/// Whether the resources of a type are sounds.
pub(crate) fn is_sound(row: &Row) -> bool
    ensures { result ≡ is_sound row.now.kind }
{
    matches!(&row.kind.bytes(), b"snd ")
}

/// The WAV file of a resource, or why there is none: its type isn't `'snd '`, its samples can't be had, or the host has no
/// memory.
pub fn wav_of(alloc: Global, row: &Row) -> Result<Vec<u8>, NotShown>
    ensures file { IfOk result (λ bytes. wav_file_of row.now ≡ Ok bytes.items) }
    ensures none { IfErr result (λ why. (why ≡ NotShown.HostFull) ⊎ (wav_file_of row.now ≡ Err why)) }
{
    if !is_sound(row) {
        return Err(NotShown::NoSound(row.kind));
    }
    match sound_of(alloc, row.datum.as_slice()) {
        Ok(sound) => Ok(wav_file(alloc, &sound)?),
        Err(NotHeard::Fault(fault)) => Err(NotShown::Unheard(fault)),
        Err(NotHeard::HostFull) => Err(NotShown::HostFull),
    }
}

/// Adds what a sound is, in lines: frames a second, channels, bits of a sample, and how many seconds it lasts.
fn push_measures(text: &mut String, sound: &Sound) -> Result<(), AllocError> {
    let rate = sound.rate() as u64;
    let channels = sound.channels();
    let bits = sound.depth().bits();
    let frames = sound.samples().len() as u64 / channels as u64;
    let hertz = (rate * 1000 + 32768) / 65536;
    let long = frames * 65_536_000 / rate;
    writeln!(text, "rate: {}.{:03}", hertz / 1000, hertz % 1000)?;
    writeln!(text, "channels: {channels}")?;
    writeln!(text, "bits: {bits}")?;
    writeln!(text, "seconds: {}.{:03}", long / 1000, long % 1000)
}

/// Adds a sound in words, with its commands. False where these can't be read, and nothing is added.
pub(crate) fn push_sound(alloc: Global, text: &mut String, row: &Row) -> Result<bool, AllocError> {
    let bytes = row.datum.as_slice();
    let commands = match commands_of(alloc, bytes) {
        Ok(commands) => commands,
        Err(NotHeard::Fault(_)) => return Ok(false),
        Err(NotHeard::HostFull) => return Err(AllocError),
    };
    match sound_of(alloc, bytes) {
        Ok(sound) => push_measures(text, &sound)?,
        Err(NotHeard::Fault(fault)) => writeln!(text, "no samples: {fault}")?,
        Err(NotHeard::HostFull) => return Err(AllocError),
    }
    for command in &commands {
        writeln!(text, "command: {command}")?;
    }
    Ok(true)
}
