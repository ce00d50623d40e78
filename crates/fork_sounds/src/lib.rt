//! The sounds that the 'snd ' resources of old Macintosh files are, sample by sample; and a sound as a WAV file.
#![tactic(auto)]

mod bytes;
pub mod coding;
pub mod command;
pub mod fault;
mod header;
mod ima;
mod laws;
mod samples;
pub mod sound;
#[cfg(test)]
mod tests;
mod wave;

pub use command::commands_of;
pub use laws::wav_law;
pub use sound::sound_of;
pub use wave::wav_file;
