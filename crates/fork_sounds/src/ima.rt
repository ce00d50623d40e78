//! Packets of 'ima4': 34 bytes that hold 64 samples of a channel.

ghost use Rattle.std.specs.Prelude.{◌≡◌, ◌<◌, ◌^◌};
ghost use Rattle.fork_sounds.specs.Packets.{code_at, distance, head, moved, next, next_index, step_of};

use crate::bytes::{byte_at, word_at};

/// The sizes of steps.
const STEPS: [u16; 89] = [
    7, 8, 9, 10, 11, 12, 13, 14, 16, 17, 19, 21, 23, 25, 28, 31, 34, 37, 41, 45, 50, 55, 60, 66,
    73, 80, 88, 97, 107, 118, 130, 143, 157, 173, 190, 209, 230, 253, 279, 307, 337, 371, 408, 449,
    494, 544, 598, 658, 724, 796, 876, 963, 1060, 1166, 1282, 1411, 1552, 1707, 1878, 2066, 2272,
    2499, 2749, 3024, 3327, 3660, 4026, 4428, 4871, 5358, 5894, 6484, 7132, 7845, 8630, 9493,
    10442, 11487, 12635, 13899, 15289, 16818, 18500, 20350, 22385, 24623, 27086, 29794, 32767,
];

/// Where the decoder of a packet is.
#[derive(Clone, Copy)]
pub struct State {
    /// How far the last sample is above the lowest level.
    pub(crate) level: u16,
    /// Which step comes next.
    index: u8,
}

/// The size of the step of an index.
#[tactic(auto, unfolding(crate::specs::Packets::step_of))]
fn step_of(index: u8) -> u16
    ensures { result ≡ step_of index }
{
    STEPS.get(index as usize).copied().unwrap_or(0)
}

/// How far a code of four bits moves.
fn distance(step: u16, code: u8) -> u32
    ensures { result ≡ distance step code }
{
    let step = step as u32;
    let code = code as u32;
    step / 8 + code / 4 % 2 * step + code / 2 % 2 * (step / 2) + code % 2 * (step / 4)
}

/// The level after a move.
fn moved(level: u16, step: u16, code: u8) -> u16
    ensures { result ≡ moved level step code }
{
    let level = level as u32;
    let distance = distance(step, code);
    if code < 8 {
        (level + distance).min(65535) as u16
    } else {
        level.saturating_sub(distance) as u16
    }
}

/// The next index.
fn next_index(index: u8, code: u8) -> u8
    ensures { result ≡ next_index index code }
{
    if code % 8 < 4 {
        index.saturating_sub(1)
    } else {
        index.saturating_add(2 * (code % 4 + 1)).min(88)
    }
}

impl State {
    /// The state after a code.
    #[tactic(auto, unfolding(crate::specs::Packets::next))]
    pub(crate) fn next(self, code: u8) -> State
        ensures { result ≡ next self code }
    {
        State {
            level: moved(self.level, step_of(self.index), code),
            index: next_index(self.index, code),
        }
    }
}

/// The state that the head of a packet says.
pub(crate) fn head(bytes: &[u8], at: usize) -> State
    requires { at < 2 ^ 40 }
    ensures { result ≡ head bytes.now at }
{
    let word = word_at(bytes, at);
    State {
        level: (word / 128 * 128).wrapping_add(32768),
        index: (word % 128) as u8,
    }
}

/// A code of a packet.
pub(crate) fn code_at(bytes: &[u8], at: usize, place: usize) -> u8
    requires low { at < 2 ^ 40 }
    requires small { place < 64 }
    ensures { result ≡ code_at bytes.now at place }
{
    let byte = byte_at(bytes, at + 2 + place / 2);
    if place % 2 == 0 { byte % 16 } else { byte / 16 }
}
