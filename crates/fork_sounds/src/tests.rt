//! Tests of what no contract says: that memory that is there is enough; and a WAV file that Python's `wave` wrote.

use crate::{sound_of, wav_file};
use std::test::Fail;

/// A resource of format 1 with a command and a sound of four samples, at 22,254.5454 frames a second.
const RESOURCE: [u8; 46] = [
    0, 1, 0, 1, 0, 5, 0, 0, 0, 160, 0, 1, 128, 81, 0, 0, 0, 0, 0, 20, 0, 0, 0, 0, 0, 0, 0, 4, 86,
    238, 139, 163, 0, 0, 0, 0, 0, 0, 0, 0, 0, 60, 128, 255, 0, 1,
];

/// Its WAV file, as Python's `wave` makes it with 22,255 frames a second.
const FILE: [u8; 48] = [
    82, 73, 70, 70, 40, 0, 0, 0, 87, 65, 86, 69, 102, 109, 116, 32, 16, 0, 0, 0, 1, 0, 1, 0, 239,
    86, 0, 0, 239, 86, 0, 0, 1, 0, 8, 0, 100, 97, 116, 97, 4, 0, 0, 0, 128, 255, 0, 1,
];

#[test]
fn sound_is_a_file(rt: HostRuntime) -> Result<(), Fail> {
    let alloc = rt.alloc();
    let sound = sound_of(alloc, &RESOURCE)?;
    let file = wav_file(alloc, &sound)?;
    assert_eq!(rt; file.as_slice(), FILE.as_slice());
    Ok(())
}
