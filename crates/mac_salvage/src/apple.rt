//! AppleSingle and AppleDouble, of which some entries may lie outside the file.

ghost use Rattle.std.specs.Prelude.{◌≡◌, ◌≤◌, ◌<◌, ◌+◌, ◌*◌, ◌-◌, ◌/◌, length, min};
ghost use Rattle.mac_files.specs.Apple.{entry_count};
ghost use Rattle.mac_salvage.specs.Places.{apple_places, part_left};

use crate::place::Places;
use mac_files::apple::{entry_at, entry_count};
use mac_files::part::Part;

/// How many bytes the header has: the list of entries follows it.
const HEADER_LENGTH: usize = 26;

/// How many bytes an entry of the list has.
const ENTRY_LENGTH: usize = 12;

/// The ids of the forks.
const DATA_FORK: u32 = 1;

const RESOURCE_FORK: u32 = 2;

/// How many entries of the list lie within the file.
fn entries_within(file: &[u8]) -> usize
    ensures count { result ≡ min (entry_count file.now) ((length file.now - 26) / 12) }
    ensures within { 0 < result → 26 + 12 * result ≤ length file.now }
{
    if file.len() < HEADER_LENGTH {
        return 0;
    }
    let room = (file.len() - HEADER_LENGTH) / ENTRY_LENGTH;
    room.min(entry_count(file) as usize)
}

/// Where the first of these entries with an id says that its bytes are.
#[tactic(auto, using(mac_files::proofs::Steps::entries_step))]
fn part_left(file: &[u8], id: u32) -> Option<Part>
    ensures { result ≡ part_left id file.now }
{
    let count = entries_within(file);
    for index in 0..count {
        let entry = entry_at(file, HEADER_LENGTH + ENTRY_LENGTH * index);
        if entry.id == id {
            return Some(entry.part);
        }
    }
    None
}

/// Where the forks are by the list of entries.
pub fn apple_places(file: &[u8]) -> Places
    ensures { result ≡ apple_places file.now }
{
    Places {
        data_fork: part_left(file, DATA_FORK),
        resource_fork: part_left(file, RESOURCE_FORK),
    }
}
