//! The names in a map.

ghost use Rattle.std.specs.Prelude.{◌≡◌, ◌≤◌, ◌+◌, length, take, ◌<◌, slice_index, IfOk, IfErr, IfSome, IfNone};
ghost use Rattle.std.specs.Arc.{arc_slice_items};
ghost use Rattle.fork_bytes.specs.Fork.{name_place, name_at};
ghost use Rattle.fork_bytes.specs.Reading.{FaultsAt, names_end};

use crate::fault::{Condition, ForkFault};
use crate::number::read_two;
use mac_base::name::Name;
use std::alloc::{AllocError, Global};
use std::sync::ArcSlice;

/// The offset that says that there is no name.
const NO_NAME: u16 = 0xFFFF;

/// The first place of a map at which no byte of a name is: two numbers of two bytes say where a name begins, and it
/// has one byte of length and at most 255 others.
const NAMES_END: usize = 2 * 0xFFFF + 256;

/// Where in the map the name of the reference at a place is, unless it has none.
fn find_name(map: &[u8], at: usize) -> Option<usize>
    requires map { 28 ≤ length map.now }
    requires within { at + 12 ≤ length map.now }
    ensures place { result ≡ name_place map.now at }
    ensures small { IfSome result (λ start. start ≤ 131070) }
{
    let offset = read_two(map, at + 2);
    if offset == NO_NAME {
        return None;
    }
    Some(read_two(map, 26) as usize + offset as usize)
}

/// How many bytes the name has that is at a place of the map, or None where it ends outside the map.
fn name_length(map: &[u8], start: usize) -> Option<u8>
    requires { start ≤ 131070 }
    ensures count { IfSome result (λ count. count ≡ slice_index map.now start) }
    ensures within { IfSome result (λ count. start + 1 + count ≤ length map.now) }
    ensures none { IfNone result (¬ (start + 1 + slice_index map.now start ≤ length map.now)) }
{
    let count = *map.get(start)?;
    if start + 1 + count as usize > map.len() {
        None
    } else {
        Some(count)
    }
}

/// The bytes of a map in which its names are, to be shared by them. The only error is that the host has no memory.
pub(crate) fn share_names(alloc: Global, map: &[u8]) -> Result<ArcSlice<u8>, AllocError>
    ensures { IfOk result (λ shared. arc_slice_items shared ≡ take names_end map.now) }
{
    ArcSlice::from_slice(alloc, &map[..NAMES_END.min(map.len())])
}

/// The name of the reference at a place of the map, if it has one: a part of the bytes in which the map's names are.
/// The fault is BadMap(Names) where the name ends outside the map.
pub(crate) fn read_name(
    map: &[u8],
    shared: &ArcSlice<u8>,
    at: usize,
) -> Result<Option<Name>, ForkFault>
    requires map { 28 ≤ length map.now }
    requires shared { arc_slice_items shared.now ≡ take names_end map.now }
    requires within { at + 12 ≤ length map.now }
    ensures name { IfOk result (λ name. name ≡ name_at map.now (name_place map.now at)) }
    ensures has { IfOk result (λ _. IfSome (name_place map.now at) (λ start. start + 1 + slice_index map.now start ≤ length map.now)) }
    ensures refuses { IfErr result (FaultsAt Condition.Names
        (¬ IfSome (name_place map.now at) (λ start. start + 1 + slice_index map.now start ≤ length map.now))) }
{
    let Some(start) = find_name(map, at) else {
        return Ok(None);
    };
    let Some(count) = name_length(map, start) else {
        return Err(ForkFault::BadMap(Condition::Names));
    };
    match Name::part(shared, start as u32 + 1, count) {
        Ok(name) => Ok(Some(name)),
        Err(_) => Err(ForkFault::HostFull),
    }
}
