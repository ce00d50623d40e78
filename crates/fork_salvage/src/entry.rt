//! The type list of a map, and the lists of references that it leads to.

ghost use Rattle.std.specs.Prelude.{◌≡◌, ◌<◌, ◌≤◌, ◌+◌, ◌*◌, ◌^◌, length};
ghost use Rattle.fork_bytes.specs.Fork.{bytes_at};
ghost use Rattle.fork_salvage.specs.Plans.{IsTypes, IsPlan};
ghost use Rattle.fork_salvage.specs.Salvage.{told_count, told_list, end_before, next_start, is_whole, list_in_room, list_of};

use crate::number::{read_count, read_two};
use crate::plan::Plan;
use crate::reference::{REFERENCE_LENGTH, has_bytes};
use mac_base::resource::ResType;

/// How many bytes an entry of the type list has.
pub(crate) const ENTRY_LENGTH: usize = 8;

/// Where in a map the type list is taken to be, and how many types are taken from it.
#[derive(Clone, Copy)]
pub(crate) struct Types {
    pub(crate) place: usize,
    pub(crate) count: usize,
}

/// A list of references: their type, how many there are, and where in the map they are.
#[derive(Clone, Copy)]
pub(crate) struct ReferenceList {
    pub(crate) kind: ResType,
    pub(crate) count: usize,
    pub(crate) start: usize,
}

impl ReferenceList {
    /// Where the list ends in the map.
    pub(crate) fn end(self) -> usize
        requires { (self.count < 65536) × (self.start < 131072) }
        ensures { result ≡ self.start + 12 * self.count }
    {
        self.start + REFERENCE_LENGTH * self.count
    }
}

/// The four bytes at a place.
fn four_at(map: &[u8], at: usize) -> [u8; 4]
    requires { at + 4 ≤ length map.now }
    ensures { result ≡ bytes_at 4 at map.now }
{
    let mut four = [0; 4];
    four.copy_from_slice(&map[at..at + 4]);
    four
}

/// The list of references that the entry at an index names.
pub(crate) fn told_list(map: &[u8], types: Types, index: usize) -> ReferenceList
    requires types { IsTypes map.now types }
    requires within { index < types.count }
    ensures list { result ≡ told_list map.now types index }
    ensures small { (result.count < 65536) × (result.start < 131072) }
{
    let at = types.place + 2 + ENTRY_LENGTH * index;
    ReferenceList {
        kind: ResType::new(four_at(map, at)),
        count: read_count(map, at + 4),
        start: types.place + read_two(map, at + 6),
    }
}

/// How many references the entries of a type list name. None of these is looked at.
pub(crate) fn told_count(map: &[u8], types: Types) -> usize
    requires types { IsTypes map.now types }
    ensures count { result ≡ told_count map.now types }
    ensures small { result < 2 ^ 32 }
{
    let mut count = 0;
    for i in 0..types.count {
        count += told_list(map, types, i).count;
    }
    count
}

/// Where the list before that of an entry ends; before the first it is the type list.
fn end_before(map: &[u8], types: Types, index: usize) -> usize
    requires types { IsTypes map.now types }
    requires within { index < types.count }
    ensures place { result ≡ end_before map.now types index }
    ensures small { result < 1000000 }
{
    if index == 0 {
        types.place + 2 + ENTRY_LENGTH * types.count
    } else {
        told_list(map, types, index - 1).end()
    }
}

/// Where the list after that of an entry begins; after the last it is the name list.
pub(crate) fn next_start(map: &[u8], types: Types, index: usize) -> usize
    requires types { IsTypes map.now types }
    requires within { index < types.count }
    ensures place { result ≡ next_start map.now types index }
    ensures small { result < 131072 }
{
    if index + 1 < types.count {
        told_list(map, types, index + 1).start
    } else {
        read_two(map, 26)
    }
}

/// Whether all references of a list have their bytes.
fn is_whole(fork: &[u8], plan: &Plan, list: &ReferenceList) -> bool
    requires plan { IsPlan fork.now plan.now }
    requires small { (list.now.count < 65536) × (list.now.start < 131072) }
    ensures { result ≡ is_whole fork.now plan.now list.now }
{
    for i in 0..list.count {
        if !has_bytes(fork, plan, list.start + REFERENCE_LENGTH * i) {
            return false;
        }
    }
    true
}

/// A list of references in the room between two places: of as many as its entry says, or as many as have room.
fn list_in_room(told: ReferenceList, room: usize, next: usize) -> ReferenceList
    requires told { (told.count < 65536) × (told.start < 131072) }
    requires room { (room < 1000000) × (next < 131072) }
    ensures list { result ≡ list_in_room told room next }
    ensures small { (result.count < 65536) × (result.start < 1000000) }
{
    let ReferenceList { kind, count, start } = told;
    if room + REFERENCE_LENGTH * count == next {
        ReferenceList {
            kind,
            count,
            start: room,
        }
    } else if start == room && room < next {
        ReferenceList {
            kind,
            count: (next - room) / REFERENCE_LENGTH,
            start,
        }
    } else {
        told
    }
}

/// The list of an entry, as the entry says where the list is whole or the plan is not mended, or else in its room. In
/// a crowded map none is taken to be whole.
pub(crate) fn list_of(fork: &[u8], plan: &Plan, index: usize) -> ReferenceList
    requires plan { IsPlan fork.now plan.now }
    requires within { index < plan.now.types.count }
    ensures list { result ≡ list_of fork.now plan.now index }
    ensures small { (result.count < 65536) × (result.start < 1000000) }
{
    let types = plan.types;
    let map = plan.map.of(fork);
    let told = told_list(map, types, index);
    if !plan.mended {
        return told;
    }
    if !plan.crowded && is_whole(fork, plan, &told) {
        return told;
    }
    let room = end_before(map, types, index);
    list_in_room(told, room, next_start(map, types, index))
}
