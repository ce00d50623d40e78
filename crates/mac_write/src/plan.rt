//! How another resource fork comes into AppleSingle or AppleDouble.

ghost use Rattle.std.specs.Prelude.{◌≡◌, ◌≤◌, ◌<◌, ◌+◌, ◌^◌, length, drop, slice_range, find, is_some, true, None};
ghost use Rattle.mac_files.specs.Apple.{entries_of, entry_outside, list_end};
ghost use Rattle.mac_files.specs.Parts.{lies_within};
ghost use Rattle.mac_write.specs.Apple.{all_entries, changed, fork_entry, growth, is_fork, is_in_the_way, listed_fork, moved_place, new_length, room, room_end};

use mac_files::apple::{entry_count, find_entry};
use mac_files::fault::Entry;
use mac_files::part::Part;

/// How many bytes the header has: the list of entries follows it.
const HEADER_LENGTH: usize = 26;

/// How many bytes an entry of the list has.
const ENTRY_LENGTH: usize = 12;

/// The id of the resource fork.
const RESOURCE_FORK: u32 = 2;

/// How a fork of so many bytes comes into a file.
#[derive(Drop)]
pub(crate) struct Plan<'a> {
    pub(crate) file: &'a [u8],
    /// How many bytes the new fork has.
    pub(crate) count: usize,
    /// The entry of the resource fork.
    pub(crate) fork: Entry,
    /// Whether it is in the list of the file.
    pub(crate) is_listed: bool,
    /// Where the list of the file ends.
    pub(crate) entries_end: usize,
    /// Where the bytes of its resource fork are.
    pub(crate) place: Part,
    ghost header: { 26 ≤ length file.now },
    ghost list: { list_end file.now ≤ length file.now },
    ghost entries: { entry_outside file.now ≡ None },
    ghost fork_is: { fork ≡ fork_entry file.now },
    ghost listed_is: { is_listed ≡ is_some (listed_fork file.now) },
    ghost end_is: { entries_end ≡ list_end file.now },
    ghost place_is: { place ≡ room file.now },
    ghost few: { count < 2 ^ 32 },
    ghost within: { place.offset + place.length ≤ length file.now },
}

/// How a fork of so many bytes comes into a file.
pub(crate) fn plan_for(file: &[u8], count: usize) -> Plan<'_>
    requires header { 26 ≤ length file.now }
    requires list { list_end file.now ≤ length file.now }
    requires entries { entry_outside file.now ≡ None }
    requires few { count < 2 ^ 32 }
    ensures same_file { result.file.now ≡ file.now }
    ensures same_count { result.count ≡ count }
{
    let entries_end = HEADER_LENGTH + ENTRY_LENGTH * entry_count(file) as usize;
    let listed = find_entry(file, RESOURCE_FORK);
    let fork = listed.unwrap_or(Entry {
        at: entries_end,
        id: RESOURCE_FORK,
        part: Part {
            offset: 0,
            length: 0,
        },
    });
    let place = if fork.part.length == 0 {
        Part {
            offset: file.len(),
            length: 0,
        }
    } else {
        fork.part
    };
    Plan {
        file,
        count,
        fork,
        is_listed: listed.is_some(),
        entries_end,
        place,
    }
}

impl Plan<'_> {
    /// By how many bytes the list grows.
    fn growth(&self) -> usize
        ensures growth { result ≡ growth self.now.file.now }
        ensures small { result ≤ 12 }
    {
        if self.is_listed { 0 } else { ENTRY_LENGTH }
    }

    /// How many entries the new list has.
    #[tactic(auto, using(crate::proofs::Entries::count_listed, crate::proofs::Entries::count_added))]
    pub(crate) fn entry_count(&self) -> usize
        ensures { result ≡ length (all_entries self.now.file.now) }
    {
        let listed = entry_count(self.file) as usize;
        if self.is_listed { listed } else { listed + 1 }
    }

    /// How many bytes the new file has.
    pub(crate) fn new_length(&self) -> usize
        ensures { result ≡ new_length self.now.file.now self.now.count }
    {
        self.file.len() + self.growth() + self.count - self.place.length
    }

    /// Whether an entry is that of the resource fork.
    fn is_fork(&self, entry: &Entry) -> bool
        ensures { result ≡ is_fork self.now.file.now entry.now }
    {
        entry.id == RESOURCE_FORK && entry.at == self.fork.at
    }

    /// Whether an entry has bytes in the header or the list, or shares some with the fork.
    pub(crate) fn is_in_the_way(&self, entry: &Entry) -> bool
        requires offset { entry.now.part.offset < 2 ^ 32 }
        requires length { entry.now.part.length < 2 ^ 32 }
        ensures { result ≡ is_in_the_way self.now.file.now entry.now }
    {
        let Part { offset, length } = entry.part;
        if length == 0 {
            return false;
        }
        let is_apart = self.is_fork(entry)
            || offset + length <= self.place.offset
            || self.place.offset + self.place.length <= offset;
        !(self.entries_end <= offset && is_apart)
    }

    /// Where the bytes at a place come to be.
    fn moved_place(&self, at: usize) -> usize
        requires { at ≤ length self.now.file.now }
        ensures { result ≡ moved_place self.now.file.now self.now.count at }
    {
        if at < self.place.offset {
            at + self.growth()
        } else {
            (at + self.growth() + self.count).saturating_sub(self.place.length)
        }
    }

    /// The entry in the new list.
    pub(crate) fn changed(&self, entry: &Entry) -> Entry
        requires within { lies_within (length self.now.file.now) entry.now.part ≡ true }
        requires long { new_length self.now.file.now self.now.count < 2 ^ 32 }
        requires offset { entry.now.part.offset < 2 ^ 32 }
        requires length { entry.now.part.length < 2 ^ 32 }
        ensures entry { result ≡ changed self.now.file.now self.now.count entry.now }
        ensures offset { result.part.offset < 2 ^ 32 }
        ensures length { result.part.length < 2 ^ 32 }
    {
        let part = if self.is_fork(entry) {
            Part {
                offset: self.place.offset + self.growth(),
                length: self.count,
            }
        } else if entry.part.length == 0 {
            entry.part
        } else {
            Part {
                offset: self.moved_place(entry.part.offset),
                length: entry.part.length,
            }
        };
        Entry { part, ..*entry }
    }

    /// What comes after the list and before the fork.
    pub(crate) fn before_fork(&self) -> &[u8]
        requires { find (is_in_the_way self.now.file.now) (entries_of self.now.file.now) ≡ None }
        ensures { result.now ≡ slice_range self.now.file.now (list_end self.now.file.now) (room self.now.file.now).offset }
    {
        &self.file[self.entries_end..self.place.offset]
    }

    /// What comes after the fork.
    pub(crate) fn after_fork(&self) -> &[u8]
        ensures { result.now ≡ drop (room_end self.now.file.now) self.now.file.now }
    {
        let end = self.place.offset + self.place.length;
        &self.file[end..]
    }
}
