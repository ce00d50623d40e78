//! How a fork is read: as its header and its map say, or mended.

ghost use Rattle.std.specs.Prelude.{◌≡◌, ◌<◌, ◌≤◌, ◌+◌, ◌*◌, ◌^◌, length, IfSome, IfNone, IsTrue, true, false};
ghost use Rattle.fork_bytes.specs.Fork.{format_limits};
ghost use Rattle.fork_salvage.specs.Plans.{IsPlan, IsTypes, IsWithin};
ghost use Rattle.fork_salvage.specs.Salvage.{parts_at, told_plan, told_types, may_be_told, is_copy, is_crowded, lies_within, most_listed, most_summed, parts_beside, mended_parts, stretched, fits, clipped, types_found, types_before_lists, mended_types, mended_plan};

use crate::entry::{ENTRY_LENGTH, Types, next_start, told_count, told_list};
use crate::number::{read_count, read_four, read_two};
use crate::place::{Parts, Span};
use fork_bytes::layout::Limits;

/// How many bytes the header of a fork has.
pub(crate) const HEADER_LENGTH: usize = 16;

/// The fewest bytes that a map has.
pub(crate) const MAP_HEADER_LENGTH: usize = 28;

/// Where the type list mostly is in a map.
const USUAL_PLACE: usize = 28;

/// How a fork is read: where its map and its data are taken to be, its type list in the map, and whether lists of
/// references that aren't whole are looked for between the lists beside them. In a crowded map all are, since its lists
/// have more references than it has room for.
#[derive(Clone, Copy)]
pub(crate) struct Plan {
    pub(crate) map: Span,
    pub(crate) data: Span,
    pub(crate) types: Types,
    pub(crate) mended: bool,
    pub(crate) crowded: bool,
}

impl Plan {
    /// How many references of a fork are looked at: no more than its map has room for.
    pub(crate) fn most_rows(&self, fork: &[u8]) -> usize
        ensures { result ≡ most_listed fork.now self.now }
    {
        Limits::FORMAT.most_rows(self.map.of(fork).len())
    }

    /// How many bytes all resources of a fork have at most, with their lengths.
    pub(crate) fn most_bytes(&self, fork: &[u8]) -> usize
        ensures most { result ≡ most_summed fork.now self.now }
        ensures small { result ≤ format_limits.bytes }
    {
        Limits::FORMAT.most_bytes(self.data.of(fork).len())
    }
}

/// Whether the lists of references of a map have more of them than it has room for.
fn is_crowded(map: &[u8], types: Types) -> bool
    requires { IsTypes map.now types }
    ensures { result ≡ is_crowded map.now types }
{
    told_count(map, types) > Limits::FORMAT.most_rows(map.len())
}

/// The parts that the header at an offset of the fork says.
pub(crate) fn parts_at(fork: &[u8], at: usize) -> Parts
    requires { at + 16 ≤ length fork.now }
    ensures parts { result ≡ parts_at at fork.now }
    ensures small { (result.map.start < 2 ^ 32) × (result.map.length < 2 ^ 32) × (result.data.start < 2 ^ 32) × (result.data.length < 2 ^ 32) }
{
    Parts {
        map: Span {
            start: read_four(fork, at + 4),
            length: read_four(fork, at + 12),
        },
        data: Span {
            start: read_four(fork, at),
            length: read_four(fork, at + 8),
        },
    }
}

/// Whether the parts lie within a fork of so many bytes, and the map has a header.
fn lies_within(fork_length: usize, parts: &Parts) -> bool
    requires { (parts.now.map.start + parts.now.map.length < 2 ^ 64) × (parts.now.data.start + parts.now.data.length < 2 ^ 64) }
    ensures { result ≡ lies_within fork_length parts.now }
{
    parts.data.start + parts.data.length <= fork_length
        && parts.map.start + parts.map.length <= fork_length
        && parts.map.length >= MAP_HEADER_LENGTH
}

/// The plan of a fork as its header and its map give it, or None where its parts or its type list end outside.
pub(crate) fn told_plan(fork: &[u8]) -> Option<Plan>
    ensures plan { IfSome result (λ plan. plan ≡ told_plan fork.now) }
    ensures told { IfSome result (λ _. may_be_told fork.now ≡ true) }
    ensures within { IfSome result (IsPlan fork.now) }
    ensures none { IfNone result (may_be_told fork.now ≡ false) }
{
    if fork.len() < HEADER_LENGTH {
        return None;
    }
    let parts = parts_at(fork, 0);
    if !lies_within(fork.len(), &parts) {
        return None;
    }
    let Parts { map, data } = parts;
    let types = told_types(map.of(fork))?;
    Some(Plan {
        map,
        data,
        types,
        mended: false,
        crowded: false,
    })
}

/// The type list where a map says that it is, or None where it ends outside of the map.
fn told_types(map: &[u8]) -> Option<Types>
    requires { 28 ≤ length map.now }
    ensures types { IfSome result (λ types. types ≡ told_types map.now) }
    ensures within { IfSome result (IsTypes map.now) }
    ensures inside { IfSome result (λ types. types.place + 2 + 8 * types.count ≤ length map.now) }
    ensures none { IfNone result (length map.now < (told_types map.now).place + 2 + 8 * (told_types map.now).count) }
{
    let place = read_two(map, 24);
    if map.len() < place + 2 {
        return None;
    }
    let count = read_count(map, place);
    if map.len() < place + 2 + ENTRY_LENGTH * count {
        return None;
    }
    Some(Types { place, count })
}

/// The parts that a header says, if it is where it says itself that the map is.
fn copy_at(fork: &[u8], at: usize) -> Option<Parts>
    ensures copy { IfSome result (λ copy. copy ≡ parts_at at fork.now) }
    ensures is { IfSome result (λ _. is_copy fork.now at ≡ true) }
    ensures none { IfNone result (is_copy fork.now at ≡ false) }
{
    if fork.len() < HEADER_LENGTH || fork.len() - HEADER_LENGTH < at {
        return None;
    }
    let parts = parts_at(fork, at);
    if parts.map.start == at && lies_within(fork.len(), &parts) {
        Some(parts)
    } else {
        None
    }
}

/// The first of these that lie within a fork of so many bytes, or else a header's parts: they themselves, with the map
/// after the data, or with the data before the map.
fn parts_beside(fork_length: usize, own: Parts) -> Parts
    requires { (own.map.start < 2 ^ 32) × (own.map.length < 2 ^ 32) × (own.data.start < 2 ^ 32) × (own.data.length < 2 ^ 32) }
    ensures { result ≡ parts_beside fork_length own }
{
    let Parts { map, data } = own;
    let map_after = Parts {
        map: Span {
            start: data.start + data.length,
            length: map.length,
        },
        data,
    };
    let data_before = Parts {
        map,
        data: Span {
            start: map.start.saturating_sub(data.length),
            length: data.length,
        },
    };
    if lies_within(fork_length, &own) {
        own
    } else if lies_within(fork_length, &map_after) {
        map_after
    } else if lies_within(fork_length, &data_before) {
        data_before
    } else {
        own
    }
}

/// The parts of a damaged fork: by a copy of the header, or else by its own.
fn mended_parts(fork: &[u8]) -> Parts
    ensures parts { result ≡ mended_parts fork.now }
    ensures small { result.data.start + result.data.length < 2 ^ 64 }
{
    if fork.len() < HEADER_LENGTH {
        return Parts {
            map: Span {
                start: 0,
                length: 0,
            },
            data: Span {
                start: 0,
                length: 0,
            },
        };
    }
    let own = parts_at(fork, 0);
    if let Some(copy) = copy_at(fork, own.map.start) {
        return copy;
    }
    if let Some(copy) = copy_at(fork, own.data.start + own.data.length) {
        return copy;
    }
    parts_beside(fork.len(), own)
}

/// The parts, as far as they lie within a fork of so many bytes: the map goes on to its end, and the data at least to
/// the map.
fn stretched(fork_length: usize, parts: Parts) -> Parts
    requires { parts.data.start + parts.data.length < 2 ^ 64 }
    ensures parts { result ≡ stretched fork_length parts }
    ensures map { result.map.start + result.map.length ≤ fork_length }
    ensures bytes { result.data.start + result.data.length ≤ fork_length }
{
    let Parts { map, data } = parts;
    let data_end = fork_length.min((data.start + data.length).max(map.start));
    Parts {
        map: Span {
            start: map.start.min(fork_length),
            length: fork_length.saturating_sub(map.start),
        },
        data: Span {
            start: data.start.min(fork_length),
            length: data_end.saturating_sub(data.start),
        },
    }
}

/// Whether the first list of references begins right after the type list.
fn fits(map: &[u8], types: Types) -> bool
    requires { IsTypes map.now types }
    ensures { result ≡ fits map.now types }
{
    types.count > 0
        && told_list(map, types, 0).start == types.place + 2 + ENTRY_LENGTH * types.count
}

/// The type list at a place of a map, with so many types as lie within the map.
fn clipped(map: &[u8], place: usize) -> Types
    requires header { 28 ≤ length map.now }
    requires small { place < 65536 }
    ensures types { result ≡ clipped map.now place }
    ensures within { IsTypes map.now result }
{
    if map.len() < place + 2 {
        return Types { place, count: 0 };
    }
    let room = (map.len() - (place + 2)) / ENTRY_LENGTH;
    Types {
        place,
        count: read_count(map, place).min(room),
    }
}

/// The type list, where the map says that it is; or at 28, if it fits there alone.
fn types_found(map: &[u8]) -> Types
    requires { 28 ≤ length map.now }
    ensures types { result ≡ types_found map.now }
    ensures within { IsTypes map.now result }
{
    let told = clipped(map, read_two(map, 24));
    let usual = clipped(map, USUAL_PLACE);
    if !fits(map, told) && fits(map, usual) {
        usual
    } else {
        told
    }
}

/// As many types as lie before the first list of references, if that list ends where the next one begins.
fn types_before_lists(map: &[u8], types: Types) -> Types
    requires { IsTypes map.now types }
    ensures types { result ≡ types_before_lists map.now types }
    ensures within { IsTypes map.now result }
{
    if types.count == 0 {
        return types;
    }
    let first = told_list(map, types, 0);
    let room = first.start.saturating_sub(types.place + 2) / ENTRY_LENGTH;
    let fewer = Types {
        place: types.place,
        count: room,
    };
    if room < types.count && fits(map, fewer) && first.end() == next_start(map, fewer, 0) {
        fewer
    } else {
        types
    }
}

/// The types of a damaged fork's map; none where it has no header.
fn mended_types(map: &[u8]) -> Types
    ensures types { result ≡ mended_types map.now }
    ensures within { IsTypes map.now result }
{
    if map.len() < MAP_HEADER_LENGTH {
        return Types { place: 0, count: 0 };
    }
    types_before_lists(map, types_found(map))
}

/// The plan of a damaged fork.
pub(crate) fn mended_plan(fork: &[u8]) -> Plan
    ensures plan { result ≡ mended_plan fork.now }
    ensures within { IsPlan fork.now result }
{
    let Parts { map, data } = stretched(fork.len(), mended_parts(fork));
    let types = mended_types(map.of(fork));
    Plan {
        map,
        data,
        types,
        mended: true,
        crowded: is_crowded(map.of(fork), types),
    }
}
