//! The references of a map, each by itself.

ghost use Rattle.std.specs.Prelude.{◌≡◌, ◌<◌, ◌≤◌, ◌+◌, ◌^◌, length, IfOk, IfSome, true, ◌&&◌, option_map};
ghost use Rattle.fork_salvage.specs.Laws.{name_shown};
ghost use Rattle.fork_salvage.specs.Plans.{IsPlan};
ghost use Rattle.fork_salvage.specs.Salvage.{map_in, bytes_found, datum_found, name_found, has_bytes, is_inside};

use crate::number::{read_four, read_three, read_two};
use crate::place::{Gap, NameSpan, Span};
use crate::plan::Plan;
use mac_base::resource::ResType;

/// How many bytes a reference has.
pub(crate) const REFERENCE_LENGTH: usize = 12;

/// The offset that says that there is no name.
pub(crate) const NO_NAME: usize = 0xFFFF;

/// How many bytes the length of a resource has.
const LENGTH_LENGTH: usize = 4;

/// A reference: its type, and where in the map it is.
#[derive(Clone, Copy)]
pub(crate) struct MapReference {
    pub(crate) kind: ResType,
    pub(crate) place: usize,
}

/// The name of a resource.
#[derive(Clone, Copy, Debug, PartialEq, Eq)]
pub enum FoundName {
    /// It has none.
    Unnamed,
    /// Where the bytes of its name are in the fork.
    Named(NameSpan),
    /// Its name ends outside of the map. This is where its byte of length should be in the fork.
    Outside(usize),
}

impl FoundName {
    /// The bytes of the name in its fork: None where it has none, or ends outside of the map.
    pub fn of<'a>(&self, fork: &'a [u8]) -> Option<&'a [u8]>
        ensures name { option_map (λ name. name.now) result ≡ name_shown fork.now self.now }
        ensures short { IfSome result (λ name. length name.now ≤ 255) }
    {
        match self {
            FoundName::Named(span) => Some(span.of(fork)),
            FoundName::Unnamed | FoundName::Outside(_) => None,
        }
    }

    /// Whether the name lies within the map, if there is one.
    pub(crate) fn is_inside(self) -> bool
        ensures { result ≡ is_inside self }
    {
        !matches!(self, FoundName::Outside(_))
    }
}

/// Why a resource can't be read.
#[derive(Clone, Copy, Debug, PartialEq, Eq)]
pub enum Loss {
    /// Its reference ends outside of the map.
    Reference(Gap),
    /// The four bytes of its length end outside of the data.
    Length(Gap),
    /// Its bytes end outside of the data. The place is that of their length, before them.
    Bytes(Gap),
}

/// Where the bytes of the reference at a place of the map are in the fork, or what of it ends outside.
pub(crate) fn find_bytes(fork: &[u8], plan: &Plan, at: usize) -> Result<Span, Loss>
    requires plan { IsPlan fork.now plan.now }
    requires small { at < 2 ^ 32 }
    ensures found { result ≡ bytes_found fork.now plan.now at }
    ensures within { IfOk result (λ _. at + 12 ≤ length (map_in fork.now plan.now)) }
    ensures small { IfOk result (λ bytes. (4 ≤ bytes.start) × (bytes.length < 2 ^ 32)) }
{
    let map = plan.map.of(fork);
    if map.len() < at + REFERENCE_LENGTH {
        return Err(Loss::Reference(Gap {
            place: plan.map.start + at,
            wanted: REFERENCE_LENGTH,
            left: map.len().saturating_sub(at),
        }));
    }
    find_datum(fork, plan, read_three(map, at + 5))
}

/// Where the bytes are whose length is at a place of the data.
fn find_datum(fork: &[u8], plan: &Plan, datum: usize) -> Result<Span, Loss>
    requires plan { IsPlan fork.now plan.now }
    requires small { datum < 2 ^ 24 }
    ensures found { result ≡ datum_found fork.now plan.now datum }
    ensures small { IfOk result (λ bytes. (4 ≤ bytes.start) × (bytes.length < 2 ^ 32)) }
{
    let data = plan.data.of(fork);
    let place = plan.data.start + datum;
    if data.len() < datum + LENGTH_LENGTH {
        return Err(Loss::Length(Gap {
            place,
            wanted: LENGTH_LENGTH,
            left: data.len().saturating_sub(datum),
        }));
    }
    let length = read_four(data, datum);
    let left = data.len() - (datum + LENGTH_LENGTH);
    if left < length {
        return Err(Loss::Bytes(Gap {
            place,
            wanted: length,
            left,
        }));
    }
    Ok(Span {
        start: place + LENGTH_LENGTH,
        length,
    })
}

/// The name of the reference at a place of the map.
pub(crate) fn find_name(fork: &[u8], plan: &Plan, at: usize) -> FoundName
    requires plan { IsPlan fork.now plan.now }
    requires header { 28 ≤ length (map_in fork.now plan.now) }
    requires within { at + 12 ≤ length (map_in fork.now plan.now) }
    ensures { result ≡ name_found fork.now plan.now at }
{
    let map = plan.map.of(fork);
    let offset = read_two(map, at + 2);
    if offset == NO_NAME {
        return FoundName::Unnamed;
    }
    let start = read_two(map, 26) + offset;
    match map.get(start) {
        Some(&count) if start + 1 + count as usize <= map.len() => FoundName::Named(NameSpan {
            start: plan.map.start + start + 1,
            length: count,
        }),
        _ => FoundName::Outside(plan.map.start + start),
    }
}

/// Whether the reference at a place of the map has its bytes.
pub(crate) fn has_bytes(fork: &[u8], plan: &Plan, at: usize) -> bool
    requires plan { IsPlan fork.now plan.now }
    requires small { at < 2 ^ 32 }
    ensures has { result ≡ has_bytes fork.now plan.now at }
    ensures within { result ≡ true → at + 12 ≤ length (map_in fork.now plan.now) }
{
    find_bytes(fork, plan, at).is_ok()
}

/// Whether the reference at a place of the map has its bytes, and its name if it has one.
pub(crate) fn is_kept(fork: &[u8], plan: &Plan, at: usize) -> bool
    requires plan { IsPlan fork.now plan.now }
    requires header { 28 ≤ length (map_in fork.now plan.now) }
    requires small { at < 2 ^ 32 }
    ensures { result ≡ (has_bytes fork.now plan.now at && is_inside (name_found fork.now plan.now at)) }
{
    has_bytes(fork, plan, at) && find_name(fork, plan, at).is_inside()
}
