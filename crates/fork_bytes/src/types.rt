//! The type list of a map.

ghost use Rattle.std.specs.Prelude.{◌≡◌, ◌<◌, ◌≤◌, ◌+◌, ◌*◌, ◌↔◌, length, IfOk, IfErr, IfSome, IfNone, AllPairs, ◌≢◌, List, ℕ, true, false};
ghost use Rattle.std.specs.BTreeSet.{IsFromIterResult};
ghost use Rattle.std.specs.Cmp.Lexicographic.{slice_cmp};
ghost use Rattle.std.specs.Ordering.{nat_cmp};
ghost use Rattle.fork_bytes.specs.Fork.{count_at, bytes_at, type_list, type_count, entry_at, references_of, HasTypes, HasReferences, HasFewRowsWithin};
ghost use Rattle.fork_bytes.specs.Reading.{IsTypeList, FaultsAt, RefusesMapWithin, entry_of, kinds_of};

use crate::fault::{Condition, ForkFault};
use crate::layout::{Limits, REFERENCE_LENGTH};
use crate::number::read_two;
use mac_base::error::HostFull;
use mac_base::resource::ResType;
use std::alloc::{AllocError, Global};
use std::collections::BTreeSet;

/// How many bytes an entry of the type list has.
const ENTRY_LENGTH: usize = 8;

/// The type list of a map: where its count is, and how many entries follow it.
#[derive(Clone, Copy)]
pub(crate) struct TypeList {
    pub(crate) offset: usize,
    pub(crate) count: usize,
}

/// An entry of the type list: a type, how many references it has, and where in the map they are.
#[derive(Clone, Copy)]
pub(crate) struct TypeEntry {
    pub(crate) kind: ResType,
    pub(crate) count: usize,
    pub(crate) start: usize,
}

impl TypeEntry {
    /// Whether the references end within so many bytes.
    fn is_inside(&self, end: usize) -> bool
        requires { (self.now.count < 65536) × (self.now.start < 131072) }
        ensures inside { result ≡ true → 0 < self.now.count → self.now.start + 12 * self.now.count ≤ end }
        ensures outside { result ≡ false → (0 < self.now.count) × (end < self.now.start + 12 * self.now.count) }
    {
        self.count == 0 || self.start + REFERENCE_LENGTH * self.count <= end
    }
}

/// A count that is written less one, so that $FFFF is none.
fn count_at(map: &[u8], at: usize) -> usize
    requires { at + 2 ≤ length map.now }
    ensures count { result ≡ count_at at map.now }
    ensures small { result < 65536 }
{
    (read_two(map, at) as usize + 1) % 65536
}

/// The four bytes at a place.
fn four_at(map: &[u8], at: usize) -> [u8; 4]
    requires { at + 4 ≤ length map.now }
    ensures { result ≡ bytes_at 4 at map.now }
{
    let mut four = [0; 4];
    four.copy_from_slice(&map[at..at + 4]);
    four
}

/// The type list, or None where it ends outside the map.
fn find_types(map: &[u8]) -> Option<TypeList>
    requires { 28 ≤ length map.now }
    ensures list { IfSome result (IsTypeList map.now) }
    ensures small { IfSome result (λ list. (list.offset < 65536) × (list.count < 65536)) }
    ensures none { IfNone result (¬ HasTypes map.now) }
{
    let offset = read_two(map, 24) as usize;
    if offset + 2 > map.len() {
        return None;
    }
    let count = count_at(map, offset);
    if offset + 2 + ENTRY_LENGTH * count > map.len() {
        return None;
    }
    Some(TypeList { offset, count })
}

/// The types of the list, in its order.
fn kinds(alloc: Global, map: &[u8], list: TypeList) -> Result<Vec<[u8; 4]>, HostFull>
    requires { IsTypeList map.now list }
    ensures { IfOk result (λ kinds. kinds.items ≡ kinds_of map.now) }
{
    let mut kinds = Vec::new(alloc);
    for i in 0..list.count {
        kinds.push(four_at(map, list.offset + 2 + ENTRY_LENGTH * i))?;
    }
    Ok(kinds)
}

/// The types, each once.
fn set_of(alloc: Global, kinds: &[[u8; 4]]) -> Result<BTreeSet<[u8; 4]>, AllocError>
    ensures { IfOk result (IsFromIterResult (slice_cmp nat_cmp) kinds.now) }
{
    kinds.iter().copied().collect(alloc)
}

/// Whether no type is there twice.
fn are_distinct(alloc: Global, kinds: &[[u8; 4]]) -> Result<bool, HostFull>
    ensures { IfOk result (λ yes. (yes ≡ true) ↔ AllPairs (λ (a b : List ℕ). a ≢ b) kinds.now) }
{
    Ok(set_of(alloc, kinds)?.len() == kinds.len())
}

/// Whether no type is in the list twice.
fn has_distinct_types(alloc: Global, map: &[u8], list: TypeList) -> Result<bool, HostFull>
    requires { IsTypeList map.now list }
    ensures { IfOk result (λ yes. (yes ≡ true) ↔ HasTypes map.now) }
{
    let kinds = kinds(alloc, map, list)?;
    are_distinct(alloc, &kinds)
}

/// The type list of a map. The fault is BadMap(Types) where it ends outside the map, or a type is in it twice.
pub(crate) fn read_types(alloc: Global, map: &[u8]) -> Result<TypeList, ForkFault>
    requires { 28 ≤ length map.now }
    ensures list { IfOk result (IsTypeList map.now) }
    ensures small { IfOk result (λ list. (list.offset < 65536) × (list.count < 65536)) }
    ensures types { IfOk result (λ _. HasTypes map.now) }
    ensures refuses { IfErr result (FaultsAt Condition.Types (¬ HasTypes map.now)) }
{
    let Some(list) = find_types(map) else {
        return Err(ForkFault::BadMap(Condition::Types));
    };
    match has_distinct_types(alloc, map, list) {
        Ok(true) => Ok(list),
        Ok(false) => Err(ForkFault::BadMap(Condition::Types)),
        Err(HostFull) => Err(ForkFault::HostFull),
    }
}

/// The entry at an index of the type list.
pub(crate) fn entry(map: &[u8], list: TypeList, index: usize) -> TypeEntry
    requires list { IsTypeList map.now list }
    requires small { list.offset < 65536 }
    requires within { index < list.count }
    ensures entry { entry_of result ≡ entry_at map.now (list.offset + 2 + 8 * index) }
    ensures small { (result.count < 65536) × (result.start < 131072) }
{
    let at = list.offset + 2 + ENTRY_LENGTH * index;
    let offset = read_two(map, at + 6) as usize;
    TypeEntry {
        kind: ResType::new(four_at(map, at)),
        count: count_at(map, at + 4),
        start: list.offset + offset,
    }
}

/// How many references all types have, or None where one of them lies outside the map.
fn count_references(map: &[u8], list: TypeList) -> Option<usize>
    requires list { IsTypeList map.now list }
    requires small { list.offset < 65536 }
    requires few { list.count < 65536 }
    ensures count { IfSome result (λ n. n ≡ length (references_of map.now)) }
    ensures some { IfSome result (λ _. HasReferences map.now) }
    ensures none { IfNone result (¬ HasReferences map.now) }
{
    let mut total = 0;
    for i in 0..list.count {
        let entry = entry(map, list, i);
        if !entry.is_inside(map.len()) {
            return None;
        }
        total += entry.count;
    }
    Some(total)
}

/// How many references there are, where they lie within the map and are not too many.
pub(crate) fn check_references(
    map: &[u8],
    list: TypeList,
    limits: Limits,
) -> Result<usize, ForkFault>
    requires list { IsTypeList map.now list }
    requires small { list.offset < 65536 }
    requires few { list.count < 65536 }
    requires types { HasTypes map.now }
    ensures count { IfOk result (λ n. n ≡ length (references_of map.now)) }
    ensures references { IfOk result (λ _. HasReferences map.now) }
    ensures rows { IfOk result (λ _. HasFewRowsWithin limits map.now) }
    ensures refuses { IfErr result (RefusesMapWithin limits map.now) }
{
    match count_references(map, list) {
        None => Err(ForkFault::BadMap(Condition::References)),
        Some(count) if count > limits.most_rows(map.len()) => {
            Err(ForkFault::BadMap(Condition::RowCount))
        }
        Some(count) => Ok(count),
    }
}
