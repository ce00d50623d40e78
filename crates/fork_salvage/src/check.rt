//! All faults of the header, the map and the type list of a fork.

ghost use Rattle.std.specs.Prelude.{◌≡◌, ◌<◌, ◌≤◌, ◌+◌, ◌*◌, ◌++◌, ◌^◌, length, OnOk, IfOk, IfSome, option_to_list, option_map, find, bytes_eq, not, ◌⊎◌, ◌∷◌, []};
ghost use Rattle.std.specs.List.{filter};
ghost use Rattle.fork_bytes.specs.Fork.{places, IsForkWithin, RefusesWithin, format_limits};
ghost use Rattle.fork_salvage.specs.Plans.{IsPlan, IsTypes, IsTold, reference_of};
ghost use Rattle.fork_salvage.specs.Salvage.{bytes_found, map_in, parts_at, told_list};
ghost use Rattle.fork_salvage.specs.Faults.{whole, header_fault, too_long, data_fault, map_fault, map_header_fault, parts_faults, earlier_type, same_type, list_fault, entry_faults, entries_faults, types_fault, name_fault, bytes_fault, row_faults, rows_faults, lists_faults, map_faults, found_faults};
ghost use Rattle.fork_salvage.specs.Fault.{IsFault, refusal_of};
ghost use Rattle.fork_salvage.specs.declared.fault.Fault.{Fault};

use crate::cursor::Cursor;
use crate::entry::{ENTRY_LENGTH, ReferenceList, Types, told_list};
use crate::fault::{BadList, Fault, SameType};
use crate::first::{MAX_FORK, bad_row, find_count, first_fault};
use crate::firsts::{Firsts, note_type};
use crate::number::{read_count, read_two};
use crate::place::{Gap, Parts, Span};
use crate::plan::{HEADER_LENGTH, MAP_HEADER_LENGTH, Plan, parts_at, told_plan};
use crate::reference::{Loss, MapReference, NO_NAME, REFERENCE_LENGTH, find_bytes};
use std::alloc::{AllocError, Global};

/// Adds a fault, if there is one.
fn push_fault(faults: &mut Vec<Fault>, fault: Option<Fault>) -> Result<(), AllocError>
    ensures { OnOk result (faults.new.items ≡ faults.old.items ++ option_to_list fault) }
{
    if let Some(fault) = fault {
        faults.push(fault)?;
    }
    Ok(())
}

/// The fork as one part.
fn whole(fork: &[u8]) -> Span
    ensures { result ≡ whole fork.now }
{
    Span {
        start: 0,
        length: fork.len(),
    }
}

/// Whether the fork ends within its header.
fn header_fault(fork: &[u8]) -> Option<Fault>
    ensures { result ≡ header_fault fork.now }
{
    let gap = Gap::of(whole(fork), 0, HEADER_LENGTH)?;
    Some(Fault::Header(gap))
}

/// Whether there are too many bytes.
fn too_long(fork: &[u8]) -> Option<Fault>
    ensures { result ≡ too_long fork.now }
{
    if fork.len() > MAX_FORK {
        Some(Fault::TooLong(fork.len()))
    } else {
        None
    }
}

/// Whether the data ends outside of the fork.
fn data_fault(fork: &[u8], part: Span) -> Option<Fault>
    requires part { part ≡ (parts_at 0 fork.now).«data» }
    requires small { (part.start < 2 ^ 32) × (part.length < 2 ^ 32) }
    ensures { result ≡ data_fault fork.now }
{
    let gap = Gap::of(whole(fork), part.start, part.length)?;
    Some(Fault::Data(gap))
}

/// Whether the map ends outside of the fork.
fn map_fault(fork: &[u8], map: Span) -> Option<Fault>
    requires map { map ≡ (parts_at 0 fork.now).map }
    requires small { (map.start < 2 ^ 32) × (map.length < 2 ^ 32) }
    ensures { result ≡ map_fault fork.now }
{
    let gap = Gap::of(whole(fork), map.start, map.length)?;
    Some(Fault::Map(gap))
}

/// Whether the map is shorter than its own header.
fn map_header_fault(map: Span) -> Option<Fault>
    requires { map.start < 2 ^ 32 }
    ensures { result ≡ map_header_fault map }
{
    let gap = Gap::of(map, 0, MAP_HEADER_LENGTH)?;
    Some(Fault::MapHeader(gap))
}

/// The faults of the parts of a fork.
fn push_parts(faults: &mut Vec<Fault>, fork: &[u8]) -> Result<(), AllocError>
    requires { 16 ≤ length fork.now }
    ensures { OnOk result (faults.new.items ≡ faults.old.items ++ parts_faults fork.now) }
{
    let Parts { map, data } = parts_at(fork, 0);
    push_fault(faults, too_long(fork))?;
    push_fault(faults, data_fault(fork, data))?;
    push_fault(faults, map_fault(fork, map))?;
    push_fault(faults, map_header_fault(map))?;
    Ok(())
}

/// What is missing of a list of references, if there are some.
fn list_fault(map: Span, list: ReferenceList) -> Option<Fault>
    requires place { map.start < 2 ^ 63 }
    requires small { (list.count < 65536) × (list.start < 131072) }
    ensures { result ≡ list_fault map list }
{
    if list.count == 0 {
        return None;
    }
    let gap = Gap::of(map, list.start, REFERENCE_LENGTH * list.count)?;
    let kind = list.kind;
    Some(Fault::References(BadList { kind, gap }))
}

/// The fault of an entry of the type list that has the type of an earlier one, if this is the first such.
fn same_type(
    part: Span,
    map: &[u8],
    types: Types,
    index: usize,
    earlier: Option<usize>,
) -> Option<Fault>
    requires types { IsTypes map.now types }
    requires within { index < types.count }
    requires place { part.start < 2 ^ 63 }
    requires before { IfSome earlier (λ first. first < index) }
    requires earlier { earlier ≡ earlier_type map.now types (told_list map.now types index).kind (places index 0 1) }
    ensures { result ≡ same_type part map.now types index }
{
    let start = part.start + types.place + 2;
    let first = earlier?;
    Some(Fault::SameType(SameType {
        kind: told_list(map, types, index).kind,
        first: start + ENTRY_LENGTH * first,
        second: start + ENTRY_LENGTH * index,
    }))
}

/// Adds the faults of the entries of a type list.
fn push_entries(
    faults: &mut Vec<Fault>,
    part: Span,
    map: &[u8],
    types: Types,
) -> Result<(), AllocError>
    requires types { IsTypes map.now types }
    requires place { part.start < 2 ^ 63 }
    ensures { OnOk result (faults.new.items ≡ faults.old.items ++ entries_faults part map.now types 0) }
{
    let mut firsts = Firsts::new(*faults.allocator());
    for i in 0..types.count {
        let earlier = note_type(&mut firsts, map, types, i)?;
        push_fault(faults, same_type(part, map, types, i, earlier))?;
        push_fault(faults, list_fault(part, told_list(map, types, i)))?;
    }
    Ok(())
}

/// What is missing of a type list that ends outside of the map.
fn types_fault(part: Span, map: &[u8]) -> Option<Fault>
    requires header { 28 ≤ length map.now }
    requires part { part.length ≡ length map.now }
    requires place { part.start < 2 ^ 63 }
    ensures { result ≡ types_fault part map.now }
{
    let place = read_two(map, 24);
    if part.length < place + 2 {
        let gap = Gap::of(part, place, 2)?;
        return Some(Fault::TypeCount(gap));
    }
    let gap = Gap::of(part, place + 2, ENTRY_LENGTH * read_count(map, place))?;
    Some(Fault::TypeList(gap))
}

/// The fault of the name of a reference that lies within the map.
fn name_fault(fork: &[u8], plan: &Plan, reference: MapReference) -> Option<Fault>
    requires told { IsTold fork.now plan.now }
    requires within { reference.place + 12 ≤ length (map_in fork.now plan.now) }
    ensures { result ≡ name_fault fork.now plan.now (reference_of reference) }
{
    let map = plan.map.of(fork);
    let offset = read_two(map, reference.place + 2);
    if offset == NO_NAME {
        return None;
    }
    let start = read_two(map, 26) + offset;
    let count = match map.get(start) {
        Some(count) => *count as usize,
        None => 0,
    };
    let gap = Gap::of(plan.map, start, 1 + count)?;
    Some(Fault::Name(bad_row(fork, plan, reference, gap)))
}

/// The fault of the bytes of a reference that lies within the map.
fn bytes_fault(fork: &[u8], plan: &Plan, reference: MapReference) -> Option<Fault>
    requires told { IsTold fork.now plan.now }
    requires within { reference.place + 12 ≤ length (map_in fork.now plan.now) }
    requires small { reference.place < 2 ^ 32 }
    ensures { result ≡ bytes_fault fork.now (reference_of reference) (bytes_found fork.now plan.now reference.place) }
{
    match find_bytes(fork, plan, reference.place) {
        Ok(_) | Err(Loss::Reference(_)) => None,
        Err(Loss::Length(gap)) => Some(Fault::Length(bad_row(fork, plan, reference, gap))),
        Err(Loss::Bytes(gap)) => Some(Fault::Bytes(bad_row(fork, plan, reference, gap))),
    }
}

/// Adds the faults of a reference. One that ends outside of the map has none of its own: its list has.
fn push_row(
    faults: &mut Vec<Fault>,
    fork: &[u8],
    plan: &Plan,
    reference: &MapReference,
) -> Result<(), AllocError>
    requires told { IsTold fork.now plan.now }
    requires small { reference.now.place < 2 ^ 32 }
    ensures { OnOk result (faults.new.items ≡ faults.old.items ++ row_faults fork.now plan.now (reference_of reference.now)) }
{
    if plan.map.of(fork).len() < reference.place + REFERENCE_LENGTH {
        return Ok(());
    }
    push_fault(faults, name_fault(fork, plan, *reference))?;
    push_fault(faults, bytes_fault(fork, plan, *reference))?;
    Ok(())
}

/// Adds the faults of so many references, from the first on.
fn push_rows(
    faults: &mut Vec<Fault>,
    fork: &[u8],
    plan: &Plan,
    most: usize,
) -> Result<(), AllocError>
    requires { IsTold fork.now plan.now }
    ensures { OnOk result (faults.new.items ≡ faults.old.items ++ rows_faults fork.now plan.now most) }
{
    let mut cursor = Cursor::new();
    for _turn in 0..most {
        let Some(reference) = cursor.next(fork, plan) else {
            return Ok(());
        };
        push_row(faults, fork, plan, &reference)?;
    }
    Ok(())
}

/// Adds the faults of the lists of a map.
fn push_lists(faults: &mut Vec<Fault>, fork: &[u8], plan: &Plan) -> Result<(), AllocError>
    requires { IsTold fork.now plan.now }
    ensures { OnOk result (faults.new.items ≡ faults.old.items ++ lists_faults fork.now plan.now) }
{
    push_entries(faults, plan.map, plan.map.of(fork), plan.types)?;
    push_fault(faults, find_count(fork, plan))?;
    push_rows(faults, fork, plan, plan.most_rows(fork))?;
    Ok(())
}

/// The fault of a type list, if the map lies within the fork and has a header.
fn map_faults(fork: &[u8]) -> Option<Fault>
    requires { 16 ≤ length fork.now }
    ensures { option_to_list result ≡ map_faults fork.now }
{
    let map = parts_at(fork, 0).map;
    if map.start + map.length > fork.len() || map.length < MAP_HEADER_LENGTH {
        return None;
    }
    types_fault(map, map.of(fork))
}

/// Adds the faults of all that can be looked at.
fn push_found(faults: &mut Vec<Fault>, fork: &[u8]) -> Result<(), AllocError>
    ensures { OnOk result (faults.new.items ≡ faults.old.items ++ found_faults fork.now) }
{
    if fork.len() < HEADER_LENGTH {
        return push_fault(faults, header_fault(fork));
    }
    push_parts(faults, fork)?;
    match told_plan(fork) {
        Some(plan) => push_lists(faults, fork, &plan)?,
        None => push_fault(faults, map_faults(fork))?,
    }
    Ok(())
}

/// This one, and after it those of the others that aren't equal to it.
fn with_first<T: PartialEq + Copy>(
    alloc: Global,
    first: T,
    others: &[T],
) -> Result<Vec<T>, AllocError>
    ensures { IfOk result (λ all. all.items ≡ first ∷ filter (λ other. not (T.eq other first)) others.now) }
{
    let mut all = Vec::new(alloc);
    all.push(first)?;
    for other in others {
        if *other != first {
            all.push(*other)?;
        }
    }
    Ok(all)
}

/// All faults of a fork, each with its place: the first that the reader meets, as `first_fault` gives it, and then the
/// others in the order of what they are of: the header, the parts, the type list, each entry of it and each reference.
/// There is none exactly of a fork that is read. Of what is after a part that ends outside of the fork nothing is
/// looked at, and of the references no more than the map has room for. The only error is that the host has no memory.
pub fn all_faults(alloc: Global, fork: &[u8]) -> Result<Vec<Fault>, AllocError>
    ensures none { IfOk result (λ faults. IsForkWithin format_limits fork.now → faults.items ≡ []) }
    ensures fork { IfOk result (λ faults. faults.items ≡ [] → IsForkWithin format_limits fork.now) }
    ensures all { IfOk result (λ faults. (faults.items ≡ []) ⊎ ((first : Fault) × IsFault fork.now first × RefusesWithin format_limits fork.now (refusal_of first)
        × (faults.items ≡ first ∷ filter (λ other. not (⟦<Fault as PartialEq>⟧.eq other first)) (found_faults fork.now)))) }
{
    let Some(first) = first_fault(alloc, fork) else {
        return Ok(Vec::new(alloc));
    };
    let mut found = Vec::new(alloc);
    push_found(&mut found, fork)?;
    with_first(alloc, first, found.as_slice())
}
