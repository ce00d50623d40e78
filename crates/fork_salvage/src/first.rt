//! The search for the first fault.

ghost use Rattle.std.specs.Prelude.{◌≡◌, ◌≢◌, ℕ, ◌<◌, ◌≤◌, ◌+◌, ◌*◌, ◌^◌, [], length, slice_index, IfSome, IfNone, IfOk, IfErr};
ghost use Rattle.std.specs.List.{AllByRecursion};
ghost use Rattle.fork_bytes.specs.Fork.{number_at, header_of, map_of, name_list, references_of, HasPartsWithin, HasReferences, HoldsWithin, IsForkWithin, RefusesWithin, format_limits};
ghost use Rattle.fork_bytes.specs.declared.fault.Condition.TheVariants as condition;
ghost use Rattle.fork_bytes.specs.declared.fault.ForkFault.TheVariants.{BadMap};
ghost use Rattle.fork_bytes.specs.Reading.{HasName};
ghost use Rattle.fork_salvage.specs.Plans.{AreDistinct, IsRepeat, IsTold, IsTypes, reference_of};
ghost use Rattle.fork_salvage.specs.Salvage.{parts_at, map_in, told_list};
ghost use Rattle.fork_salvage.specs.Faults.{count_fault};
ghost use Rattle.fork_salvage.specs.Fault.{IsFault, HasBytes, IsGap, bad_row, refusal_of};

use crate::cursor::Cursor;
use crate::entry::{ENTRY_LENGTH, ReferenceList, Types, told_count, told_list};
use crate::fault::{BadList, BadRow, Excess, Fault, SameType};
use crate::firsts::{Firsts, note_type};
use crate::number::{read_count, read_signed, read_two};
use crate::place::{Gap, Parts, Span};
use crate::plan::{HEADER_LENGTH, MAP_HEADER_LENGTH, Plan, parts_at};
use crate::reference::{Loss, MapReference, NO_NAME, REFERENCE_LENGTH, find_bytes};
use fork_bytes::layout::Limits;
use std::alloc::{AllocError, Global};

/// The most bytes of a fork.
pub(crate) const MAX_FORK: usize = Limits::FORMAT.fork as usize;

/// The parts of a fork, or the first fault of its header.
fn check_parts(fork: &[u8]) -> Result<Parts, Fault>
    ensures parts { IfOk result (λ parts. parts ≡ parts_at 0 fork.now) }
    ensures header { IfOk result (λ _. 16 ≤ length fork.now) }
    ensures holds { IfOk result (λ _. HasPartsWithin format_limits (length fork.now) (header_of fork.now)) }
    ensures fault { IfErr result (IsFault fork.now) }
    ensures refuses { IfErr result (λ fault. RefusesWithin format_limits fork.now (refusal_of fault)) }
{
    let whole = Span {
        start: 0,
        length: fork.len(),
    };
    if let Some(gap) = Gap::of(whole, 0, HEADER_LENGTH) {
        return Err(Fault::Header(gap));
    }
    if fork.len() > MAX_FORK {
        return Err(Fault::TooLong(fork.len()));
    }
    let parts = parts_at(fork, 0);
    if let Some(gap) = Gap::of(whole, parts.data.start, parts.data.length) {
        return Err(Fault::Data(gap));
    }
    if let Some(gap) = Gap::of(whole, parts.map.start, parts.map.length) {
        return Err(Fault::Map(gap));
    }
    if let Some(gap) = Gap::of(parts.map, 0, MAP_HEADER_LENGTH) {
        return Err(Fault::MapHeader(gap));
    }
    Ok(parts)
}

/// The plan of a fork with these parts as it gives it, or the fault of a type list that ends outside of the map.
fn check_types(fork: &[u8], parts: Parts) -> Result<Plan, Fault>
    requires parts { parts ≡ parts_at 0 fork.now }
    requires holds { HasPartsWithin format_limits (length fork.now) (header_of fork.now) }
    ensures told { IfOk result (IsTold fork.now) }
    ensures fault { IfErr result (IsFault fork.now) }
    ensures refusal { IfErr result (λ fault. refusal_of fault ≡ BadMap condition.Types) }
{
    let Parts { map, data } = parts;
    let bytes = map.of(fork);
    let place = read_two(bytes, 24);
    if let Some(gap) = Gap::of(map, place, 2) {
        return Err(Fault::TypeCount(gap));
    }
    let count = read_count(bytes, place);
    if let Some(gap) = Gap::of(map, place + 2, ENTRY_LENGTH * count) {
        return Err(Fault::TypeList(gap));
    }
    Ok(Plan {
        map,
        data,
        types: Types { place, count },
        mended: false,
        crowded: false,
    })
}

/// The index of an earlier entry with the type of this one.
fn earlier_type(map: &[u8], types: Types, index: usize) -> Option<usize>
    requires types { IsTypes map.now types }
    requires within { index < types.count }
    ensures some { IfSome result (λ i. (i < index) × ((told_list map.now types i).kind ≡ (told_list map.now types index).kind)) }
    ensures none { IfNone result ((i : ℕ) → i < index → (told_list map.now types i).kind ≢ (told_list map.now types index).kind) }
{
    let kind = told_list(map, types, index).kind;
    for i in 0..index {
        if told_list(map, types, i).kind == kind {
            return Some(i);
        }
    }
    None
}

/// The first entry that has the type of an earlier one, and that one before it. Each is compared with all before it.
fn searched_repeat(map: &[u8], types: Types) -> Option<(usize, usize)>
    requires { IsTypes map.now types }
    ensures some { IfSome result (λ pair. IsRepeat map.now types pair.0 pair.1) }
    ensures none { IfNone result (AreDistinct map.now types types.count) }
{
    for i in 0..types.count {
        if let Some(first) = earlier_type(map, types, i) {
            return Some((first, i));
        }
    }
    None
}

/// The same, by a table of the types so far.
fn noted_repeat(
    alloc: Global,
    map: &[u8],
    types: Types,
) -> Result<Option<(usize, usize)>, AllocError>
    requires { IsTypes map.now types }
    ensures some { IfOk result (λ found. IfSome found (λ pair. IsRepeat map.now types pair.0 pair.1)) }
    ensures none { IfOk result (λ found. IfNone found (AreDistinct map.now types types.count)) }
{
    let mut firsts = Firsts::new(alloc);
    for i in 0..types.count {
        if let Some(first) = note_type(&mut firsts, map, types, i)? {
            return Ok(Some((first, i)));
        }
    }
    Ok(None)
}

/// The same, also where the host has no memory for a table.
fn find_repeat(alloc: Global, map: &[u8], types: Types) -> Option<(usize, usize)>
    requires { IsTypes map.now types }
    ensures some { IfSome result (λ pair. IsRepeat map.now types pair.0 pair.1) }
    ensures none { IfNone result (AreDistinct map.now types types.count) }
{
    match noted_repeat(alloc, map, types) {
        Ok(found) => found,
        Err(_) => searched_repeat(map, types),
    }
}

/// The first entry of the type list that has the type of an earlier one.
fn find_same_type(alloc: Global, fork: &[u8], plan: &Plan) -> Option<Fault>
    requires { IsTold fork.now plan.now }
    ensures some { IfSome result (IsFault fork.now) }
    ensures refusal { IfSome result (λ fault. refusal_of fault ≡ BadMap condition.Types) }
    ensures none { IfNone result (HoldsWithin format_limits condition.Types fork.now) }
{
    let map = plan.map.of(fork);
    let start = plan.map.start + plan.types.place + 2;
    match find_repeat(alloc, map, plan.types) {
        Some((first, second)) => Some(Fault::SameType(SameType {
            kind: told_list(map, plan.types, second).kind,
            first: start + ENTRY_LENGTH * first,
            second: start + ENTRY_LENGTH * second,
        })),
        None => None,
    }
}

/// What is missing of a list of references, if there are some.
fn list_gap(part: Span, list: &ReferenceList) -> Option<Gap>
    requires small { (list.now.count < 65536) × (list.now.start < 131072) }
    requires place { part.start < 2 ^ 63 }
    ensures some { IfSome result (λ gap. (0 < list.now.count) × IsGap part.start part.length list.now.start (12 * list.now.count) gap) }
    ensures none { IfNone result (0 < list.now.count → list.now.start + 12 * list.now.count ≤ part.length) }
{
    if list.count == 0 {
        return None;
    }
    Gap::of(part, list.start, REFERENCE_LENGTH * list.count)
}

/// The first list of references that ends outside of the map.
fn find_list(fork: &[u8], plan: &Plan) -> Option<Fault>
    requires { IsTold fork.now plan.now }
    ensures some { IfSome result (IsFault fork.now) }
    ensures refusal { IfSome result (λ fault. refusal_of fault ≡ BadMap condition.References) }
    ensures none { IfNone result (HasReferences (map_of fork.now)) }
{
    let map = plan.map.of(fork);
    for i in 0..plan.types.count {
        let list = told_list(map, plan.types, i);
        if let Some(gap) = list_gap(plan.map, &list) {
            let kind = list.kind;
            return Some(Fault::References(BadList { kind, gap }));
        }
    }
    None
}

/// How many references there are, if they are more than the map has room for. No reference itself is looked at.
pub(crate) fn find_count(fork: &[u8], plan: &Plan) -> Option<Fault>
    requires { IsTold fork.now plan.now }
    ensures some { IfSome result (IsFault fork.now) }
    ensures count { result ≡ count_fault fork.now }
    ensures refusal { IfSome result (λ fault. refusal_of fault ≡ BadMap condition.RowCount) }
    ensures none { IfNone result (HoldsWithin format_limits condition.RowCount fork.now) }
{
    let map = plan.map.of(fork);
    let count = told_count(map, plan.types);
    let most = plan.most_rows(fork);
    if count > most {
        Some(Fault::RowCount(Excess {
            count,
            map_length: map.len(),
            most,
        }))
    } else {
        None
    }
}

/// A resource of which something is missing.
pub(crate) fn bad_row(fork: &[u8], plan: &Plan, reference: MapReference, gap: Gap) -> BadRow
    requires told { IsTold fork.now plan.now }
    requires within { reference.place + 12 ≤ length (map_in fork.now plan.now) }
    ensures { result ≡ bad_row fork.now (reference_of reference) gap }
{
    BadRow {
        kind: reference.kind,
        id: read_signed(plan.map.of(fork), reference.place),
        reference: plan.map.start + reference.place,
        gap,
    }
}

/// The first name that ends outside of the map.
fn find_bad_name(fork: &[u8], plan: &Plan) -> Option<Fault>
    requires told { IsTold fork.now plan.now }
    requires references { HasReferences (map_of fork.now) }
    ensures some { IfSome result (IsFault fork.now) }
    ensures refusal { IfSome result (λ fault. refusal_of fault ≡ BadMap condition.Names) }
    ensures none { IfNone result (HoldsWithin format_limits condition.Names fork.now) }
{
    let mut cursor = Cursor::new();
    while let Some(reference) = cursor.next(fork, plan) {
        if let Some(gap) = name_gap(plan.map.of(fork), plan.map, reference.place) {
            return Some(Fault::Name(bad_row(fork, plan, reference, gap)));
        }
    }
    None
}

/// What is missing of the name of the reference at a place of the map.
fn name_gap(map: &[u8], part: Span, at: usize) -> Option<Gap>
    requires header { 28 ≤ length map.now }
    requires within { at + 12 ≤ length map.now }
    requires part { part.length ≡ length map.now }
    requires place { part.start < 2 ^ 63 }
    ensures some { IfSome result (λ gap. let start = name_list map.now + number_at 2 (at + 2) map.now in
        IsGap part.start (length map.now) start (1 + slice_index map.now start) gap) }
    ensures fails { IfSome result (λ _. ¬ HasName map.now (record { kind = []; place = at })) }
    ensures none { IfNone result (HasName map.now (record { kind = []; place = at })) }
{
    let offset = read_two(map, at + 2);
    if offset == NO_NAME {
        return None;
    }
    let start = read_two(map, 26) + offset;
    let count = match map.get(start) {
        Some(count) => *count as usize,
        None => 0,
    };
    Gap::of(part, start, 1 + count)
}

/// The first resource whose length or bytes end outside of the data.
fn find_bad_bytes(fork: &[u8], plan: &Plan) -> Option<Fault>
    requires told { IsTold fork.now plan.now }
    requires references { HasReferences (map_of fork.now) }
    ensures some { IfSome result (IsFault fork.now) }
    ensures refusal { IfSome result (λ fault. refusal_of fault ≡ BadMap condition.Places) }
    ensures none { IfNone result (AllByRecursion (HasBytes fork.now) (references_of (map_of fork.now))) }
{
    let mut cursor = Cursor::new();
    while let Some(reference) = cursor.next(fork, plan) {
        match find_bytes(fork, plan, reference.place) {
            Err(Loss::Length(gap)) => {
                return Some(Fault::Length(bad_row(fork, plan, reference, gap)));
            }
            Err(Loss::Bytes(gap)) => {
                return Some(Fault::Bytes(bad_row(fork, plan, reference, gap)));
            }
            Err(Loss::Reference(_)) => {}
            Ok(_) => {}
        }
    }
    None
}

/// The resource at which the bytes of all so far are too many.
fn find_sum(fork: &[u8], plan: &Plan) -> Option<Fault>
    requires told { IsTold fork.now plan.now }
    requires references { HasReferences (map_of fork.now) }
    requires bytes { AllByRecursion (HasBytes fork.now) (references_of (map_of fork.now)) }
    ensures some { IfSome result (IsFault fork.now) }
    ensures refusal { IfSome result (λ fault. refusal_of fault ≡ BadMap condition.ByteCount) }
    ensures none { IfNone result (HoldsWithin format_limits condition.ByteCount fork.now) }
{
    let most = plan.most_bytes(fork);
    let mut total = 0;
    let mut cursor = Cursor::new();
    while let Some(reference) = cursor.next(fork, plan) {
        if let Ok(bytes) = find_bytes(fork, plan, reference.place) {
            total += 4 + bytes.length;
            if total > most {
                let gap = Gap {
                    place: bytes.start - 4,
                    wanted: total,
                    left: most,
                };
                return Some(Fault::ByteCount(bad_row(fork, plan, reference, gap)));
            }
        }
    }
    None
}

/// The first fault of the map and the data of a fork whose type list lies within the map.
fn find_fault(alloc: Global, fork: &[u8], plan: &Plan) -> Option<Fault>
    requires header { 16 ≤ length fork.now }
    requires parts { HoldsWithin format_limits condition.Parts fork.now }
    requires told { IsTold fork.now plan.now }
    ensures fault { IfSome result (IsFault fork.now) }
    ensures refuses { IfSome result (λ fault. RefusesWithin format_limits fork.now (refusal_of fault)) }
    ensures none { IfNone result (IsForkWithin format_limits fork.now) }
{
    if let Some(fault) = find_same_type(alloc, fork, plan) {
        return Some(fault);
    }
    if let Some(fault) = find_list(fork, plan) {
        return Some(fault);
    }
    if let Some(fault) = find_count(fork, plan) {
        return Some(fault);
    }
    if let Some(fault) = find_bad_name(fork, plan) {
        return Some(fault);
    }
    if let Some(fault) = find_bad_bytes(fork, plan) {
        return Some(fault);
    }
    find_sum(fork, plan)
}

/// The first fault of a fork, in the order of the reader's conditions and at the least place, or None exactly where the
/// bytes are a fork within the format's limits. Its condition is the first that doesn't hold, as
/// `fork_bytes::read_fork_within` says it. Without host memory it is found too, and many types take long.
#[tactic(auto, using(crate::proofs::Conditions::refuses_at, crate::proofs::Order::below_types))]
pub fn first_fault(alloc: Global, fork: &[u8]) -> Option<Fault>
    ensures fault { IfSome result (IsFault fork.now) }
    ensures refuses { IfSome result (λ fault. RefusesWithin format_limits fork.now (refusal_of fault)) }
    ensures none { IfNone result (IsForkWithin format_limits fork.now) }
{
    let parts = match check_parts(fork) {
        Ok(parts) => parts,
        Err(fault) => return Some(fault),
    };
    match check_types(fork, parts) {
        Ok(plan) => find_fault(alloc, fork, &plan),
        Err(fault) => Some(fault),
    }
}
