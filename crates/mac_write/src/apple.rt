//! AppleSingle or AppleDouble with another resource fork.

ghost use Rattle.std.specs.Prelude.{◌≡◌, ◌≤◌, ◌<◌, ◌+◌, ◌^◌, ◌++◌, length, map, drop, slice_range, true, find, option_map, is_some, unwrap_or, None, IfOk, IfErr, OnOk};
ghost use Rattle.std.specs.Result.{result_err};
ghost use Rattle.mac_files.specs.Apple.{entries_of, entry_outside, list_end};
ghost use Rattle.mac_files.specs.Parts.{lies_within};
ghost use Rattle.mac_files.specs.declared.container.Container.TheVariants.{AppleDouble, AppleSingle};
ghost use Rattle.mac_write.specs.Apple.{all_entries, apple_with_fork, body, changed, entry_text, length_refusal, front, growth, is_in_the_way, list_text, moved, moved_place, new_length, room_end, room_refusal};
ghost use Rattle.mac_files.specs.declared.container.Container.TheVariants.{AppleDouble, AppleSingle};
ghost use Rattle.mac_write.specs.Apple.{is_fork as is_fork_entry};
ghost use Rattle.mac_write.specs.Forks.{ChangesFork, KeepsEntries, Refuses, apple_why};
ghost use Rattle.mac_write.specs.declared.refusal.Refusal.TheVariants.{Overlap};

use crate::bytes::{push_four, push_two};
use crate::length::check_length;
use crate::plan::{Plan, plan_for};
use crate::refusal::Refusal;
use mac_files::apple::{check, entry_at, entry_count};
use mac_files::fault::Entry;
use std::alloc::{AllocError, Global};

/// How many bytes come before the number of entries.
const COUNT_PLACE: usize = 24;

/// How many bytes the header has: the list of entries follows it.
const HEADER_LENGTH: usize = 26;

/// How many bytes an entry of the list has.
const ENTRY_LENGTH: usize = 12;

/// The most entries of a list.
const MOST_ENTRIES: usize = 0xFFFF;

/// The most bytes of a file.
const MOST_BYTES: usize = 0xFFFF_FFFF;

/// Checks that every entry of the list can be kept.
#[tactic(auto, using(mac_files::proofs::Steps::entries_step))]
fn check_entries(plan: &Plan) -> Result<(), Refusal>
    ensures { result_err result ≡ option_map Overlap (find (is_in_the_way plan.now.file.now) (entries_of plan.now.file.now)) }
{
    for index in 0..entry_count(plan.file) as usize {
        let entry = entry_at(plan.file, HEADER_LENGTH + ENTRY_LENGTH * index);
        if plan.is_in_the_way(&entry) {
            return Err(Refusal::Overlap(entry));
        }
    }
    Ok(())
}

/// Checks that the list and the file have room.
fn check_room(plan: &Plan) -> Result<(), Refusal>
    ensures { result_err result ≡ room_refusal plan.now.file.now plan.now.count }
{
    if plan.entry_count() > MOST_ENTRIES {
        return Err(Refusal::ListFull);
    }
    let length = plan.new_length();
    if length > MOST_BYTES {
        return Err(Refusal::TooLong {
            length,
            most: MOST_BYTES,
        });
    }
    Ok(())
}

/// Adds an entry.
fn push_entry(new: &mut Vec<u8>, entry: &Entry) -> Result<(), AllocError>
    requires offset { entry.now.part.offset < 2 ^ 32 }
    requires length { entry.now.part.length < 2 ^ 32 }
    ensures { OnOk result (new.new.items ≡ new.old.items ++ entry_text entry.now) }
{
    push_four(new, entry.id)?;
    push_four(new, entry.part.offset as u32)?;
    push_four(new, entry.part.length as u32)
}

/// Adds the entries of the file's list, as they are in the new one.
#[tactic(auto, using(mac_files::proofs::Steps::entries_step))]
fn push_listed(new: &mut Vec<u8>, plan: &Plan) -> Result<(), AllocError>
    requires { new_length plan.now.file.now plan.now.count < 2 ^ 32 }
    ensures { OnOk result (new.new.items ≡ new.old.items
        ++ list_text (map (changed plan.now.file.now plan.now.count) (entries_of plan.now.file.now))) }
{
    for index in 0..entry_count(plan.file) as usize {
        let entry = entry_at(plan.file, HEADER_LENGTH + ENTRY_LENGTH * index);
        push_entry(new, &plan.changed(&entry))?;
    }
    Ok(())
}

/// Adds the new list.
fn push_list(new: &mut Vec<u8>, plan: &Plan) -> Result<(), AllocError>
    requires { new_length plan.now.file.now plan.now.count < 2 ^ 32 }
    ensures { OnOk result (new.new.items ≡ new.old.items
        ++ list_text (map (changed plan.now.file.now plan.now.count) (all_entries plan.now.file.now))) }
{
    push_listed(new, plan)?;
    if !plan.is_listed {
        push_entry(new, &plan.changed(&plan.fork))?;
    }
    Ok(())
}

/// Adds the header and the list.
fn push_front(new: &mut Vec<u8>, plan: &Plan) -> Result<(), AllocError>
    requires long { new_length plan.now.file.now plan.now.count < 2 ^ 32 }
    requires entries { length (all_entries plan.now.file.now) < 2 ^ 16 }
    ensures { OnOk result (new.new.items ≡ new.old.items ++ front plan.now.file.now plan.now.count) }
{
    new.extend_from_slice(&plan.file[..COUNT_PLACE])?;
    push_two(new, plan.entry_count() as u16)?;
    push_list(new, plan)
}

/// Adds what comes before the fork, the fork, and what comes after it.
fn push_body(new: &mut Vec<u8>, plan: &Plan, fork: &[u8]) -> Result<(), AllocError>
    requires { find (is_in_the_way plan.now.file.now) (entries_of plan.now.file.now) ≡ None }
    ensures { OnOk result (new.new.items ≡ new.old.items ++ body plan.now.file.now fork.now) }
{
    new.extend_from_slice(plan.before_fork())?;
    new.extend_from_slice(fork)?;
    new.extend_from_slice(plan.after_fork())
}

/// The file with these bytes as its resource fork.
pub(crate) fn apple_with_fork(alloc: Global, file: &[u8], fork: &[u8]) -> Result<Vec<u8>, Refusal>
    ensures file { IfOk result (λ new. new.items ≡ apple_with_fork file.now fork.now) }
    ensures refusal { Refuses (result_err result) (apple_why file.now (length fork.now)) }
    ensures single { IfOk result (λ new. ChangesFork AppleSingle file.now fork.now new.items) }
    ensures double { IfOk result (λ new. ChangesFork AppleDouble file.now fork.now new.items) }
    ensures entries { IfOk result (λ new. KeepsEntries file.now fork.now new.items) }
{
    check(file)?;
    check_length(fork.len())?;
    let plan = plan_for(file, fork.len());
    check_entries(&plan)?;
    check_room(&plan)?;
    let mut new = Vec::with_capacity(alloc, plan.new_length())?;
    push_front(&mut new, &plan)?;
    push_body(&mut new, &plan, fork)?;
    Ok(new)
}
