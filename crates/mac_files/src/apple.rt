//! AppleSingle and AppleDouble: a header, a list of entries, and the bytes of each. The entries come in any order.

ghost use Rattle.std.specs.Prelude.{◌≡◌, ◌≤◌, ◌+◌, ◌*◌, ◌^◌, ◌<◌, length, IfOk, IfSome, OnOk, None, true};
ghost use Rattle.std.specs.Result.{result_err};
ghost use Rattle.mac_files.specs.Apple.{apple_contents, dates_in, entry_at, entry_count, entry_of, entry_outside, finder_in, part_of};
ghost use Rattle.mac_files.specs.Parts.{lies_within, AreWithin};
ghost use Rattle.mac_files.specs.Faults.{apple_fault, entry_fault, list_fault, version_fault};

use crate::check::check_header;
use crate::contents::{Contents, Dates, FinderInfo};
use crate::fault::{ContainerFault, Entry};
use crate::number::{four_bytes, read_four, read_two};
use crate::part::Part;

/// How many bytes the header has: the list of entries follows it.
const HEADER_LENGTH: usize = 26;

/// How many bytes an entry of the list has.
const ENTRY_LENGTH: usize = 12;

/// The ids of the entries that are looked at.
const DATA_FORK: u32 = 1;

const RESOURCE_FORK: u32 = 2;

const REAL_NAME: u32 = 3;

const COMMENT: u32 = 4;

const FILE_DATES: u32 = 8;

const FINDER_INFO: u32 = 9;

/// How many entries the list has.
pub fn entry_count(file: &[u8]) -> u16
    requires { 26 ≤ length file.now }
    ensures { result ≡ entry_count file.now }
{
    read_two(file, 24)
}

/// The entry at a place of the list.
pub fn entry_at(file: &[u8], at: usize) -> Entry
    requires { at + 12 ≤ length file.now }
    ensures entry { result ≡ entry_at file.now at }
    ensures offset { result.part.offset < 2 ^ 32 }
    ensures length { result.part.length < 2 ^ 32 }
{
    Entry {
        at,
        id: read_four(file, at),
        part: Part {
            offset: read_four(file, at + 4) as usize,
            length: read_four(file, at + 8) as usize,
        },
    }
}

/// Checks that the version is known.
fn check_version(file: &[u8]) -> Result<(), ContainerFault>
    requires { 26 ≤ length file.now }
    ensures { result_err result ≡ version_fault file.now }
{
    match read_four(file, 4) {
        0x0001_0000 | 0x0002_0000 => Ok(()),
        version => Err(ContainerFault::UnknownVersion(version)),
    }
}

/// Checks that the list of entries lies within the file.
fn check_list(file: &[u8]) -> Result<(), ContainerFault>
    requires { 26 ≤ length file.now }
    ensures fault { result_err result ≡ list_fault file.now }
    ensures whole { OnOk result (26 + 12 * entry_count file.now ≤ length file.now) }
{
    let count = entry_count(file);
    let length = file.len();
    if length < HEADER_LENGTH + ENTRY_LENGTH * count as usize {
        return Err(ContainerFault::EntriesOutside { count, length });
    }
    Ok(())
}

/// Checks that each entry lies within the file.
#[tactic(auto, using(crate::proofs::Steps::entries_step))]
fn check_entries(file: &[u8]) -> Result<(), ContainerFault>
    requires header { 26 ≤ length file.now }
    requires list { 26 + 12 * entry_count file.now ≤ length file.now }
    ensures fault { result_err result ≡ entry_fault file.now }
    ensures within { OnOk result (entry_outside file.now ≡ None) }
{
    let length = file.len();
    let count = entry_count(file) as usize;
    for index in 0..count {
        let entry = entry_at(file, HEADER_LENGTH + ENTRY_LENGTH * index);
        if !entry.part.lies_within(length) {
            return Err(ContainerFault::EntryOutside { entry, length });
        }
    }
    Ok(())
}

/// Checks the file, and gives the first fault.
pub fn check(file: &[u8]) -> Result<(), ContainerFault>
    ensures fault { result_err result ≡ apple_fault file.now }
    ensures header { OnOk result (26 ≤ length file.now) }
    ensures list { OnOk result (26 + 12 * entry_count file.now ≤ length file.now) }
    ensures entries { OnOk result (entry_outside file.now ≡ None) }
{
    check_header(HEADER_LENGTH, file)?;
    check_version(file)?;
    check_list(file)?;
    check_entries(file)
}

/// The first entry with an id.
#[tactic(auto, using(crate::proofs::Steps::entries_step))]
pub fn find_entry(file: &[u8], id: u32) -> Option<Entry>
    requires header { 26 ≤ length file.now }
    requires list { 26 + 12 * entry_count file.now ≤ length file.now }
    requires entries { entry_outside file.now ≡ None }
    ensures entry { result ≡ entry_of id file.now }
    ensures within { IfSome result (λ entry. lies_within (length file.now) entry.part ≡ true) }
{
    let count = entry_count(file) as usize;
    for index in 0..count {
        let entry = entry_at(file, HEADER_LENGTH + ENTRY_LENGTH * index);
        if entry.id == id {
            return Some(entry);
        }
    }
    None
}

/// The bytes of the first entry with an id.
fn part_of(file: &[u8], id: u32) -> Option<Part>
    requires header { 26 ≤ length file.now }
    requires list { 26 + 12 * entry_count file.now ≤ length file.now }
    requires entries { entry_outside file.now ≡ None }
    ensures part { result ≡ part_of id file.now }
    ensures within { IfSome result (λ part. lies_within (length file.now) part ≡ true) }
{
    find_entry(file, id)?.part.if_any()
}

/// What the Finder knows of the file, where the entry has it.
fn finder_in(file: &[u8], part: Part) -> Option<FinderInfo>
    requires { lies_within (length file.now) part ≡ true }
    ensures { result ≡ finder_in file.now part }
{
    if part.length < 10 {
        return None;
    }
    Some(FinderInfo {
        kind: four_bytes(file, part.offset),
        creator: four_bytes(file, part.offset + 4),
        flags: read_two(file, part.offset + 8),
    })
}

/// The dates of the file, where the entry has them.
fn dates_in(file: &[u8], part: Part) -> Option<Dates>
    requires { lies_within (length file.now) part ≡ true }
    ensures { result ≡ dates_in file.now part }
{
    if part.length < 8 {
        return None;
    }
    Some(Dates {
        created: read_four(file, part.offset),
        modified: read_four(file, part.offset + 4),
    })
}

/// What AppleSingle or AppleDouble says of a file.
pub(crate) fn read_apple(file: &[u8]) -> Result<Contents, ContainerFault>
    ensures fault { result_err result ≡ apple_fault file.now }
    ensures contents { IfOk result (λ contents. contents ≡ apple_contents file.now) }
    ensures within { IfOk result (AreWithin (length file.now)) }
{
    check(file)?;
    let finder = part_of(file, FINDER_INFO).and_then(|part| finder_in(file, part));
    let dates = part_of(file, FILE_DATES).and_then(|part| dates_in(file, part));
    Ok(Contents {
        resource_fork: part_of(file, RESOURCE_FORK),
        data_fork: part_of(file, DATA_FORK),
        name: part_of(file, REAL_NAME),
        comment: part_of(file, COMMENT),
        finder,
        dates,
    })
}
