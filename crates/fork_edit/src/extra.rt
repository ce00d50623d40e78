//! What a file has that no container is given: all but the forks, the name, the type, the creator and the flags, the
//! first two dates and the comment.

ghost use Rattle.std.specs.Prelude.{◌≡◌, ◌≤◌, ◌+◌, ◌*◌, ◌++◌, true, ℕ, IfOk, List, None, OnOk, drop, filter_map, length};
ghost use Rattle.std.specs.List.{cons_option};
ghost use Rattle.mac_files.specs.Apple.{entries_of, entry_count, entry_outside};
ghost use Rattle.mac_files.specs.Parts.{lies_within};
ghost use Rattle.mac_write.specs.Lost.{says_something};
ghost use Rattle.fork_bytes.specs.Fork.{bytes_at};
ghost use Rattle.fork_edit.specs.Extras.{apple_extras, binary_extras, dates_extra, extra_in, extra_of, extras, finder_extra, first_with, firsts_of, has_notes, has_other_dates, is_found, is_known};
ghost use Rattle.fork_edit.specs.declared.extra.Extra.{Extra};

use mac_files::apple::{check, entry_at, entry_count, find_entry};
use mac_files::container::Container;
use mac_files::container_of;
use mac_files::fault::Entry;
use std::alloc::{AllocError, Global};
use thiserror::Error;

/// Something of this kind.
#[derive(Clone, Copy, Debug, PartialEq, Eq, Error)]
pub enum Extra {
    /// An entry of AppleSingle or AppleDouble, by its id.
    #[error("its entry {0}")]
    Entry(u32),
    /// What the Finder notes beside type, creator and flags, and what follows that.
    #[error("what the Finder notes of it, as the place of its icon")]
    FinderNotes,
    /// When it was last backed up or read.
    #[error("its dates of backup and access")]
    OtherDates,
    /// A second header of MacBinary.
    #[error("its second header")]
    SecondHeader,
}

/// How many bytes the header of AppleSingle and AppleDouble has: the list of entries follows it.
const LIST_PLACE: usize = 26;

/// How many bytes an entry of the list has.
const ENTRY_LENGTH: usize = 12;

/// A date of AppleSingle that isn't known.
const UNKNOWN: [u8; 4] = [0x80, 0, 0, 0];

/// Whether some of these bytes aren't zero.
fn says_something(bytes: &[u8]) -> bool
    ensures { result ≡ says_something bytes.now }
{
    bytes.iter().any(|byte| *byte != 0)
}

/// What bytes have from a place on.
#[tactic(auto, using(std::proofs::lemmas::List::drop_min))]
fn bytes_from(bytes: &[u8], at: usize) -> &[u8]
    ensures { result.now ≡ drop at bytes.now }
{
    &bytes[at.min(bytes.len())..]
}

/// So many bytes at a place, as far as there are any.
#[tactic(auto, using(std::proofs::lemmas::List::take_min))]
fn bytes_at(bytes: &[u8], at: usize, count: usize) -> &[u8]
    ensures { result.now ≡ bytes_at count at bytes.now }
{
    let rest = bytes_from(bytes, at);
    &rest[..count.min(rest.len())]
}

/// Whether a date of AppleSingle is known.
fn is_known(date: &[u8]) -> bool
    ensures { result ≡ is_known date.now }
{
    says_something(date) && date != UNKNOWN.as_slice()
}

/// Whether dates say something from the third on.
fn has_other_dates(bytes: &[u8]) -> bool
    ensures { result ≡ has_other_dates bytes.now }
{
    is_known(bytes_at(bytes, 8, 4))
        || is_known(bytes_at(bytes, 12, 4))
        || says_something(bytes_from(bytes, 16))
}

/// What dates have beside the first two.
fn dates_extra(bytes: &[u8]) -> Option<Extra>
    ensures { result ≡ dates_extra bytes.now }
{
    if bytes.len() < 8 {
        Some(Extra::Entry(8))
    } else if has_other_dates(bytes) {
        Some(Extra::OtherDates)
    } else {
        None
    }
}

/// What the Finder notes beside the type, the creator and the flags.
fn finder_extra(bytes: &[u8]) -> Option<Extra>
    ensures { result ≡ finder_extra bytes.now }
{
    if bytes.len() < 10 {
        Some(Extra::Entry(9))
    } else if says_something(bytes_from(bytes, 10)) {
        Some(Extra::FinderNotes)
    } else {
        None
    }
}

/// What the first entry with this id has, whose bytes these are.
fn extra_in(id: u32, bytes: &[u8]) -> Option<Extra>
    ensures { result ≡ extra_in id bytes.now }
{
    match id {
        1..=4 => None,
        8 => dates_extra(bytes),
        9 => finder_extra(bytes),
        id => Some(Extra::Entry(id)),
    }
}

/// Whether an entry is the one that was found.
fn is_found(entry: &Entry, found: Option<Entry>) -> bool
    ensures { result ≡ is_found entry.now found }
{
    match found {
        Some(found) => found.at == entry.at,
        None => false,
    }
}

/// The first entries with the ids of which the first is read.
#[derive(Clone, Copy)]
struct Firsts {
    data_fork: Option<Entry>,
    resource_fork: Option<Entry>,
    name: Option<Entry>,
    comment: Option<Entry>,
    dates: Option<Entry>,
    finder: Option<Entry>,
}

impl Firsts {
    /// Those of a file.
    fn of(file: &[u8]) -> Firsts
        requires header { 26 ≤ length file.now }
        requires list { 26 + 12 * entry_count file.now ≤ length file.now }
        requires entries { entry_outside file.now ≡ None }
        ensures { result ≡ firsts_of file.now }
    {
        Firsts {
            data_fork: find_entry(file, 1),
            resource_fork: find_entry(file, 2),
            name: find_entry(file, 3),
            comment: find_entry(file, 4),
            dates: find_entry(file, 8),
            finder: find_entry(file, 9),
        }
    }

    /// That with an id; none of an id of which no entry is read.
    fn with(&self, id: u32) -> Option<Entry>
        ensures { (file : List ℕ) → self.now ≡ firsts_of file → result ≡ first_with id file }
    {
        match id {
            1 => self.data_fork,
            2 => self.resource_fork,
            3 => self.name,
            4 => self.comment,
            8 => self.dates,
            9 => self.finder,
            _ => None,
        }
    }
}

/// What an entry has: one of no bytes nothing, and the second with an id all of it.
#[tactic(auto, using(crate::proofs::Alike::alike))]
fn extra_of(file: &[u8], firsts: &Firsts, entry: &Entry) -> Option<Extra>
    requires firsts { firsts.now ≡ firsts_of file.now }
    requires within { lies_within (length file.now) entry.now.part ≡ true }
    ensures { result ≡ extra_of file.now entry.now }
{
    if entry.part.length == 0 {
        None
    } else if is_found(entry, firsts.with(entry.id)) {
        extra_in(entry.id, entry.part.bytes(file))
    } else {
        Some(Extra::Entry(entry.id))
    }
}

/// Adds something, if it is there.
fn push_extra(extras: &mut Vec<Extra>, found: Option<Extra>) -> Result<(), AllocError>
    ensures { OnOk result ((rest : List Extra) → extras.new.items ++ rest ≡ extras.old.items ++ cons_option found rest) }
{
    let Some(extra) = found else {
        return Ok(());
    };
    extras.push(extra)?;
    Ok(())
}

/// What all entries have.
#[tactic(auto, using(mac_files::proofs::Steps::entries_step, crate::proofs::Entries::entry_within))]
fn entry_extras(alloc: Global, file: &[u8]) -> Result<Vec<Extra>, AllocError>
    requires header { 26 ≤ length file.now }
    requires list { 26 + 12 * entry_count file.now ≤ length file.now }
    requires entries { entry_outside file.now ≡ None }
    ensures { IfOk result (λ extras. extras.items ≡ filter_map (extra_of file.now) (entries_of file.now)) }
{
    let firsts = Firsts::of(file);
    let mut extras = Vec::new(alloc);
    for index in 0..entry_count(file) as usize {
        let entry = entry_at(file, LIST_PLACE + ENTRY_LENGTH * index);
        push_extra(&mut extras, extra_of(file, &firsts, &entry))?;
    }
    Ok(extras)
}

/// What AppleSingle or AppleDouble has; a damaged file isn't read.
fn apple_extras(alloc: Global, file: &[u8]) -> Result<Vec<Extra>, AllocError>
    ensures { IfOk result (λ extras. extras.items ≡ apple_extras file.now) }
{
    match check(file) {
        Ok(()) => entry_extras(alloc, file),
        Err(_) => Ok(Vec::new(alloc)),
    }
}

/// Whether MacBinary has what the Finder notes beside the type, the creator and the flags: from 75 on the place of its
/// icon, its folder and its lock, at 106 the script of its name and more flags.
fn has_notes(file: &[u8]) -> bool
    ensures { result ≡ has_notes file.now }
{
    says_something(bytes_at(file, 75, 7)) || says_something(bytes_at(file, 106, 2))
}

/// What MacBinary has.
fn binary_extras(alloc: Global, file: &[u8]) -> Result<Vec<Extra>, AllocError>
    ensures { IfOk result (λ extras. extras.items ≡ binary_extras file.now) }
{
    let mut extras = Vec::new(alloc);
    if has_notes(file) {
        extras.push(Extra::FinderNotes)?;
    }
    if says_something(bytes_at(file, 120, 2)) {
        extras.push(Extra::SecondHeader)?;
    }
    Ok(extras)
}

/// What a file has that no container is given: exactly this, in the order in which it has it.
pub fn extras(alloc: Global, file: &[u8]) -> Result<Vec<Extra>, AllocError>
    ensures { IfOk result (λ found. found.items ≡ extras file.now) }
{
    match container_of(file) {
        Some(Container::AppleSingle | Container::AppleDouble) => apple_extras(alloc, file),
        Some(Container::MacBinary(_)) => binary_extras(alloc, file),
        Some(Container::Raw) | None => Ok(Vec::new(alloc)),
    }
}
