//! A file as AppleSingle or AppleDouble of version 2.

ghost use Rattle.std.specs.Prelude.{◌≡◌, ◌<◌, ◌≤◌, ◌+◌, ◌^◌, ◌++◌, ℕ, List, length, true, None, IfOk, OnOk};
ghost use Rattle.std.specs.Result.{result_err};
ghost use Rattle.mac_write.specs.Forks.{Refuses};
ghost use Rattle.mac_write.specs.Parts.{IsFile, view};
ghost use Rattle.mac_write.specs.Apple.{length_refusal};
ghost use Rattle.mac_write.specs.declared.target.Target.TheVariants.{AppleDouble, AppleSingle};
ghost use Rattle.mac_write.specs.Targets.{apple_date, apple_date_refusal, apple_unwritten, contents, double_entries, double_text, known_dates, places, said, finder_text, dates_text, head, is_apple_date, parts_refusal, place, single_text, told_length, told_places, told_text, unwritten};

use crate::bytes::{push_four, push_two, push_zeros};
use crate::detail::{Detail, has};
use crate::known::know_file;
use crate::length::check_length;
use crate::mac_file::MacFile;
use crate::refusal::Refusal;
use std::alloc::{AllocError, Global};

/// A date that isn't known.
const UNKNOWN: u32 = 0x8000_0000;

/// Whether a date can be counted from 2000 on with a sign: one that isn't known, or one of 1931 to 2068.
fn is_apple_date(date: u64) -> bool
    ensures { result ≡ is_apple_date date }
{
    date == 0 || 882_045_952 < date && date < 5_177_013_248
}

/// Checks that a date can be counted.
fn check_date(date: u64) -> Result<(), Refusal>
    ensures refusal { result_err result ≡ apple_date_refusal date }
    ensures date { OnOk result (is_apple_date date ≡ true) }
{
    if is_apple_date(date) {
        Ok(())
    } else {
        Err(Refusal::DateOutside(date))
    }
}

/// Checks that the numbers of the file can be written.
fn check_numbers(length: usize, file: &MacFile) -> Result<(), Refusal>
    ensures refusal { result_err result ≡ apple_unwritten length (view file.now) }
    ensures created { OnOk result (is_apple_date file.now.created ≡ true) }
    ensures modified { OnOk result (is_apple_date file.now.modified ≡ true) }
    ensures length { OnOk result (length < 2 ^ 32) }
{
    check_date(file.created)?;
    check_date(file.modified)?;
    check_length(length)
}

/// A date as the container counts it.
fn apple_date(date: u64) -> u32
    requires { is_apple_date date ≡ true }
    ensures { result ≡ apple_date date }
{
    if date == 0 {
        UNKNOWN
    } else {
        ((date + 1_265_437_696) % 0x1_0000_0000) as u32
    }
}

/// Adds the header.
fn push_head(new: &mut Vec<u8>, last: u8, count: u16) -> Result<(), AllocError>
    ensures { OnOk result (new.new.items ≡ new.old.items ++ head last count) }
{
    new.extend_from_slice(&[0, 5, 22, last])?;
    push_four(new, 0x0002_0000)?;
    push_zeros(new, 16)?;
    push_two(new, count)
}

/// Adds an entry to the list, whose bytes are at a place, and gives the place after them.
fn push_place(new: &mut Vec<u8>, id: u32, at: usize, count: usize) -> Result<usize, AllocError>
    requires { at + count < 2 ^ 32 }
    ensures place { OnOk result (new.new.items ≡ new.old.items ++ place id at count) }
    ensures next { IfOk result (λ next. next ≡ at + count) }
{
    push_four(new, id)?;
    push_four(new, at as u32)?;
    push_four(new, count as u32)?;
    Ok(at + count)
}

/// Adds the entries of the name, the comment, the dates and what the Finder knows, and gives the place after their
/// bytes.
fn push_told_places(new: &mut Vec<u8>, at: usize, file: &MacFile) -> Result<usize, AllocError>
    requires { at + told_length (view file.now) < 2 ^ 32 }
    ensures places { OnOk result (new.new.items ≡ new.old.items ++ told_places at (view file.now)) }
    ensures next { IfOk result (λ next. next ≡ at + told_length (view file.now)) }
{
    let comment = push_place(new, 3, at, file.name.len())?;
    let dates = push_place(new, 4, comment, file.comment.len())?;
    let finder = push_place(new, 8, dates, 16)?;
    let end = push_place(new, 9, finder, 32)?;
    Ok(end)
}

/// Adds the dates.
fn push_dates(new: &mut Vec<u8>, file: &MacFile) -> Result<(), AllocError>
    requires created { is_apple_date file.now.created ≡ true }
    requires modified { is_apple_date file.now.modified ≡ true }
    ensures { OnOk result (new.new.items ≡ new.old.items ++ dates_text (view file.now)) }
{
    push_four(new, apple_date(file.created))?;
    push_four(new, apple_date(file.modified))?;
    push_four(new, UNKNOWN)?;
    push_four(new, UNKNOWN)
}

/// Adds what the Finder knows.
fn push_finder(new: &mut Vec<u8>, file: &MacFile) -> Result<(), AllocError>
    ensures { OnOk result (new.new.items ≡ new.old.items ++ finder_text (view file.now)) }
{
    new.extend_from_slice(&file.finder.kind)?;
    new.extend_from_slice(&file.finder.creator)?;
    push_two(new, file.finder.flags)?;
    push_zeros(new, 22)?;
    Ok(())
}

/// Adds the name, the comment, the dates and what the Finder knows.
fn push_told(new: &mut Vec<u8>, file: &MacFile) -> Result<(), AllocError>
    requires created { is_apple_date file.now.created ≡ true }
    requires modified { is_apple_date file.now.modified ≡ true }
    ensures { OnOk result (new.new.items ≡ new.old.items ++ told_text (view file.now)) }
{
    new.extend_from_slice(file.name)?;
    new.extend_from_slice(file.comment)?;
    push_dates(new, file)?;
    push_finder(new, file)
}

/// Checks that four bytes count the bytes of each part, so that their sum is a number of the host.
fn check_parts(file: &MacFile) -> Result<(), Refusal>
    ensures refusal { result_err result ≡ parts_refusal (view file.now) }
    ensures name { OnOk result (length file.now.name.now < 2 ^ 32) }
    ensures comment { OnOk result (length file.now.comment.now < 2 ^ 32) }
    ensures data_fork { OnOk result (length file.now.data_fork.now < 2 ^ 32) }
    ensures resource_fork { OnOk result (length file.now.resource_fork.now < 2 ^ 32) }
{
    check_length(file.name.len())?;
    check_length(file.comment.len())?;
    check_length(file.data_fork.len())?;
    check_length(file.resource_fork.len())
}

/// How many bytes the dates have in AppleDouble: none where no date is known.
fn dates_length(file: &MacFile) -> usize
    ensures length { result ≡ length (known_dates (view file.now)) }
    ensures few { result ≤ 16 }
{
    if has(Detail::Dates, file) { 16 } else { 0 }
}

/// How many entries there are of so many bytes: none of no bytes.
fn said_count(count: usize) -> usize
    ensures entries { (id : ℕ) (bytes : List ℕ) → length bytes ≡ count → result ≡ length (said id bytes) }
    ensures one { result ≤ 1 }
{
    if count == 0 { 0 } else { 1 }
}

/// How many entries AppleDouble has: what the Finder knows, the resource fork, and what else there is to say.
fn double_count(file: &MacFile) -> usize
    ensures entries { result ≡ length (double_entries (view file.now)) }
    ensures few { result ≤ 5 }
{
    2 + said_count(file.name.len())
        + said_count(file.comment.len())
        + said_count(dates_length(file))
}

/// How many bytes the file has as AppleDouble.
fn double_length(file: &MacFile) -> usize
    requires name { length file.now.name.now < 2 ^ 32 }
    requires comment { length file.now.comment.now < 2 ^ 32 }
    requires resource_fork { length file.now.resource_fork.now < 2 ^ 32 }
    requires known { IsFile (view file.now) }
    ensures { result ≡ length (double_text (view file.now)) }
{
    let told = file.name.len() + file.comment.len() + dates_length(file);
    26 + 12 * double_count(file) + 32 + file.resource_fork.len() + told
}

/// Adds an entry to the list, if it has bytes, and gives the place after them.
fn push_place_of_some(
    new: &mut Vec<u8>,
    id: u32,
    at: usize,
    count: usize,
) -> Result<usize, AllocError>
    requires { at + count < 2 ^ 32 }
    ensures place { (bytes : List ℕ) → length bytes ≡ count → OnOk result (new.new.items ≡ new.old.items ++ places at (said id bytes)) }
    ensures next { IfOk result (λ next. next ≡ at + count) }
{
    if count == 0 {
        return Ok(at);
    }
    push_place(new, id, at, count)
}

/// Adds the list of AppleDouble, whose entries have their bytes from a place on.
fn push_double_places(new: &mut Vec<u8>, at: usize, file: &MacFile) -> Result<(), AllocError>
    requires known { IsFile (view file.now) }
    requires small { at + (32 + length file.now.resource_fork.now + length file.now.name.now + length file.now.comment.now + length (known_dates (view file.now))) < 2 ^ 32 }
    ensures { OnOk result (new.new.items ≡ new.old.items ++ places at (double_entries (view file.now))) }
{
    let fork = push_place(new, 9, at, 32)?;
    let name = push_place(new, 2, fork, file.resource_fork.len())?;
    let comment = push_place_of_some(new, 3, name, file.name.len())?;
    let dates = push_place_of_some(new, 4, comment, file.comment.len())?;
    push_place_of_some(new, 8, dates, dates_length(file))?;
    Ok(())
}

/// Adds the dates, if one is known.
fn push_known_dates(new: &mut Vec<u8>, file: &MacFile) -> Result<(), AllocError>
    requires created { is_apple_date file.now.created ≡ true }
    requires modified { is_apple_date file.now.modified ≡ true }
    ensures { OnOk result (new.new.items ≡ new.old.items ++ known_dates (view file.now)) }
{
    if has(Detail::Dates, file) {
        push_dates(new, file)?;
    }
    Ok(())
}

/// Adds the bytes of the entries of AppleDouble.
fn push_double_contents(new: &mut Vec<u8>, file: &MacFile) -> Result<(), AllocError>
    requires created { is_apple_date file.now.created ≡ true }
    requires modified { is_apple_date file.now.modified ≡ true }
    ensures { OnOk result (new.new.items ≡ new.old.items ++ contents (double_entries (view file.now))) }
{
    push_finder(new, file)?;
    new.extend_from_slice(file.resource_fork)?;
    new.extend_from_slice(file.name)?;
    new.extend_from_slice(file.comment)?;
    push_known_dates(new, file)?;
    Ok(())
}

/// The file as AppleDouble.
pub(crate) fn write_double(alloc: Global, file: &MacFile) -> Result<Vec<u8>, Refusal>
    ensures file { IfOk result (λ new. new.items ≡ double_text (view file.now)) }
    ensures refusal { Refuses (result_err result) (unwritten AppleDouble (view file.now)) }
{
    know_file(file);
    check_parts(file)?;
    let length = double_length(file);
    check_numbers(length, file)?;
    let mut new = Vec::with_capacity(alloc, length)?;
    let count = double_count(file);
    push_head(&mut new, 7, count as u16)?;
    push_double_places(&mut new, 26 + 12 * count, file)?;
    push_double_contents(&mut new, file)?;
    Ok(new)
}

/// The file as AppleSingle.
pub(crate) fn write_single(alloc: Global, file: &MacFile) -> Result<Vec<u8>, Refusal>
    ensures file { IfOk result (λ new. new.items ≡ single_text (view file.now)) }
    ensures refusal { Refuses (result_err result) (unwritten AppleSingle (view file.now)) }
{
    check_parts(file)?;
    let told = file.name.len() + file.comment.len() + 48;
    let length = 98 + told + file.data_fork.len() + file.resource_fork.len();
    check_numbers(length, file)?;
    let mut new = Vec::with_capacity(alloc, length)?;
    push_head(&mut new, 0, 6)?;
    let place = push_told_places(&mut new, 98, file)?;
    let next = push_place(&mut new, 1, place, file.data_fork.len())?;
    push_place(&mut new, 2, next, file.resource_fork.len())?;
    push_told(&mut new, file)?;
    new.extend_from_slice(file.data_fork)?;
    new.extend_from_slice(file.resource_fork)?;
    Ok(new)
}
