//! MacBinary: a header, a second header that later versions may have, the data fork and the resource fork. Each begins
//! at a multiple of 128.

ghost use Rattle.std.specs.Prelude.{◌≡◌, ◌==◌, ◌≤◌, ◌<◌, ◌+◌, ◌^◌, length, IfOk, IfSome, OnOk, true};
ghost use Rattle.std.specs.List.{list_all};
ghost use Rattle.std.specs.Result.{result_err};
ghost use Rattle.mac_files.specs.MacBinary.{comment_of, data_fork, has_form, header_finder, header_name, mac_binary_contents, padded, resource_fork, says_one, says_three, says_two, version_of};
ghost use Rattle.mac_files.specs.Faults.{checksum_fault, fork_fault, mac_binary_fault, sum_fault};
ghost use Rattle.mac_files.specs.Parts.{lies_within, AreWithin};

use crate::check::check_header;
use crate::container::Version;
use crate::contents::{Contents, Dates, FinderInfo};
use crate::crc::crc_of;
use crate::fault::{ContainerFault, Fork};
use crate::number::{four_bytes, read_four, read_two};
use crate::part::Part;

/// How many bytes the header has, and of how many each part has a multiple.
const HEADER_LENGTH: usize = 128;

/// How many bytes of the header the checksum is of. It follows them.
const SUMMED_LENGTH: usize = 124;

/// The most bytes of a file's name.
const LONGEST_NAME: usize = 63;

/// The most bytes of a fork in MacBinary I.
const LONGEST_FORK: u32 = 0x007F_FFFF;

/// Whether the file has what all versions have: a header, three zeros in it, and a name of 1 to 63 bytes.
#[tactic(auto, unfolding(crate::specs::MacBinary::has_form))]
fn has_form(file: &[u8]) -> bool
    ensures form { result ≡ has_form file.now }
    ensures whole { result ≡ true → 128 ≤ length file.now }
{
    file.len() >= HEADER_LENGTH
        && file[0] == 0
        && file[74] == 0
        && file[82] == 0
        && 1 <= file[1]
        && file[1] as usize <= LONGEST_NAME
}

/// Whether the bytes are all zero.
fn are_zeros(bytes: &[u8]) -> bool
    ensures { result ≡ list_all (λ byte. byte == 0) bytes.now }
{
    bytes.iter().all(|byte| *byte == 0)
}

/// Whether the header has what version III has: a signature.
#[tactic(auto, unfolding(crate::specs::MacBinary::says_three))]
fn says_three(file: &[u8]) -> bool
    requires { 128 ≤ length file.now }
    ensures { result ≡ says_three file.now }
{
    file[102..].starts_with(b"mBIN")
}

/// Whether the header has what version II has: the version that wrote it, and the least that reads it.
#[tactic(auto, unfolding(crate::specs::MacBinary::says_two))]
fn says_two(file: &[u8]) -> bool
    requires { 128 ≤ length file.now }
    ensures { result ≡ says_two file.now }
{
    file[122] >= 129 && file[123] == 129
}

/// Whether the header has what version I has: zeros from 101 to 125, and forks that aren't too long.
#[tactic(auto, unfolding(crate::specs::MacBinary::says_one))]
fn says_one(file: &[u8]) -> bool
    requires { 128 ≤ length file.now }
    ensures { result ≡ says_one file.now }
{
    are_zeros(&file[101..126])
        && read_four(file, 83) <= LONGEST_FORK
        && read_four(file, 87) <= LONGEST_FORK
}

/// The version of MacBinary that the bytes of a file are known as, or None.
pub(crate) fn version_of(file: &[u8]) -> Option<Version>
    ensures { result ≡ version_of file.now }
{
    if !has_form(file) {
        None
    } else if says_three(file) {
        Some(Version::III)
    } else if says_two(file) {
        Some(Version::II)
    } else if says_one(file) {
        Some(Version::I)
    } else {
        None
    }
}

/// So many bytes with those that fill the last 128.
pub fn padded(length: usize) -> usize
    requires { length < 2 ^ 32 }
    ensures padded { result ≡ padded length }
    ensures small { result ≤ length + 127 }
{
    (length + 127) / 128 * 128
}

/// Where the data fork is: after the header and the second header.
pub fn data_fork(file: &[u8]) -> Part
    requires { 128 ≤ length file.now }
    ensures part { result ≡ data_fork file.now }
    ensures offset { result.offset < 2 ^ 17 }
    ensures length { result.length < 2 ^ 32 }
{
    Part {
        offset: HEADER_LENGTH + padded(read_two(file, 120) as usize),
        length: read_four(file, 83) as usize,
    }
}

/// Where the resource fork is: after the data fork.
pub fn resource_fork(file: &[u8]) -> Part
    requires { 128 ≤ length file.now }
    ensures part { result ≡ resource_fork file.now }
    ensures offset { result.offset < 2 ^ 33 }
    ensures length { result.length < 2 ^ 32 }
{
    let data = data_fork(file);
    Part {
        offset: data.offset + padded(data.length),
        length: read_four(file, 87) as usize,
    }
}

/// Checks the checksum.
fn check_sum(file: &[u8]) -> Result<(), ContainerFault>
    requires { 128 ≤ length file.now }
    ensures { result_err result ≡ sum_fault file.now }
{
    let summed = &file[..SUMMED_LENGTH];
    let computed = crc_of(summed);
    let stored = read_two(file, SUMMED_LENGTH);
    if stored == computed {
        Ok(())
    } else {
        Err(ContainerFault::ChecksumDiffers { stored, computed })
    }
}

/// Checks the checksum, where the version has one.
fn check_version(version: Version, file: &[u8]) -> Result<(), ContainerFault>
    requires { 128 ≤ length file.now }
    ensures { result_err result ≡ checksum_fault version file.now }
{
    match version {
        Version::I => Ok(()),
        Version::II | Version::III => check_sum(file),
    }
}

/// Checks that a fork lies within the file.
fn check_fork(fork: Fork, part: Part, file: &[u8]) -> Result<(), ContainerFault>
    ensures fault { result_err result ≡ fork_fault fork part file.now }
    ensures within { OnOk result (lies_within (length file.now) part ≡ true) }
{
    let length = file.len();
    if !part.lies_within(length) {
        return Err(ContainerFault::ForkOutside { fork, part, length });
    }
    Ok(())
}

/// Checks the file, and gives the first fault.
pub fn check(version: Version, file: &[u8]) -> Result<(), ContainerFault>
    ensures fault { result_err result ≡ mac_binary_fault version file.now }
    ensures whole { OnOk result (128 ≤ length file.now) }
    ensures data { OnOk result (lies_within (length file.now) (data_fork file.now) ≡ true) }
    ensures resources { OnOk result (lies_within (length file.now) (resource_fork file.now) ≡ true) }
{
    check_header(HEADER_LENGTH, file)?;
    check_version(version, file)?;
    check_fork(Fork::Data, data_fork(file), file)?;
    check_fork(Fork::Resource, resource_fork(file), file)
}

/// What the Finder knows of the file: its flags are in two bytes.
fn finder_in(file: &[u8]) -> FinderInfo
    requires { 128 ≤ length file.now }
    ensures { result ≡ header_finder file.now }
{
    FinderInfo {
        kind: four_bytes(file, 65),
        creator: four_bytes(file, 69),
        flags: u16::from_be_bytes([file[73], file[101]]),
    }
}

/// Where the name of the file is. One of more than 63 bytes is none.
fn name_in(file: &[u8]) -> Option<Part>
    requires { 128 ≤ length file.now }
    ensures name { result ≡ header_name file.now }
    ensures within { IfSome result (λ part. lies_within (length file.now) part ≡ true) }
{
    let name = Part {
        offset: 2,
        length: file[1] as usize,
    };
    if name.length <= LONGEST_NAME {
        name.if_any()
    } else {
        None
    }
}

/// Where the comment is, unless it ends outside the file.
fn comment_in(file: &[u8]) -> Option<Part>
    requires { 128 ≤ length file.now }
    ensures comment { result ≡ comment_of file.now }
    ensures within { IfSome result (λ part. lies_within (length file.now) part ≡ true) }
{
    let fork = resource_fork(file);
    let comment = Part {
        offset: fork.offset + padded(fork.length),
        length: read_two(file, 99) as usize,
    };
    if comment.lies_within(file.len()) {
        comment.if_any()
    } else {
        None
    }
}

/// What MacBinary says of a file.
pub(crate) fn read_mac_binary(version: Version, file: &[u8]) -> Result<Contents, ContainerFault>
    ensures fault { result_err result ≡ mac_binary_fault version file.now }
    ensures contents { IfOk result (λ contents. contents ≡ mac_binary_contents file.now) }
    ensures within { IfOk result (AreWithin (length file.now)) }
{
    check(version, file)?;
    Ok(Contents {
        resource_fork: resource_fork(file).if_any(),
        data_fork: data_fork(file).if_any(),
        name: name_in(file),
        comment: comment_in(file),
        finder: Some(finder_in(file)),
        dates: Some(Dates {
            created: read_four(file, 91),
            modified: read_four(file, 95),
        }),
    })
}
