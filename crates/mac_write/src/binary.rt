//! MacBinary with another resource fork.

ghost use Rattle.std.specs.Prelude.{◌≡◌, ◌≤◌, [], length, drop, IfOk, OnOk};
ghost use Rattle.std.specs.Result.{result_err};
ghost use Rattle.byteorder.specs.Endian.{big_bytes};
ghost use Rattle.mac_files.specs.declared.container.Container.TheVariants.{MacBinary};
ghost use Rattle.mac_write.specs.Bytes.{put};
ghost use Rattle.mac_write.specs.Forks.{ChangesFork, KeepsComment, Refuses, binary_why};
ghost use Rattle.mac_files.specs.MacBinary.{comment_place};
ghost use Rattle.mac_write.specs.MacBinary.{binary_front, binary_refusal, binary_with_fork, longest_fork, with_sum};

use crate::bytes::push_filled;
use crate::refusal::Refusal;
use byteorder::{BigEndian, ByteOrder};
use mac_files::container::Version;
use mac_files::crc::crc_of;
use mac_files::mac_binary::{check, padded, resource_fork};
use std::alloc::{AllocError, Global};

/// How many bytes of the header the checksum is of. It follows them.
const SUMMED_LENGTH: usize = 124;

/// Where the length of the resource fork is.
const LENGTH_PLACE: usize = 87;

/// The most bytes of a fork.
fn longest_fork(version: Version) -> u32
    ensures { result ≡ longest_fork version }
{
    match version {
        Version::I => 0x007F_FFFF,
        Version::II | Version::III => u32::MAX,
    }
}

/// How many bytes the fork has, if the header can say it.
fn fork_length(version: Version, fork: &[u8]) -> Result<u32, Refusal>
    ensures refusal { result_err result ≡ binary_refusal version (length fork.now) }
    ensures length { IfOk result (λ count. count ≡ length fork.now) }
{
    let most = longest_fork(version) as usize;
    let length = fork.len();
    if length > most {
        return Err(Refusal::TooLong { length, most });
    }
    Ok(length as u32)
}

/// Writes the checksum into a header, where the version has one.
fn write_sum(version: Version, header: &mut [u8])
    requires { 128 ≤ length header.old }
    ensures { header.new ≡ with_sum version header.old }
{
    match version {
        Version::I => {}
        Version::II | Version::III => {
            let sum = crc_of(&header[..SUMMED_LENGTH]);
            BigEndian::write_u16(&mut header[SUMMED_LENGTH..], sum);
        }
    }
}

/// Writes the length of the resource fork into a header.
fn write_length(count: u32, header: &mut [u8])
    requires { 128 ≤ length header.old }
    ensures header { header.new ≡ put 87 (big_bytes 4 count) header.old }
    ensures same_length { length header.new ≡ length header.old }
{
    BigEndian::write_u32(&mut header[LENGTH_PLACE..], count);
}

/// Writes the length of the resource fork into a header, and its checksum.
fn write_header(version: Version, count: u32, header: &mut [u8])
    requires { 128 ≤ length header.old }
    ensures { header.new ≡ with_sum version (put 87 (big_bytes 4 count) header.old) }
{
    write_length(count, header);
    write_sum(version, header);
}

/// Adds what comes before the resource fork, whose length is changed, to a file that is empty.
fn push_front(
    new: &mut Vec<u8>,
    version: Version,
    file: &[u8],
    count: u32,
) -> Result<(), AllocError>
    requires empty { new.old.items ≡ [] }
    requires header { 128 ≤ length file.now }
    ensures { OnOk result (new.new.items ≡ binary_front version file.now count) }
{
    let place = resource_fork(file).offset;
    push_filled(new, &file[..place.min(file.len())], place)?;
    write_header(version, count, new);
    Ok(())
}

/// What follows the resource fork and the bytes that fill its last 128.
fn after_fork(file: &[u8]) -> &[u8]
    requires { 128 ≤ length file.now }
    ensures { result.now ≡ drop (comment_place file.now) file.now }
{
    let fork = resource_fork(file);
    let start = fork.offset + padded(fork.length);
    if start < file.len() {
        &file[start..]
    } else {
        &file[..0]
    }
}

/// The file with these bytes as its resource fork.
pub(crate) fn binary_with_fork(
    alloc: Global,
    version: Version,
    file: &[u8],
    fork: &[u8],
) -> Result<Vec<u8>, Refusal>
    ensures file { IfOk result (λ new. new.items ≡ binary_with_fork version file.now fork.now) }
    ensures refusal { Refuses (result_err result) (binary_why version file.now (length fork.now)) }
    ensures changes { IfOk result (λ new. ChangesFork (MacBinary version) file.now fork.now new.items) }
    ensures comment { IfOk result (λ new. KeepsComment file.now new.items) }
{
    check(version, file)?;
    let count = fork_length(version, fork)?;
    let mut new = Vec::with_capacity(alloc, file.len() + fork.len())?;
    push_front(&mut new, version, file, count)?;
    push_filled(&mut new, fork, padded(fork.len()))?;
    new.extend_from_slice(after_fork(file))?;
    Ok(new)
}
