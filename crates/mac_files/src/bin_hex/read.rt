//! A BinHex text is read.

ghost use Rattle.std.specs.Prelude.{◌≡◌, ◌<◌, ◌≤◌, ◌+◌, ◌^◌, ◌⊎◌, length, vec_len, vec_capacity, Err, IfOk, OnOk};
ghost use Rattle.std.specs.Result.{result_err};
ghost use Rattle.mac_files.specs.declared.bin_hex.fault.BinHexFault.TheVariants.{HostFull};
ghost use Rattle.mac_files.specs.BinHex.{bin_hex_of, bin_hex_within, data_length, length_of, most_of, name_length, resource_length, section_fault, values_of};
ghost use Rattle.mac_files.specs.BinHexFiles.{Gives, GivesFrom, IsDecoded, reading_of};

use crate::bin_hex::crc::crc;
use crate::bin_hex::decode::{Decoded, decode, decoded_length, place_of};
use crate::bin_hex::fault::{BinHexFault, Section};
use crate::bin_hex::file::BinHexFile;
use crate::bin_hex::find::find_colon;
use crate::number::{four_bytes, read_four, read_two};
use std::alloc::Global;

/// Checks that a section, which goes from a place of the bytes to its CRC at another, is whole, and that the CRC is
/// right.
fn check_section(
    decoded: &Decoded,
    section: Section,
    start: usize,
    end: usize,
) -> Result<(), BinHexFault>
    requires decoded { IsDecoded decoded.now }
    requires order { start ≤ end }
    requires small { end + 2 < 2 ^ 64 }
    ensures whole { OnOk result (end + 2 ≤ vec_len decoded.now.bytes) }
    ensures fault { section_fault section start end (reading_of decoded.now) ≡ result_err result }
{
    if decoded.bytes.len() < end + 2 {
        return Err(match decoded.ending {
            Ok(at) => BinHexFault::TooShort { section, at },
            Err(fault) => fault,
        });
    }
    let stored = read_two(&decoded.bytes, end);
    let computed = crc(&decoded.bytes[start..end]);
    if stored != computed {
        let at = place_of(decoded.text, decoded.from, end + 1);
        return Err(BinHexFault::WrongCrc {
            section,
            at,
            stored,
            computed,
        });
    }
    Ok(())
}

/// How many bytes the name has.
fn name_length(decoded: &Decoded) -> usize
    requires { IsDecoded decoded.now }
    ensures length { result ≡ name_length (values_of (reading_of decoded.now)) }
    ensures byte { result < 256 }
{
    decoded.bytes.first().copied().unwrap_or(0) as usize
}

/// How many bytes the data fork has, where the name has so many.
fn data_length(decoded: &Decoded, name: usize) -> usize
    requires decoded { IsDecoded decoded.now }
    requires name { name ≡ name_length (values_of (reading_of decoded.now)) }
    requires header { name + 22 ≤ vec_len decoded.now.bytes }
    ensures length { result ≡ data_length (values_of (reading_of decoded.now)) }
    ensures four { result < 2 ^ 32 }
{
    read_four(&decoded.bytes, name + 12) as usize
}

/// How many bytes the resource fork has, where the name has so many.
fn resource_length(decoded: &Decoded, name: usize) -> usize
    requires decoded { IsDecoded decoded.now }
    requires name { name ≡ name_length (values_of (reading_of decoded.now)) }
    requires header { name + 22 ≤ vec_len decoded.now.bytes }
    ensures length { result ≡ resource_length (values_of (reading_of decoded.now)) }
    ensures four { result < 2 ^ 32 }
{
    read_four(&decoded.bytes, name + 16) as usize
}

/// The file of the bytes, if each section is whole and has its CRC, and the text is closed after them.
fn file_in(decoded: Decoded) -> Result<BinHexFile, BinHexFault>
    requires { IsDecoded decoded }
    ensures given { GivesFrom (reading_of decoded.entry) result }
    ensures block { IfOk result (λ file. file.bytes ≡ decoded.entry.bytes) }
{
    let name_length = name_length(&decoded);
    let header_end = name_length + 20;
    check_section(&decoded, Section::Header, 0, header_end)?;
    let data_length = data_length(&decoded, name_length);
    let resource_length = resource_length(&decoded, name_length);
    let data_end = header_end + 2 + data_length;
    check_section(&decoded, Section::Data, header_end + 2, data_end)?;
    let resource_end = data_end + 2 + resource_length;
    check_section(&decoded, Section::Resource, data_end + 2, resource_end)?;
    let Decoded { bytes, ending, .. } = decoded;
    ending?;
    Ok(BinHexFile {
        name_length,
        kind: four_bytes(&bytes, name_length + 2),
        creator: four_bytes(&bytes, name_length + 6),
        flags: read_two(&bytes, name_length + 10),
        data_length,
        resource_length,
        bytes,
    })
}

/// The most bytes that are read of each text, however short it is.
const LEAST_BOUND: usize = 67_108_864;

/// The most bytes that are read of a text of this length, where no other bound is given: 64 MiB, or three times as many
/// as the text has.
pub fn most_of(count: usize) -> usize
    ensures { result ≡ most_of count }
{
    count.saturating_mul(3).max(LEAST_BOUND)
}

/// The file that a text stands for, in one block of memory that has just the decoded bytes. A text that stands for more
/// bytes than this bound is refused, with no memory for them. Any other fault is the first in the order of the text;
/// HostFull comes only where the host has no memory for that block.
pub fn read_bin_hex_within(
    alloc: Global,
    text: &[u8],
    most: usize,
) -> Result<BinHexFile, BinHexFault>
    ensures file { Gives result (bin_hex_within most text.now) }
    ensures bounded { result ≡ Err HostFull → (length_of text.now ≤ most) ⊎ (2 ^ 64 ≤ length_of text.now) }
    ensures memory { IfOk result (λ file. vec_capacity file.bytes ≡ vec_len file.bytes) }
{
    let Some(colon) = find_colon(text) else {
        return Err(BinHexFault::NoText);
    };
    let from = colon + 1;
    let Some(count) = decoded_length(text, from) else {
        return Err(BinHexFault::HostFull);
    };
    if most < count {
        return Err(BinHexFault::TooLong {
            length: count,
            most,
        });
    }
    let Ok(decoded) = decode(alloc, text, from, count) else {
        return Err(BinHexFault::HostFull);
    };
    file_in(decoded)
}

/// The same, with the bound of a text of this length.
pub fn read_bin_hex(alloc: Global, text: &[u8]) -> Result<BinHexFile, BinHexFault>
    ensures file { Gives result (bin_hex_of text.now) }
    ensures memory { IfOk result (λ file. vec_capacity file.bytes ≡ vec_len file.bytes) }
{
    read_bin_hex_within(alloc, text, most_of(text.len()))
}
