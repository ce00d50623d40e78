//! A file as a BinHex 4.0 text.

ghost use Rattle.std.specs.Prelude.{◌≡◌, ℕ, ◌≤◌, ◌<◌, ◌+◌, ◌^◌, List, ◌∷◌, ◌++◌, length, IfOk, OnOk};
ghost use Rattle.std.specs.Result.{result_err};
ghost use Rattle.mac_write.specs.Forks.{Refuses};
ghost use Rattle.mac_write.specs.HexText.{digit, digits, escape, escaped, hex_bytes, hex_file, hex_header, hex_text, in_lines, with_crc};
ghost use Rattle.mac_write.specs.Parts.{view};
ghost use Rattle.mac_write.specs.Targets.{hex_unwritten};

use crate::bytes::{push_four, push_two};
use crate::length::{check_length, check_name_length};
use crate::mac_file::MacFile;
use crate::refusal::Refusal;
use mac_files::bin_hex::crc::crc;
use std::alloc::{AllocError, Global};

/// The byte that is followed by a count.
const RUN: u8 = 0x90;

/// The most characters of a line.
const LINE_LENGTH: usize = 64;

/// The 64 digits, in the order of the six bits that they stand for.
const DIGITS: &[u8; 64] = b"!\"#$%&'()*+,-012345689@ABCDEFGHIJKLMNPQRSTUVXYZ[`abcdefhijklmpqr";

/// The line that comes before each text, and an empty one.
const COMMENT: &[u8] = b"(This file must be converted with BinHex 4.0)\n\n";

/// Checks that the header can hold all that it says.
fn check_head(file: &MacFile) -> Result<(), Refusal>
    ensures refusal { result_err result ≡ hex_unwritten (view file.now) }
    ensures name { OnOk result (length file.now.name.now ≤ 63) }
    ensures data_fork { OnOk result (length file.now.data_fork.now < 2 ^ 32) }
    ensures resource_fork { OnOk result (length file.now.resource_fork.now < 2 ^ 32) }
{
    check_name_length(file.name.len())?;
    check_length(file.data_fork.len())?;
    check_length(file.resource_fork.len())
}

/// The header, without its CRC.
fn header(alloc: Global, file: &MacFile) -> Result<Vec<u8>, AllocError>
    requires name { length file.now.name.now ≤ 63 }
    requires data_fork { length file.now.data_fork.now < 2 ^ 32 }
    requires resource_fork { length file.now.resource_fork.now < 2 ^ 32 }
    ensures { IfOk result (λ new. new.items ≡ hex_header (hex_file (view file.now))) }
{
    let mut new = Vec::new(alloc);
    new.push(file.name.len() as u8)?;
    new.extend_from_slice(file.name)?;
    new.push(0)?;
    new.extend_from_slice(&file.finder.kind)?;
    new.extend_from_slice(&file.finder.creator)?;
    push_two(&mut new, file.finder.flags)?;
    push_four(&mut new, file.data_fork.len() as u32)?;
    push_four(&mut new, file.resource_fork.len() as u32)?;
    Ok(new)
}

/// Adds a byte, and 0 after the run-length byte.
fn push_escape(new: &mut Vec<u8>, byte: u8) -> Result<(), AllocError>
    ensures { OnOk result (new.new.items ≡ new.old.items ++ escape byte) }
{
    if byte == RUN {
        new.extend_from_slice(&[RUN, 0])
    } else {
        new.extend_from_slice(&[byte])
    }
}

/// Adds bytes, each of them so.
fn push_escaped(new: &mut Vec<u8>, bytes: &[u8]) -> Result<(), AllocError>
    ensures { OnOk result (new.new.items ≡ new.old.items ++ escaped bytes.now) }
{
    for byte in bytes {
        push_escape(new, *byte)?;
    }
    Ok(())
}

/// Adds a section, escaped, and its CRC.
fn push_section(new: &mut Vec<u8>, bytes: &[u8]) -> Result<(), AllocError>
    ensures { OnOk result (new.new.items ≡ new.old.items ++ escaped (with_crc bytes.now)) }
{
    push_escaped(new, bytes)?;
    push_escaped(new, &crc(bytes).to_be_bytes())
}

/// The header and both forks, escaped, each with its CRC.
fn escaped_bytes(alloc: Global, file: &MacFile) -> Result<Vec<u8>, AllocError>
    requires name { length file.now.name.now ≤ 63 }
    requires data_fork { length file.now.data_fork.now < 2 ^ 32 }
    requires resource_fork { length file.now.resource_fork.now < 2 ^ 32 }
    ensures { IfOk result (λ new. new.items ≡ escaped (hex_bytes (hex_file (view file.now)))) }
{
    let header = header(alloc, file)?;
    let mut new = Vec::new(alloc);
    push_section(&mut new, &header)?;
    push_section(&mut new, file.data_fork)?;
    push_section(&mut new, file.resource_fork)?;
    Ok(new)
}

/// The character that stands for six bits.
#[tactic(auto, unfolding(crate::specs::HexText::digit))]
fn digit(value: u8) -> u8
    requires { value < 64 }
    ensures { result ≡ digit value }
{
    DIGITS[value as usize]
}

#[tactic(auto, unfolding(crate::specs::HexText::sixes))]
/// Adds the digits of one byte or two, which are the last, or of three.
fn push_digits(new: &mut Vec<u8>, bytes: &[u8]) -> Result<(), AllocError>
    requires { length bytes.now ≤ 3 }
    ensures { OnOk result (new.new.items ≡ new.old.items ++ digits bytes.now) }
{
    match bytes {
        [] => Ok(()),
        [a] => new.extend_from_slice(&[digit(a / 4), digit(a % 4 * 16)]),
        [a, b] => new.extend_from_slice(&[
            digit(a / 4),
            digit(a % 4 * 16 + b / 16),
            digit(b % 16 * 4),
        ]),
        [a, b, c, ..] => new.extend_from_slice(&[
            digit(a / 4),
            digit(a % 4 * 16 + b / 16),
            digit(b % 16 * 4 + c / 64),
            digit(c % 64),
        ]),
    }
}

/// Adds the digits of bytes.
fn push_all_digits(new: &mut Vec<u8>, bytes: &[u8]) -> Result<(), AllocError>
    ensures { OnOk result (new.new.items ≡ new.old.items ++ digits bytes.now) }
{
    let groups = bytes.len() / 3;
    for group in 0..groups {
        push_digits(new, &bytes[3 * group..3 * group + 3])?;
    }
    push_digits(new, &bytes[3 * groups..])
}

/// Adds a character to a line that has so much room, or to the next one. It returns the room that is left.
fn push_character(new: &mut Vec<u8>, room: usize, character: u8) -> Result<usize, AllocError>
    requires { room ≤ 64 }
    ensures lines { IfOk result (λ left. (rest : List ℕ) → new.new.items ++ in_lines left rest ≡ new.old.items ++ in_lines room (character ∷ rest)) }
    ensures left { IfOk result (λ left. left ≤ 64) }
{
    if room == 0 {
        new.extend_from_slice(&[b'\n', character])?;
        Ok(LINE_LENGTH - 1)
    } else {
        new.extend_from_slice(&[character])?;
        Ok(room - 1)
    }
}

/// Adds characters in lines.
fn push_lines(new: &mut Vec<u8>, characters: &[u8]) -> Result<(), AllocError>
    ensures { OnOk result (new.new.items ≡ new.old.items ++ in_lines 64 characters.now) }
{
    let mut room = LINE_LENGTH;
    for character in characters {
        room = push_character(new, room, *character)?;
    }
    new.extend_from_slice(b"\n")?;
    Ok(())
}

/// The file as a BinHex text.
pub(crate) fn write_hex(alloc: Global, file: &MacFile) -> Result<Vec<u8>, Refusal>
    ensures file { IfOk result (λ new. new.items ≡ hex_text (hex_file (view file.now))) }
    ensures refusal { Refuses (result_err result) (hex_unwritten (view file.now)) }
{
    check_head(file)?;
    let bytes = escaped_bytes(alloc, file)?;
    let mut characters = Vec::from_slice(alloc, b":")?;
    push_all_digits(&mut characters, &bytes)?;
    characters.push(b':')?;
    let mut new = Vec::from_slice(alloc, COMMENT)?;
    push_lines(&mut new, &characters)?;
    Ok(new)
}
