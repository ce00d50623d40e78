//! A file as MacBinary III.

ghost use Rattle.std.specs.Prelude.{◌≡◌, ◌==◌, ◌≤◌, ◌<◌, ◌^◌, ◌++◌, [], length, None, true, IfOk, OnOk};
ghost use Rattle.std.specs.Result.{result_err};
ghost use Rattle.std.specs.List.{list_any};
ghost use Rattle.mac_write.specs.declared.target.Target.TheVariants.{MacBinary};
ghost use Rattle.mac_write.specs.Forks.{Refuses};
ghost use Rattle.mac_write.specs.Parts.{view};
ghost use Rattle.mac_write.specs.Targets.{binary_date_refusal, binary_head, binary_text, binary_unwritten, block, comment_refusal, name_character_refusal, name_refusal};

use crate::bytes::{push_filled, push_four, push_two, push_zeros};
use crate::length::{LONGEST_NAME, check_length, check_name_length};
use crate::mac_file::MacFile;
use crate::refusal::Refusal;
use mac_files::crc::crc_of;
use mac_files::mac_binary::padded;
use std::alloc::{AllocError, Global};

/// Whether a name has a character 0.
fn has_zero(name: &[u8]) -> bool
    ensures { result ≡ list_any (λ c. c == 0) name.now }
{
    name.iter().any(|character| *character == 0)
}

/// Checks that the header can hold the characters of a name.
fn check_characters(name: &[u8]) -> Result<(), Refusal>
    requires { 1 ≤ length name.now }
    ensures { result_err result ≡ name_character_refusal name.now }
{
    if name[0] == 22 || has_zero(name) {
        return Err(Refusal::NameCharacter);
    }
    Ok(())
}

/// Checks that the header can hold a name.
fn check_name(name: &[u8]) -> Result<(), Refusal>
    ensures refusal { result_err result ≡ name_refusal name.now }
    ensures short { OnOk result (length name.now ≤ 63) }
{
    check_name_length(name.len())?;
    check_characters(name)
}

/// Checks that the header can hold a date.
fn check_date(date: u64) -> Result<(), Refusal>
    ensures refusal { result_err result ≡ binary_date_refusal date }
    ensures date { OnOk result (date < 2 ^ 32) }
{
    if date <= u32::MAX as u64 {
        Ok(())
    } else {
        Err(Refusal::DateOutside(date))
    }
}

/// Checks that the header can hold the length of a comment.
fn check_comment(count: usize) -> Result<(), Refusal>
    ensures refusal { result_err result ≡ comment_refusal count }
    ensures few { OnOk result (count < 2 ^ 16) }
{
    if count > u16::MAX as usize {
        return Err(Refusal::CommentTooLong(count));
    }
    Ok(())
}

/// Checks that the header can hold all that it says.
fn check_head(file: &MacFile) -> Result<(), Refusal>
    ensures refusal { result_err result ≡ binary_unwritten (view file.now) }
    ensures name { OnOk result (length file.now.name.now ≤ 63) }
    ensures created { OnOk result (file.now.created < 2 ^ 32) }
    ensures modified { OnOk result (file.now.modified < 2 ^ 32) }
    ensures data_fork { OnOk result (length file.now.data_fork.now < 2 ^ 32) }
    ensures resource_fork { OnOk result (length file.now.resource_fork.now < 2 ^ 32) }
    ensures comment { OnOk result (length file.now.comment.now < 2 ^ 16) }
{
    check_name(file.name)?;
    check_date(file.created)?;
    check_date(file.modified)?;
    check_length(file.data_fork.len())?;
    check_length(file.resource_fork.len())?;
    check_comment(file.comment.len())
}

/// Adds the first 124 bytes of the header to a file that is empty.
fn push_head(new: &mut Vec<u8>, file: &MacFile) -> Result<(), AllocError>
    requires empty { new.old.items ≡ [] }
    requires name { length file.now.name.now ≤ 63 }
    requires created { file.now.created < 2 ^ 32 }
    requires modified { file.now.modified < 2 ^ 32 }
    requires data_fork { length file.now.data_fork.now < 2 ^ 32 }
    requires resource_fork { length file.now.resource_fork.now < 2 ^ 32 }
    requires comment { length file.now.comment.now < 2 ^ 16 }
    ensures { OnOk result (new.new.items ≡ binary_head (view file.now)) }
{
    new.extend_from_slice(&[0, file.name.len() as u8])?;
    push_filled(new, file.name, LONGEST_NAME)?;
    new.extend_from_slice(&file.finder.kind)?;
    new.extend_from_slice(&file.finder.creator)?;
    new.extend_from_slice(&[(file.finder.flags / 256) as u8])?;
    push_zeros(new, 9)?;
    push_four(new, file.data_fork.len() as u32)?;
    push_four(new, file.resource_fork.len() as u32)?;
    push_four(new, file.created as u32)?;
    push_four(new, file.modified as u32)?;
    push_two(new, file.comment.len() as u16)?;
    new.extend_from_slice(&[(file.finder.flags % 256) as u8])?;
    new.extend_from_slice(b"mBIN")?;
    push_zeros(new, 16)?;
    new.extend_from_slice(&[130, 129])?;
    Ok(())
}

/// Adds the bytes of a part, and the zeros that fill its last 128.
fn push_block(new: &mut Vec<u8>, bytes: &[u8]) -> Result<(), AllocError>
    requires { length bytes.now < 2 ^ 32 }
    ensures { OnOk result (new.new.items ≡ new.old.items ++ block bytes.now) }
{
    push_filled(new, bytes, padded(bytes.len()))
}

/// The file as MacBinary III.
pub(crate) fn write_binary(alloc: Global, file: &MacFile) -> Result<Vec<u8>, Refusal>
    ensures file { IfOk result (λ new. new.items ≡ binary_text (view file.now)) }
    ensures refusal { Refuses (result_err result) (binary_unwritten (view file.now)) }
{
    check_head(file)?;
    let mut new = Vec::with_capacity(alloc, 128 + file.data_fork.len() + file.resource_fork.len())?;
    push_head(&mut new, file)?;
    let sum = crc_of(&new);
    push_two(&mut new, sum)?;
    new.extend_from_slice(&[0, 0])?;
    push_block(&mut new, file.data_fork)?;
    push_block(&mut new, file.resource_fork)?;
    push_block(&mut new, file.comment)?;
    Ok(new)
}
