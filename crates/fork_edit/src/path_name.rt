//! The name that a path gives a file.

ghost use Rattle.std.specs.Prelude.{◌≡◌, IfOk};
ghost use Rattle.std.specs.Str.{chars};
ghost use Rattle.fork_edit.specs.PathNames.{AreBytesOf, IsByteOf, IsNameOfPath, has_ending, last_part, name_in_path, unmarked, without_ending};

use fork_list::byte_of;
use std::alloc::{AllocError, Global};

/// The endings of files that are nothing but a resource fork.
const LONG_ENDING: &[u8] = b".rsrc";

const SHORT_ENDING: &[u8] = b".rsr";

/// What comes after the last slash.
fn last_part(path: &[u8]) -> &[u8]
    ensures { result.now ≡ last_part path.now }
{
    let mut start = 0;
    for at in 0..path.len() {
        if path[at] == b'/' {
            start = at + 1;
        }
    }
    &path[start..]
}

/// The name without the "._" with which that of an AppleDouble file begins.
fn unmarked(name: &[u8]) -> &[u8]
    ensures { result.now ≡ unmarked name.now }
{
    match name {
        [b'.', b'_', rest @ ..] => rest,
        _ => name,
    }
}

/// Whether a name ends so, in small letters or capitals, and isn't all of that.
fn has_ending(name: &[u8], ending: &[u8]) -> bool
    ensures { result ≡ has_ending ending.now name.now }
{
    name.len() > ending.len() && name[name.len() - ending.len()..].eq_ignore_ascii_case(ending)
}

/// The name without the ending of a raw fork.
fn without_ending(name: &[u8]) -> &[u8]
    ensures { result.now ≡ without_ending name.now }
{
    if has_ending(name, LONG_ENDING) {
        &name[..name.len() - LONG_ENDING.len()]
    } else if has_ending(name, SHORT_ENDING) {
        &name[..name.len() - SHORT_ENDING.len()]
    } else {
        name
    }
}

/// The byte of a character in MacRoman; of one that it hasn't, an underscore.
fn roman_byte(character: char) -> u8
    ensures { IsByteOf character result }
{
    match byte_of(character) {
        Some(byte) => byte,
        None => b'_',
    }
}

/// The bytes of the characters of a text.
fn roman_bytes(alloc: Global, text: &str) -> Result<Vec<u8>, AllocError>
    ensures { IfOk result (λ bytes. AreBytesOf (chars text.now) bytes.items) }
{
    let mut bytes = Vec::new(alloc);
    for character in text.chars() {
        bytes.push(roman_byte(character))?;
    }
    Ok(bytes)
}

/// The name of the file in a path of these bytes.
fn name_in_path(path: &[u8]) -> &[u8]
    ensures { result.now ≡ name_in_path path.now }
{
    without_ending(unmarked(last_part(path)))
}

/// The name that a path gives a file, in MacRoman, which gets an underscore for each character that it hasn't: the
/// path's last part, without the "._" of AppleDouble before it, and without an ending .rsrc or .rsr after it, in small
/// letters or capitals, unless nothing else is left. The only error is that the host has no memory.
pub fn name_of_path(alloc: Global, path: &str) -> Result<Vec<u8>, AllocError>
    ensures { IfOk result (λ name. IsNameOfPath path.now name.items) }
{
    let bytes = roman_bytes(alloc, path)?;
    Vec::from_slice(alloc, name_in_path(&bytes))
}
