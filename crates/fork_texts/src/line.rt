//! A text as a line.

ghost use Rattle.std.specs.Prelude.{◌≡◌, ◌++◌, ◌∷◌, [], ◌≤◌, ◌<◌, IfOk, OnOk, length, replicate};
ghost use Rattle.std.specs.List.{flat_map};
ghost use Rattle.fork_texts.specs.Lines.{bare_length, digits, head_text, kind_text, kind_written, line_text, place_text, quoted, written};

use crate::entry::Entry;
use crate::place::Place;
use fork_list::hexadecimal_digit;
use mac_base::resource::ResType;
use std::alloc::{AllocError, Global};

/// The column in which texts begin, unless what is before them is longer.
const COLUMN: usize = 17;

/// A line, and where it is in its text.
#[derive(Drop)]
pub(crate) struct Line {
    pub entry: Entry,
    /// How many bytes are left where it begins.
    pub start: usize,
    /// How many are left where its text begins.
    pub quote: usize,
}

/// Adds a byte in two hexadecimal digits.
fn push_digits(out: &mut Vec<u8>, byte: u8) -> Result<(), AllocError>
    ensures { OnOk result (out.new.items ≡ out.old.items ++ digits byte) }
{
    out.extend_from_slice(b"\\x")?;
    out.push(hexadecimal_digit(byte / 16) as u8)?;
    out.push(hexadecimal_digit(byte % 16) as u8)?;
    Ok(())
}

/// Adds a backslash and a letter.
fn push_escape(out: &mut Vec<u8>, letter: u8) -> Result<(), AllocError>
    ensures { OnOk result (out.new.items ≡ out.old.items ++ 92 ∷ letter ∷ []) }
{
    out.push(b'\\')?;
    out.push(letter)?;
    Ok(())
}

/// Adds a byte of a text between quotes.
fn push_byte(out: &mut Vec<u8>, byte: u8) -> Result<(), AllocError>
    ensures { OnOk result (out.new.items ≡ out.old.items ++ written byte) }
{
    match byte {
        b'\r' => push_escape(out, b'n'),
        b'\t' => push_escape(out, b't'),
        b'"' | b'\\' => push_escape(out, byte),
        b' '..=b'~' | 128..=255 => Ok(out.push(byte)?),
        _ => push_digits(out, byte),
    }
}

/// Adds a text between quotes.
fn push_quoted(out: &mut Vec<u8>, text: &[u8]) -> Result<(), AllocError>
    ensures { OnOk result (out.new.items ≡ out.old.items ++ quoted text.now) }
{
    out.push(b'"')?;
    for byte in text {
        push_byte(out, *byte)?;
    }
    out.push(b'"')?;
    Ok(())
}

/// Adds a byte of a type, in which a blank is `\x20`.
fn push_kind_byte(out: &mut Vec<u8>, byte: u8) -> Result<(), AllocError>
    ensures { OnOk result (out.new.items ≡ out.old.items ++ kind_written byte) }
{
    if byte == b' ' {
        push_digits(out, byte)
    } else {
        push_byte(out, byte)
    }
}

/// How many bytes of a type there are without the blanks at its end: one at least.
fn bare_length(kind: &[u8; 4]) -> usize
    ensures length { result ≡ bare_length kind.now }
    ensures most { result ≤ 4 }
{
    if kind[3] != b' ' {
        4
    } else if kind[2] != b' ' {
        3
    } else if kind[1] != b' ' {
        2
    } else {
        1
    }
}

/// Adds a type, without the blanks at its end.
fn push_kind(out: &mut Vec<u8>, kind: ResType) -> Result<(), AllocError>
    ensures { OnOk result (out.new.items ≡ out.old.items ++ kind_text kind) }
{
    let bytes = kind.bytes();
    for byte in &bytes[..bare_length(&bytes)] {
        push_kind_byte(out, *byte)?;
    }
    Ok(())
}

/// Adds the words for a place.
fn push_place(alloc: Global, out: &mut Vec<u8>, place: Place) -> Result<(), AllocError>
    ensures { OnOk result (out.new.items ≡ out.old.items ++ place_text place) }
{
    match place {
        Place::Whole => Ok(()),
        Place::Name => Ok(out.extend_from_slice(b" name")?),
        Place::Title => Ok(out.extend_from_slice(b" title")?),
        Place::Short => Ok(out.extend_from_slice(b" short")?),
        Place::Long => Ok(out.extend_from_slice(b" long")?),
        Place::Numbered(number) => {
            let digits = number.to_string(alloc)?;
            out.extend_from_slice(b" [")?;
            out.extend_from_slice(digits.as_bytes())?;
            out.push(b']')?;
            Ok(())
        }
    }
}

/// What a line has before its text, without blanks at the end.
fn head_of(alloc: Global, entry: &Entry) -> Result<Vec<u8>, AllocError>
    ensures { IfOk result (λ head. head.items ≡ head_text entry.now) }
{
    let mut out = Vec::new(alloc);
    push_kind(&mut out, entry.what.kind)?;
    out.push(b' ')?;
    let digits = entry.what.id.to_string(alloc)?;
    out.extend_from_slice(digits.as_bytes())?;
    push_place(alloc, &mut out, entry.place)?;
    Ok(out)
}

/// Adds so many blanks.
fn push_blanks(out: &mut Vec<u8>, count: usize) -> Result<(), AllocError>
    ensures { OnOk result (out.new.items ≡ out.old.items ++ replicate count 32) }
{
    for _blank in 0..count {
        out.push(b' ')?;
    }
    Ok(())
}

/// Adds the line of a text, in MacRoman: the type and the id of its resource, its place, and its bytes between quotes.
pub(crate) fn push_line(alloc: Global, out: &mut Vec<u8>, entry: &Entry) -> Result<(), AllocError>
    ensures { OnOk result (out.new.items ≡ out.old.items ++ line_text entry.now) }
{
    let head = head_of(alloc, entry)?;
    out.extend_from_slice(&head)?;
    push_blanks(out, 1 + (COLUMN - 1).saturating_sub(head.len()))?;
    push_quoted(out, entry.text.as_slice())?;
    out.push(b'\n')?;
    Ok(())
}
