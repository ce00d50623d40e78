//! The bytes of a resource as text, in hexadecimal digits, and as a picture.

ghost use Rattle.std.specs.Prelude.{◌≡◌, IfOk, false, option_copied, option_map, string_bytes};
ghost use Rattle.fork_view.specs.Forms.{drawn_as, ends_early, is_text, mask_in, picture_file};

use crate::drawing::{drawing_file, is_drawing};
use fork_bytes::table::Row;
use fork_list::find::{Key, Wanted};
use fork_list::strings::{string_of, strings_of};
use fork_list::version::{Stage, Version, version_of};
use fork_list::{char_of, find_row};
use fork_pictures::fault::NotDrawn;
use fork_pictures::kind::Kind;
use fork_pictures::picture::Picture;
use fork_pictures::{kind_of, picture_of, png_file};
use mac_base::resource::ResType;
use std::alloc::{AllocError, Global};

/// How many bytes a line of hexadecimal digits shows.
const LINE: usize = 16;

/// Adds a byte of a text in MacRoman: a carriage return ends a line, and other control characters are shown as `\xHH`.
fn push_letter(text: &mut String, byte: u8) -> Result<(), AllocError> {
    match byte {
        b'\r' | b'\n' => text.push('\n'),
        b'\t' => text.push('\t'),
        0..=31 | 127 => write!(text, "\\x{byte:02X}"),
        _ => text.push(char_of(byte)),
    }
}

/// Adds a text in MacRoman.
fn push_letters(text: &mut String, letters: &[u8]) -> Result<(), AllocError> {
    for byte in letters {
        push_letter(text, *byte)?;
    }
    Ok(())
}

/// Adds a text in MacRoman, and the end of its last line where it has none.
fn push_lines(text: &mut String, letters: &[u8]) -> Result<(), AllocError> {
    push_letters(text, letters)?;
    if !letters.is_empty() && !matches!(letters.last(), Some(b'\r' | b'\n')) {
        text.push('\n')?;
    }
    Ok(())
}

/// Adds texts, each in a line of its own.
fn push_strings(text: &mut String, strings: &[&[u8]]) -> Result<(), AllocError> {
    for string in strings {
        push_letters(text, string)?;
        text.push('\n')?;
    }
    Ok(())
}

/// The letter that stands for a stage between the numbers of a version.
fn letter_of(stage: Stage) -> char {
    match stage {
        Stage::Development => 'd',
        Stage::Alpha => 'a',
        Stage::Beta => 'b',
        Stage::Final => 'f',
        Stage::Other(_) => '?',
    }
}

/// Adds a version, in lines.
fn push_version(text: &mut String, version: &Version<'_>) -> Result<(), AllocError> {
    let major = version.major;
    let minor = version.minor;
    let correction = version.correction;
    let stage = letter_of(version.stage);
    let prerelease = version.prerelease;
    let region = version.region;
    writeln!(
        text,
        "version: {major}.{minor}.{correction}{stage}{prerelease}"
    )?;
    writeln!(text, "region: {region}")?;
    text.push_str("short: ")?;
    push_strings(text, &[version.short])?;
    text.push_str("long: ")?;
    push_strings(text, &[version.long])
}

/// Whether the resources of a type are shown as text if nothing else is asked for.
pub fn is_text(row: &Row) -> bool
    ensures { result ≡ is_text row.now.kind }
{
    matches!(&row.kind.bytes(), b"STR " | b"STR#" | b"TEXT" | b"vers")
}

/// Whether a resource ends before its texts do.
pub(crate) fn ends_early(alloc: Global, row: &Row) -> Result<bool, AllocError>
    ensures { IfOk result (λ is_early. is_early ≡ ends_early row.now) }
{
    let bytes = row.datum.as_slice();
    match &row.kind.bytes() {
        b"STR " => Ok(string_of(bytes).is_none()),
        b"STR#" => Ok(strings_of(alloc, bytes)?.is_none()),
        b"vers" => Ok(version_of(bytes).is_none()),
        _ => Ok(false),
    }
}

/// Adds a resource as text: its strings, its version, or all its bytes as MacRoman. False where it ends before its
/// strings do, and nothing is added.
pub fn push_text(alloc: Global, text: &mut String, row: &Row) -> Result<bool, AllocError>
    ensures { IfOk result (λ is_shown. is_shown ≡ false → string_bytes text.new ≡ string_bytes text.old) }
{
    let bytes = row.datum.as_slice();
    match &row.kind.bytes() {
        b"STR " => match string_of(bytes) {
            Some(string) => push_strings(text, &[string])?,
            None => return Ok(false),
        },
        b"STR#" => match strings_of(alloc, bytes)? {
            Some(strings) => push_strings(text, strings.as_slice())?,
            None => return Ok(false),
        },
        b"vers" => match version_of(bytes) {
            Some(version) => push_version(text, &version)?,
            None => return Ok(false),
        },
        _ => push_lines(text, bytes)?,
    }
    Ok(true)
}

/// Adds the hexadecimal digits of bytes.
fn push_digits(text: &mut String, bytes: &[u8]) -> Result<(), AllocError> {
    for byte in bytes {
        write!(text, " {byte:02X}")?;
    }
    Ok(())
}

/// Adds blanks for bytes that a line lacks.
fn push_blanks(text: &mut String, count: usize) -> Result<(), AllocError> {
    for _byte in 0..count {
        text.push_str("   ")?;
    }
    Ok(())
}

/// Adds the characters of bytes, and a dot for each control character.
fn push_characters(text: &mut String, bytes: &[u8]) -> Result<(), AllocError> {
    for byte in bytes {
        let letter = match byte {
            0..=31 | 127 => '.',
            _ => char_of(*byte),
        };
        text.push(letter)?;
    }
    Ok(())
}

/// Adds a line of bytes: where they are, their hexadecimal digits, and their characters.
fn push_line(text: &mut String, at: usize, bytes: &[u8]) -> Result<(), AllocError> {
    write!(text, "{at:06X} ")?;
    push_digits(text, bytes)?;
    push_blanks(text, LINE.saturating_sub(bytes.len()))?;
    text.push_str("  ")?;
    push_characters(text, bytes)?;
    text.push('\n')
}

/// Adds bytes in hexadecimal digits, sixteen to a line.
pub fn push_hex(text: &mut String, bytes: &[u8]) -> Result<(), AllocError> {
    for (line, bytes) in bytes.chunks(LINE).enumerate() {
        push_line(text, line.saturating_mul(LINE), bytes)?;
    }
    Ok(())
}

/// The bytes of the resource that has the mask of an icon in colour: it has the same id.
fn mask_in<'a>(rows: &[Row<'a>], row: &Row, kind: Option<[u8; 4]>) -> Option<&'a [u8]>
    ensures { option_copied result ≡ mask_in rows.now row.now kind }
{
    let wanted = Wanted {
        kind: ResType::new(kind?),
        key: Key::Id(row.id),
        nth: 0,
    };
    match find_row(rows, &wanted) {
        Some(other) => Some(other.datum.as_slice()),
        None => None,
    }
}

/// The picture that a resource is, or None where its bytes are none.
fn drawn_as(
    alloc: Global,
    rows: &[Row],
    row: &Row,
    kind: Option<Kind>,
) -> Result<Option<Picture>, AllocError>
    ensures { IfOk result (λ picture. picture ≡ drawn_as rows.now row.now kind) }
{
    let Some(kind) = kind else {
        return Ok(None);
    };
    let mask = mask_in(rows, row, kind.mask_type());
    match picture_of(alloc, kind, row.datum.as_slice(), mask) {
        Ok(picture) => Ok(Some(picture)),
        Err(NotDrawn::Fault(_)) => Ok(None),
        Err(NotDrawn::HostFull) => Err(AllocError),
    }
}

/// The PNG file of a resource, or None where it is no picture. Of a 'PICT' it is what is drawn.
pub fn png_of(alloc: Global, rows: &[Row], row: &Row) -> Result<Option<Vec<u8>>, AllocError>
    ensures { IfOk result (λ file. option_map (λ bytes. bytes.items) file ≡ picture_file rows.now row.now) }
{
    if is_drawing(row) {
        return drawing_file(alloc, row);
    }
    match drawn_as(alloc, rows, row, kind_of(row.kind.bytes()))? {
        Some(picture) => Ok(Some(png_file(alloc, &picture)?)),
        None => Ok(None),
    }
}
