//! How a resource is shown on a page.

ghost use Rattle.std.specs.Prelude.{◌≡◌, IfOk, option_map};
ghost use Rattle.fork_page.specs.Shown.{IsPlain, IsShown, pictured, sound_file};

use fork_bytes::table::Row;
use fork_list::unpacked_length;
use fork_view::form::{is_text, png_of, push_hex, push_text};
use fork_view::{NotShown, is_drawing, wav_of};
use std::alloc::{AllocError, Global};

/// How many bytes of a resource are shown in hexadecimal digits, if nothing better is known of it.
pub(crate) const FRONT: usize = 1024;

/// How many bytes the WAV file of a sound that can be played on a page has at most.
const MOST_PLAYED: usize = 4_194_304;

/// What is shown of a resource.
#[derive(Drop)]
pub(crate) enum Shown {
    /// A PNG file.
    Picture(Vec<u8>),
    /// A WAV file.
    Sound(Vec<u8>),
    /// A text.
    Text(String),
    /// So many bytes, which it would have once it is unpacked.
    Compressed(usize),
    /// Its first bytes in hexadecimal digits.
    Digits(String),
}

/// The first bytes of a resource in hexadecimal digits.
fn digits_of(alloc: Global, bytes: &[u8]) -> Result<Shown, AllocError>
    ensures { IfOk result IsPlain }
{
    let mut text = String::new(alloc);
    push_hex(&mut text, &bytes[..bytes.len().min(FRONT)])?;
    Ok(Shown::Digits(text))
}

/// The text of a resource, or its first bytes where it has none.
fn text_of(alloc: Global, row: &Row) -> Result<Shown, AllocError>
    ensures { IfOk result IsPlain }
{
    let mut text = String::new(alloc);
    if is_text(row) && push_text(alloc, &mut text, row)? {
        return Ok(Shown::Text(text));
    }
    digits_of(alloc, row.datum.as_slice())
}

/// The PNG file that is shown of a resource among these, or None where it is no picture, or one in QuickDraw's language:
/// each of these may take seconds to draw.
fn pictured(alloc: Global, rows: &[Row], row: &Row) -> Result<Option<Vec<u8>>, AllocError>
    ensures { IfOk result (λ file. option_map (λ bytes. bytes.items) file ≡ pictured rows.now row.now) }
{
    if is_drawing(row) {
        return Ok(None);
    }
    png_of(alloc, rows, row)
}

/// The WAV file that is played of a resource, or None where it is no sound, or one that is too long.
fn sound_file(alloc: Global, row: &Row) -> Result<Option<Vec<u8>>, AllocError>
    ensures { IfOk result (λ file. option_map (λ bytes. bytes.items) file ≡ sound_file row.now) }
{
    match wav_of(alloc, row) {
        Ok(wav) if wav.len() <= MOST_PLAYED => Ok(Some(wav)),
        Err(NotShown::HostFull) => Err(AllocError),
        Ok(_) | Err(_) => Ok(None),
    }
}

/// What is shown of a resource among these.
pub(crate) fn shown_of(alloc: Global, rows: &[Row], row: &Row) -> Result<Shown, AllocError>
    ensures { IfOk result (IsShown rows.now row.now) }
{
    if let Some(png) = pictured(alloc, rows, row)? {
        return Ok(Shown::Picture(png));
    }
    if let Some(length) = unpacked_length(row.attributes, row.datum.as_slice()) {
        return Ok(Shown::Compressed(length));
    }
    if let Some(wav) = sound_file(alloc, row)? {
        return Ok(Shown::Sound(wav));
    }
    text_of(alloc, row)
}
