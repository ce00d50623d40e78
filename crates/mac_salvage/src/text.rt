//! A BinHex text is read in spite of wrong characters.

ghost use Rattle.std.specs.Prelude.{◌≡◌, ◌<◌, ◌≤◌, false, length, not, position, true, vec_len, vec_capacity, IfOk, IfSome, MatchOption};
ghost use Rattle.std.specs.List.{list_any};
ghost use Rattle.mac_files.specs.BinHex.{is_line_end, is_skipped};
ghost use Rattle.mac_salvage.specs.Texts.{begins_with_digit, belongs, bytes_left, is_digit, is_shut, first_after, mended, mended_character, start_at, start_of};

use mac_files::bin_hex::decode::{Decoded, decode, decoded_length};
use mac_files::bin_hex::{digit_value, ends_line, find_colon, find_comment, is_skipped, most_of};
use std::alloc::{AllocError, Global};

/// The digit that stands for six zero bits.
const ZERO: u8 = b'!';

/// Whether a character is one of the 64 digits.
fn is_digit(character: u8) -> bool
    ensures { result ≡ is_digit character }
{
    digit_value(character).is_some()
}

/// Whether a digit comes first.
fn begins_with_digit(text: &[u8]) -> bool
    ensures { result ≡ begins_with_digit text.now }
{
    match text.first() {
        Some(character) => is_digit(*character),
        None => false,
    }
}

/// Whether a character belongs where it is, right before these: a digit, one that is skipped, or a colon that no digit
/// follows.
fn belongs(character: u8, rest: &[u8]) -> bool
    ensures { result ≡ belongs character rest.now }
{
    is_digit(character) || is_skipped(character) || (character == b':' && !begins_with_digit(rest))
}

/// A character as it is read: one that belongs where it is as it is, and another as a digit.
fn mended_character(character: u8, rest: &[u8]) -> u8
    ensures { result ≡ mended_character character rest.now }
{
    if belongs(character, rest) {
        character
    } else {
        ZERO
    }
}

/// A text with a digit in place of each wrong character.
#[tactic(auto, using(crate::proofs::Mending::mended_more, crate::proofs::Mending::mended_at_end))]
fn mended(alloc: Global, text: &[u8]) -> Result<Vec<u8>, AllocError>
    ensures { IfOk result (λ mended_text. mended_text.items ≡ mended text.now) }
{
    let mut characters = Vec::with_capacity(alloc, text.len())?;
    for at in 0..text.len() {
        characters.push_reserved(mended_character(text[at], &text[at + 1..]));
    }
    Ok(characters)
}

/// Where the first line ends.
fn line_end(text: &[u8]) -> Option<usize>
    ensures place { result ≡ position is_line_end text.now }
    ensures inside { IfSome result (λ at. at < length text.now) }
{
    text.iter().position(|character| ends_line(*character))
}

/// Where the first character is that isn't skipped.
fn first_character(text: &[u8]) -> Option<usize>
    ensures place { result ≡ position (λ c. not (is_skipped c)) text.now }
    ensures inside { IfSome result (λ at. at < length text.now) }
{
    text.iter().position(|character| !is_skipped(*character))
}

/// The first character after the line that each tool writes before the text that isn't skipped.
fn first_after(text: &[u8]) -> Option<usize>
    ensures place { result ≡ first_after text.now }
    ensures inside { IfSome result (λ at. at < length text.now) }
{
    let comment = find_comment(text).unwrap_or(0);
    let end = comment + line_end(&text[comment..])?;
    Some(end + first_character(&text[end..])?)
}

/// Where the digits begin if such a character is the first: with it, if it is a digit, and else after it.
fn start_at(text: &[u8], at: usize) -> usize
    requires { at < length text.now }
    ensures start { result ≡ start_at text.now at }
    ensures inside { result ≤ length text.now }
{
    if is_digit(text[at]) { at } else { at + 1 }
}

/// Whether there is a digit.
fn has_digit(text: &[u8]) -> bool
    ensures { result ≡ list_any is_digit text.now }
{
    text.iter().any(|character| is_digit(*character))
}

/// Where the digits begin: after the colon that begins a line; or where there is none before a digit, after the line that
/// each tool writes, with the character in the colon's place passed over if it is no digit.
fn start_of(text: &[u8]) -> Option<usize>
    ensures place { result ≡ start_of text.now }
    ensures inside { IfSome result (λ at. at ≤ length text.now) }
{
    if let Some(colon) = find_colon(text)
        && has_digit(&text[colon + 1..])
    {
        return Some(colon + 1);
    }
    Some(start_at(text, first_after(text)?))
}

/// The bytes that a text stands for in spite of wrong characters, in a block of memory of just that size; None where
/// nothing comes after the line that each tool writes, or it stands for more bytes than are read of it.
#[tactic(auto, using(crate::proofs::Mending::rest_of, crate::proofs::Opening::none_shut, crate::proofs::Opening::over_shut, crate::proofs::Opening::under_open))]
pub fn bytes_left(alloc: Global, text: &[u8]) -> Result<Option<Vec<u8>>, AllocError>
    ensures bytes { IfOk result (λ found. MatchOption found (is_shut text.now ≡ true) (λ bytes. (is_shut text.now ≡ false) × (bytes.items ≡ bytes_left text.now))) }
    ensures memory { IfOk result (λ found. IfSome found (λ bytes. vec_capacity bytes ≡ vec_len bytes)) }
{
    let Some(start) = start_of(text) else {
        return Ok(None);
    };
    let mended = mended(alloc, &text[start..])?;
    let Some(count) = decoded_length(&mended, 0) else {
        return Ok(None);
    };
    if most_of(text.len()) < count {
        return Ok(None);
    }
    let Decoded { bytes, .. } = decode(alloc, &mended, 0, count)?;
    Ok(Some(bytes))
}
