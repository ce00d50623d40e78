//! Bytes between quotes.

ghost use Rattle.std.specs.Prelude.{◌≡◌};
ghost use Rattle.fork_rez.specs.Reading.{Gives, byte_at, character_at, digits_at, escape_at, quoted_at, unit_at};
ghost use Rattle.fork_rez.specs.Text.{is_printable};

use crate::blanks::{after_blanks, after_word};
use crate::fault::{Expected, ReadError, refused};
use std::alloc::Global;

/// How bytes are written between quotes.
#[derive(Clone, Copy)]
pub(crate) enum Quotes {
    /// As characters between single quotes.
    Single,
    /// As characters between double quotes.
    Double,
    /// In hexadecimal digits between double quotes.
    Hexadecimal,
}

/// A byte in two hexadecimal digits of either case.
#[tactic(auto, unfolding(crate::specs::Reading::byte_at))]
pub(crate) fn byte_at(text: &[u8]) -> Result<(u8, &[u8]), ReadError>
    ensures { Gives (λ x. (x.0, x.1.now)) result (byte_at text.now) }
{
    if let [high, low, rest @ ..] = text {
        let high = char::from(*high).to_digit(16);
        let low = char::from(*low).to_digit(16);
        if let (Some(high), Some(low)) = (high, low) {
            return Ok(((16 * high + low) as u8, rest));
        }
    }
    Err(refused(text, Expected::Digits))
}

/// What is after a backslash: a quote, a backslash, or `0x` and two digits.
#[tactic(auto, unfolding(crate::specs::Reading::escape_at))]
fn escape_at(text: &[u8]) -> Result<(u8, &[u8]), ReadError>
    ensures { Gives (λ x. (x.0, x.1.now)) result (escape_at text.now) }
{
    let Some((byte, rest)) = text.split_first() else {
        return Err(refused(text, Expected::Character));
    };
    if *byte == b'"' || *byte == b'\'' || *byte == b'\\' {
        return Ok((*byte, rest));
    }
    match after_word(b"0x", text) {
        Some(digits) => byte_at(digits),
        None => Err(refused(text, Expected::Character)),
    }
}

/// Whether a byte is printable ASCII.
pub(crate) fn is_printable(byte: u8) -> bool
    ensures { result ≡ is_printable byte }
{
    b' ' <= byte && byte <= b'~'
}

/// A byte that stands for itself or after a backslash. None after this quote.
#[tactic(auto, unfolding(crate::specs::Reading::character_at))]
fn character_at(quote: u8, text: &[u8]) -> Result<(Option<u8>, &[u8]), ReadError>
    ensures { Gives (λ x. (x.0, x.1.now)) result (character_at quote text.now) }
{
    let Some((byte, rest)) = text.split_first() else {
        return Err(refused(text, Expected::Character));
    };
    if *byte == quote {
        Ok((None, rest))
    } else if *byte == b'\\' {
        let (byte, rest) = escape_at(rest)?;
        Ok((Some(byte), rest))
    } else if is_printable(*byte) {
        Ok((Some(*byte), rest))
    } else {
        Err(refused(text, Expected::Character))
    }
}

/// A byte in digits. None after the quote.
#[tactic(auto, unfolding(crate::specs::Reading::digits_at))]
fn digits_at(text: &[u8]) -> Result<(Option<u8>, &[u8]), ReadError>
    ensures { Gives (λ x. (x.0, x.1.now)) result (digits_at text.now) }
{
    let start = after_blanks(text)?;
    match after_word(b"\"", start) {
        Some(rest) => Ok((None, rest)),
        None => {
            let (byte, rest) = byte_at(start)?;
            Ok((Some(byte), rest))
        }
    }
}

/// A byte between quotes. None after the last quote.
fn unit_at(quotes: Quotes, text: &[u8]) -> Result<(Option<u8>, &[u8]), ReadError>
    ensures { Gives (λ x. (x.0, x.1.now)) result (unit_at quotes text.now) }
{
    match quotes {
        Quotes::Single => character_at(b'\'', text),
        Quotes::Double => character_at(b'"', text),
        Quotes::Hexadecimal => digits_at(text),
    }
}

/// The bytes up to the last quote, and the text after it.
#[tactic(auto, unfolding(crate::specs::Reading::quoted_at))]
pub(crate) fn quoted_at(
    alloc: Global,
    quotes: Quotes,
    text: &[u8],
) -> Result<(Vec<u8>, &[u8]), ReadError>
    ensures { Gives (λ x. (x.0.items, x.1.now)) result (quoted_at quotes text.now) }
{
    let mut bytes = Vec::new(alloc);
    let mut rest = text;
    for _turn in 0..text.len() + 1 {
        let (unit, after) = unit_at(quotes, rest)?;
        rest = after;
        match unit {
            Some(byte) => bytes.push(byte)?,
            None => return Ok((bytes, rest)),
        }
    }
    Ok((bytes, rest))
}
