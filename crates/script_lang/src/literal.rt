//! How numbers, bytes and types are written.

ghost use Rattle.std.specs.Prelude.{◌≡◌, ◌<◌, ◌*◌, true, length};
ghost use Rattle.std.specs.Fmt.{digit_glyph};
ghost use Rattle.std.specs.List.{list_all};
ghost use Rattle.script_lang.specs.Adding.{Adds};
ghost use Rattle.script_lang.specs.Text as texts;

use itoa::{Buffer, Integer};
use mac_base::error::HostFull;
use mac_base::resource::ResType;

/// Adds a number in decimal, with a minus where it is negative.
pub(crate) fn push_number<I: Integer>(text: &mut Vec<u8>, number: I) -> Result<(), HostFull>
    ensures { Adds text.old text.new result (I.text number) }
{
    let mut buffer = Buffer::new();
    text.extend_from_slice(buffer.format(number).as_bytes())?;
    Ok(())
}

/// A digit below 16, in upper case.
fn hexadecimal_digit(digit: u8) -> u8
    requires { digit < 16 }
    ensures { result ≡ digit_glyph true digit }
{
    if digit < 10 {
        b'0' + digit
    } else {
        b'A' - 10 + digit
    }
}

/// Writes bytes as upper-case hexadecimal digits, two for each, over other bytes.
fn write_digits(digits: &mut [u8], bytes: &[u8])
    requires { length digits.old ≡ 2 * length bytes.now }
    ensures { digits.new ≡ texts.in_digits bytes.now }
{
    for (index, byte) in bytes.iter().enumerate() {
        digits[2 * index] = hexadecimal_digit(*byte / 16);
        digits[2 * index + 1] = hexadecimal_digit(*byte % 16);
    }
}

/// Adds bytes as upper-case hexadecimal digits, two for each.
#[tactic(auto, using(crate::proofs::Lengths::digits_long))]
fn push_digits(text: &mut Vec<u8>, bytes: &[u8]) -> Result<(), HostFull>
    ensures { Adds text.old text.new result (texts.in_digits bytes.now) }
{
    let start = text.len();
    let count = bytes.len().checked_mul(2).ok_or(HostFull)?;
    text.reserve(count)?;
    text.resize(start + count, 0)?;
    write_digits(&mut text[start..], bytes);
    Ok(())
}

/// Adds a handle or an address: `$` and eight hexadecimal digits.
#[tactic(auto, unfolding(crate::specs::Text::address))]
pub(crate) fn push_address(text: &mut Vec<u8>, address: u32) -> Result<(), HostFull>
    ensures { Adds text.old text.new result (texts.address address) }
{
    let mut digits = [0u8; 8];
    write_digits(&mut digits, &address.to_be_bytes());
    text.push(b'$')?;
    text.extend_from_slice(&digits)?;
    Ok(())
}

/// Whether all bytes stand for themselves between these quotes. Each byte takes a largest and an `or`, so that a
/// compiler can do sixteen at once.
fn are_plain(quote: u8, bytes: &[u8]) -> bool
    ensures { result ≡ list_all (texts.is_plain quote) bytes.now }
{
    let mut most = 0;
    let mut has_quote = false;
    for byte in bytes {
        most = byte.wrapping_sub(b' ').max(most);
        has_quote |= *byte == quote;
    }
    most <= b'~' - b' ' && !has_quote
}

/// Adds bytes between these quotes where each can be there, else as `$"`, hexadecimal digits and `"`.
fn push_quoted(text: &mut Vec<u8>, quote: u8, bytes: &[u8]) -> Result<(), HostFull>
    ensures { Adds text.old text.new result (texts.between quote bytes.now) }
{
    if are_plain(quote, bytes) {
        text.push(quote)?;
        text.extend_from_slice(bytes)?;
        text.push(quote)?;
    } else {
        text.extend_from_slice(b"$\"")?;
        push_digits(text, bytes)?;
        text.push(b'"')?;
    }
    Ok(())
}

/// Adds bytes in double quotes.
pub(crate) fn push_bytes(text: &mut Vec<u8>, bytes: &[u8]) -> Result<(), HostFull>
    ensures { Adds text.old text.new result (texts.bytes_text bytes.now) }
{
    push_quoted(text, b'"', bytes)
}

/// Adds a type in single quotes.
pub(crate) fn push_type(text: &mut Vec<u8>, kind: ResType) -> Result<(), HostFull>
    ensures { Adds text.old text.new result (texts.type_text kind) }
{
    push_quoted(text, b'\'', &kind.bytes())
}
