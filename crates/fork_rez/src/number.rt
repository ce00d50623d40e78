//! Numbers in digits.

ghost use Rattle.std.specs.Prelude.{◌≡◌, ◌≤◌, IfOk};
ghost use Rattle.fork_rez.specs.Reading.{Gives, id_at, is_digit, number_at, number_from};

use crate::blanks::{after_blanks, after_word};
use crate::fault::{Expected, ReadError, refused};

/// Whether a byte is a decimal digit.
fn is_digit(byte: u8) -> bool
    ensures { result ≡ is_digit byte }
{
    b'0' <= byte && byte <= b'9'
}

/// The number that digits go on with, up to a limit.
fn number_from(limit: u32, text: &[u8]) -> Result<(u32, &[u8]), ReadError>
    requires { limit ≤ 32768 }
    ensures number { Gives (λ x. (x.0, x.1.now)) result (number_from limit 0 text.now) }
    ensures within { IfOk result (λ x. x.0 ≤ limit) }
{
    let mut number = 0;
    let mut rest = text;
    while let Some((byte, after)) = rest.split_first() {
        if !is_digit(*byte) {
            return Ok((number, rest));
        }
        let next = 10 * number + (*byte - b'0') as u32;
        if next > limit {
            return Err(refused(rest, Expected::Id));
        }
        number = next;
        rest = after;
    }
    Ok((number, rest))
}

/// A number in digits, up to a limit.
#[tactic(auto, unfolding(crate::specs::Reading::number_at))]
fn number_at(limit: u32, text: &[u8]) -> Result<(u32, &[u8]), ReadError>
    requires { limit ≤ 32768 }
    ensures number { Gives (λ x. (x.0, x.1.now)) result (number_at limit text.now) }
    ensures within { IfOk result (λ x. x.0 ≤ limit) }
{
    match text.first() {
        Some(byte) if is_digit(*byte) => number_from(limit, text),
        _ => Err(refused(text, Expected::Id)),
    }
}

/// An id.
#[tactic(auto, unfolding(crate::specs::Reading::id_at))]
pub(crate) fn id_at(text: &[u8]) -> Result<(i16, &[u8]), ReadError>
    ensures { Gives (λ x. (x.0, x.1.now)) result (id_at text.now) }
{
    let start = after_blanks(text)?;
    match after_word(b"-", start) {
        Some(digits) => {
            let (number, rest) = number_at(32768, digits)?;
            Ok((-(number as i32) as i16, rest))
        }
        None => {
            let (number, rest) = number_at(32767, start)?;
            Ok((number as i16, rest))
        }
    }
}
