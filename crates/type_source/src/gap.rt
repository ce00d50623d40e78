//! What is between tokens.

ghost use Rattle.std.specs.Prelude.{◌≡◌, ◌∷◌, ◌==◌, option_map, IfOk, IfSome};
ghost use Rattle.type_source.specs.Tokens.{Gap, GapPart, after_star, begins};

use crate::fault::{Expected, ReadError, refused};
use crate::run::{Run, is_blank};

/// The text after this byte, if it begins with it.
pub(crate) fn after_byte(byte: u8, text: &[u8]) -> Option<&[u8]>
    ensures { IfSome result (λ rest. text.now ≡ byte ∷ rest.now) }
{
    match text.split_first() {
        Some((first, rest)) if *first == byte => Some(rest),
        _ => None,
    }
}

/// Whether a text begins with this byte.
fn begins(byte: u8, text: &[u8]) -> bool
    ensures { result ≡ begins (λ first. first == byte) text.now }
{
    match text.split_first() {
        Some((first, _)) => *first == byte,
        None => false,
    }
}

/// The text after the first `*/`.
fn after_star(text: &[u8]) -> Option<&[u8]>
    ensures { option_map (λ rest. rest.now) result ≡ after_star text.now }
{
    let mut rest = text;
    while let Some((first, after)) = rest.split_first() {
        if *first == b'*' && begins(b'/', after) {
            return Some(&after[1..]);
        }
        rest = after;
    }
    None
}

/// The text after a comment, if it begins with one. An error is that the comment has no end.
fn after_comment(text: &[u8]) -> Result<Option<&[u8]>, ReadError>
    ensures { IfOk result (λ found. IfSome found (λ rest. GapPart text.now rest.now)) }
{
    let Some(slash) = after_byte(b'/', text) else {
        return Ok(None);
    };
    if let Some(inner) = after_byte(b'*', slash) {
        return match after_star(inner) {
            Some(rest) => Ok(Some(rest)),
            None => Err(refused(text, Expected::CommentEnd)),
        };
    }
    match after_byte(b'/', slash) {
        Some(inner) => Ok(Some(Run::Line.split(inner).1)),
        None => Ok(None),
    }
}

/// The text after a blank or a comment, if it begins with one. An error is that the comment has no end.
fn after_part(text: &[u8]) -> Result<Option<&[u8]>, ReadError>
    ensures { IfOk result (λ found. IfSome found (λ rest. GapPart text.now rest.now)) }
{
    match text.split_first() {
        Some((first, rest)) if is_blank(*first) => Ok(Some(rest)),
        _ => after_comment(text),
    }
}

/// The text after all blanks and comments that it begins with.
pub(crate) fn after_gap(text: &[u8]) -> Result<&[u8], ReadError>
    ensures { IfOk result (λ rest. Gap text.now rest.now) }
{
    let mut rest = text;
    for _turn in 0..text.len() {
        match after_part(rest)? {
            Some(after) => rest = after,
            None => return Ok(rest),
        }
    }
    Ok(rest)
}
