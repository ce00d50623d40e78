//! The path of a folder or a file in an image, as it is typed.

ghost use Rattle.std.specs.Prelude.{◌≡◌, ◌+◌, ◌≤◌, ◌<◌, ◌==◌, Ok, drop, length, map, option_map, position, IfOk, IfErr, IfSome, MatchResult};
ghost use Rattle.fork_list.specs.Roman.{roman_text};
ghost use Rattle.image_paths.specs.Names.{byte_of, escaped_byte, first_byte, name_from};
ghost use Rattle.image_paths.specs.Paths.{IsPath, Refuses, StopsFor, asks_folder, end_of, items_of, name_in, names_in};

use fork_list::bytes_of;
use std::alloc::{AllocError, AllocFailed, Global};
use thiserror::Error;

/// Why a text is no path in an image. Each but the last has the number of the name that it is of, from 1 on.
#[derive(Clone, Copy, Debug, PartialEq, Eq, Error)]
pub enum PathFault {
    /// It has no bytes.
    #[error("name {0} of the path is empty")]
    Empty(usize),
    /// MacRoman lacks one of its characters.
    #[error("name {0} of the path has a character that a Macintosh doesn't have")]
    NotRoman(usize),
    /// A backslash in it is before something else than itself, a double quote, or `x` and two hexadecimal digits.
    #[error("name {0} of the path has a backslash that isn't before x and two digits")]
    Escape(usize),
    /// It has more than 255 bytes.
    #[error("name {0} of the path has more than 255 characters")]
    TooLong(usize),
    /// The host has no memory.
    #[error("the host has no memory")]
    HostFull,
}

impl From<AllocError> for PathFault {
    ghost use Rattle.std.specs.Prelude.{◌≡◌};
    ghost use Rattle.image_paths.specs.declared.path.PathFault.TheVariants.{HostFull};

    ghost from_gives = { λ _ fault. fault ≡ HostFull };

    fn from(_: AllocError) -> PathFault {
        PathFault::HostFull
    }
}

impl<T: Drop> From<AllocFailed<T>> for PathFault {
    ghost use Rattle.std.specs.Prelude.{◌≡◌};
    ghost use Rattle.image_paths.specs.declared.path.PathFault.TheVariants.{HostFull};

    ghost from_gives = { λ _ fault. fault ≡ HostFull };

    fn from(_: AllocFailed<T>) -> PathFault {
        PathFault::HostFull
    }
}

/// A path in an image: the names on the way from the top to a folder or a file, in MacRoman, and whether it has to be a
/// folder. A path without names is the top.
#[derive(Debug, Drop)]
pub struct ImagePath {
    pub names: Vec<Vec<u8>>,
    pub is_folder: bool,
}

/// The most bytes of a name.
const LONGEST: usize = 255;

/// The byte that two hexadecimal digits are.
fn byte_of(high: u8, low: u8) -> Option<u8>
    ensures { result ≡ byte_of high low }
{
    let high = char::from(high).to_digit(16)?;
    let low = char::from(low).to_digit(16)?;
    Some((high * 16 + low) as u8)
}

/// The byte that a text after a backslash names, and what is after both.
fn escaped_byte(text: &[u8]) -> Option<(u8, &[u8])>
    ensures { option_map (λ first. (first.0, first.1.now)) result ≡ escaped_byte text.now }
{
    match text {
        [b'x', high, low, rest @ ..] => Some((byte_of(*high, *low)?, rest)),
        [byte @ (b'\\' | b'"'), rest @ ..] => Some((*byte, rest)),
        _ => None,
    }
}

/// The first byte of a name in a text that has some, and the text after it.
fn first_byte(text: &[u8]) -> Option<(u8, &[u8])>
    ensures { option_map (λ first. (first.0, first.1.now)) result ≡ first_byte text.now }
{
    match text {
        [b'\\', rest @ ..] => escaped_byte(rest),
        [b':', rest @ ..] => Some((b'/', rest)),
        [byte, rest @ ..] => Some((*byte, rest)),
        [] => None,
    }
}

/// The name that a text is.
fn name_of(alloc: Global, text: &[u8]) -> Result<Option<Vec<u8>>, AllocError>
    ensures { IfOk result (λ found. option_map (λ name. name.items) found ≡ name_from (length text.now) text.now) }
{
    let mut rest = text;
    let mut name = Vec::new(alloc);
    for step in 0..text.len() {
        if rest.is_empty() {
            return Ok(Some(name));
        }
        let Some((byte, after)) = first_byte(rest) else {
            return Ok(None);
        };
        name.push(byte)?;
        rest = after;
    }
    Ok(Some(name))
}

/// The name of this number that a text is, if it is one.
fn checked_name(alloc: Global, number: usize, text: &[u8]) -> Result<Vec<u8>, PathFault>
    ensures { MatchResult result (λ name. name_in number text.now ≡ Ok name.items) (StopsFor (name_in number text.now)) }
{
    let Some(name) = name_of(alloc, text)? else {
        return Err(PathFault::Escape(number));
    };
    if name.is_empty() {
        return Err(PathFault::Empty(number));
    }
    if name.len() > LONGEST {
        return Err(PathFault::TooLong(number));
    }
    Ok(name)
}

/// Where the first slash is.
fn find_slash(text: &[u8]) -> Option<usize>
    ensures value { result ≡ position (λ byte. byte == 47) text.now }
    ensures inside { IfSome result (λ place. place < length text.now) }
{
    text.iter().position(|byte| *byte == b'/')
}

/// Where a name ends in a text: at the first slash, or with the text.
fn end_of(text: &[u8]) -> usize
    ensures value { result ≡ end_of text.now }
    ensures inside { result ≤ length text.now }
{
    match find_slash(text) {
        Some(end) => end,
        None => text.len(),
    }
}

/// The text after a name that ends at a place, and after the slash there.
fn after_name(text: &[u8], end: usize) -> &[u8]
    requires { end ≤ length text.now }
    ensures { result.now ≡ drop (end + 1) text.now }
{
    if end < text.len() {
        &text[end + 1..]
    } else {
        &text[end..]
    }
}

/// The names in a text in MacRoman.
fn names_in(alloc: Global, text: &[u8]) -> Result<Vec<Vec<u8>>, PathFault>
    ensures { MatchResult result (λ names. names_in text.now ≡ Ok (map items_of names.items)) (StopsFor (names_in text.now)) }
{
    let mut rest = text;
    let mut names = Vec::new(alloc);
    for step in 0..text.len() {
        if rest.is_empty() {
            return Ok(names);
        }
        let end = end_of(rest);
        let name = checked_name(alloc, step + 1, &rest[..end])?;
        names.push(name)?;
        rest = after_name(rest, end);
    }
    Ok(names)
}

/// The number of the first name in a text with a character that MacRoman lacks.
fn foreign_name(text: &str) -> usize {
    let mut number: usize = 1;
    for character in text.chars() {
        if fork_list::byte_of(character).is_none() {
            return number;
        }
        if character == '/' {
            number = number.saturating_add(1);
        }
    }
    number
}

/// Whether a text asks for a folder.
fn asks_folder(text: &[u8]) -> bool
    ensures { result ≡ asks_folder text.now }
{
    matches!(text, [] | [.., b'/'])
}

impl ImagePath {
    /// The path that a text after the colon of an image names. `/` is between names, and may be after the last one: then it
    /// has to be a folder. A `:` in a name is the Macintosh's `/`, `\xHH` is any byte, and `\\` a backslash.
    #[tactic(auto, using(crate::proofs::Reading::refuses))]
    pub fn parse(alloc: Global, text: &str) -> Result<ImagePath, PathFault>
        ensures path { IfOk result (IsPath text.now) }
        ensures refused { IfErr result (Refuses text.now) }
    {
        let Some(bytes) = bytes_of(alloc, text)? else {
            return Err(PathFault::NotRoman(foreign_name(text)));
        };
        Ok(ImagePath {
            names: names_in(alloc, &bytes)?,
            is_folder: asks_folder(&bytes),
        })
    }
}
