//! The texts of resources: strings that begin with their length, lists of them, and plain text.

ghost use Rattle.std.specs.Prelude.{◌≡◌, ◌-◌, IfOk, map, option_map};
ghost use Rattle.fork_list.specs.Strings.{front_text, first_string, lines_of, string_of, strings_from, strings_of};

use std::alloc::{AllocError, Global};

/// A string that bytes begin with, and the bytes after it.
#[derive(Clone, Copy, Debug)]
pub struct Front<'a> {
    pub text: &'a [u8],
    pub rest: &'a [u8],
}

/// The string that bytes begin with: a byte that says how long it is, and so many bytes (Pascal's strings). None where
/// the bytes end before it does.
pub fn first_string(bytes: &[u8]) -> Option<Front<'_>>
    ensures { option_map front_text result ≡ first_string bytes.now }
{
    let (count, bytes) = bytes.split_first()?;
    let count = *count as usize;
    if count > bytes.len() {
        return None;
    }
    let (text, rest) = bytes.split_at(count);
    Some(Front { text, rest })
}

/// The text of a resource 'STR ': the string that it begins with. None where the resource ends before it does.
pub fn string_of(resource: &[u8]) -> Option<&[u8]>
    ensures { option_map (λ text. text.now) result ≡ string_of resource.now }
{
    first_string(resource).map(|front| front.text)
}

/// The texts of a resource 'STR#': a number of two bytes, and so many strings. None where the resource ends before the
/// last does. The only error is that the host has no memory.
pub fn strings_of(alloc: Global, resource: &[u8]) -> Result<Option<Vec<&[u8]>>, AllocError>
    ensures { IfOk result (λ found. option_map (λ texts. map (λ text. text.now) texts.items) found ≡ strings_of resource.now) }
{
    let [high, low, rest @ ..] = resource else {
        return Ok(None);
    };
    strings_from(alloc, *high as usize * 256 + *low as usize, rest)
}

/// So many strings, one after the other.
fn strings_from<'a>(
    alloc: Global,
    count: usize,
    bytes: &'a [u8],
) -> Result<Option<Vec<&'a [u8]>>, AllocError>
    ensures { IfOk result (λ found. option_map (λ texts. map (λ text. text.now) texts.items) found ≡ strings_from count bytes.now) }
{
    let mut texts = Vec::new(alloc);
    let mut left = bytes;
    for _string in 0..count {
        let Some(front) = first_string(left) else {
            return Ok(None);
        };
        texts.push(front.text)?;
        left = front.rest;
    }
    Ok(Some(texts))
}

/// A text whose lines end as they do elsewhere: each carriage return is a line feed. The only error is that the host
/// has no memory.
pub fn lines_of(alloc: Global, text: &[u8]) -> Result<Vec<u8>, AllocError>
    ensures { IfOk result (λ lines. lines.items ≡ lines_of text.now) }
{
    text.iter()
        .map(|byte| if *byte == b'\r' { b'\n' } else { *byte })
        .collect(alloc)
}
