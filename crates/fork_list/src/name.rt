//! The words for a name.

ghost use Rattle.std.specs.Prelude.{◌≡◌, ◌≢◌, ◌↔◌, ℕ, ◌<◌, IfNone, IfOk, IfSome, Some, List, [], ◌∷◌, ◌++◌, length, option_map};
ghost use Rattle.fork_list.specs.Names.{NamesBytes, NamesFirst, ShowsName, Unquotes};

use crate::kind::byte_of;
use std::alloc::{AllocError, Global};

/// The text between double quotes, or all of it where none are around it.
fn without_quotes(text: &[u8]) -> &[u8]
    ensures between { (inner : List ℕ) → text.now ≡ 34 ∷ (inner ++ 34 ∷ []) → result.now ≡ inner }
    ensures bare { ((inner : List ℕ) → text.now ≢ 34 ∷ (inner ++ 34 ∷ [])) → result.now ≡ text.now }
    ensures unquotes { Unquotes text.now result.now }
{
    match text {
        [b'"', inner @ .., b'"'] => inner,
        _ => text,
    }
}

/// The byte that a text after a backslash names, and what is after both.
fn escaped_byte(text: &[u8]) -> Option<(u8, &[u8])>
    ensures named { IfSome result (λ first. NamesFirst (92 ∷ text.now) first.0 first.1.now) }
    ensures none { IfNone result ((byte : ℕ) → (rest : List ℕ) → ¬ NamesFirst (92 ∷ text.now) byte rest) }
{
    match text {
        [b'x', high, low, rest @ ..] => Some((byte_of(*high, *low)?, rest)),
        [byte @ (b'\\' | b'"'), rest @ ..] => Some((*byte, rest)),
        _ => None,
    }
}

/// The first byte of a name in a text that has some, and the text after it.
fn first_byte(text: &[u8]) -> Option<(u8, &[u8])>
    ensures named { IfSome result (λ first. NamesFirst text.now first.0 first.1.now) }
    ensures none { IfNone result ((byte : ℕ) → (rest : List ℕ) → ¬ NamesFirst text.now byte rest) }
{
    match text {
        [b'\\', rest @ ..] => escaped_byte(rest),
        [byte, rest @ ..] => Some((*byte, rest)),
        [] => None,
    }
}

/// The name that a text without quotes shows.
fn bare_name(alloc: Global, text: &[u8]) -> Result<Option<Vec<u8>>, AllocError>
    ensures { IfOk result (λ found. (name : List ℕ) → (option_map (λ bytes. bytes.items) found ≡ Some name) ↔ NamesBytes text.now name) }
{
    let mut rest = text;
    let mut name = Vec::new(alloc);
    while !rest.is_empty() {
        let Some((byte, after)) = first_byte(rest) else {
            return Ok(None);
        };
        name.push(byte)?;
        rest = after;
    }
    Ok(Some(name))
}

/// The name that a text in MacRoman shows, as a list of resources shows it, with double quotes or without. None where a
/// backslash is before something else than itself, a quote, or `x` and two hexadecimal digits.
pub fn name_of(alloc: Global, text: &[u8]) -> Result<Option<Vec<u8>>, AllocError>
    ensures { IfOk result (λ found. (name : List ℕ) → (option_map (λ bytes. bytes.items) found ≡ Some name) ↔ ShowsName text.now name) }
{
    bare_name(alloc, without_quotes(text))
}
