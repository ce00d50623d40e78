//! Text of many characters.

ghost use Rattle.std.specs.Prelude.{◌≡◌, ℕ, List, IfOk, IfSome, IfNone, string_bytes};
ghost use Rattle.fork_list.specs.Roman.{AreBytes, roman_text};

use crate::roman::{byte_of, char_of};
use std::alloc::{AllocError, Global};

/// The text that bytes are, in UTF-8. The only error is that the host has no memory.
pub fn text_of(alloc: Global, bytes: &[u8]) -> Result<String, AllocError>
    ensures { IfOk result (λ text. string_bytes text ≡ roman_text bytes.now) }
{
    let mut text = String::new(alloc);
    for byte in bytes {
        text.push(char_of(*byte))?;
    }
    Ok(text)
}

/// The bytes of a text, or None where MacRoman lacks one of its characters. The only error is that the host has no
/// memory.
pub fn bytes_of(alloc: Global, text: &str) -> Result<Option<Vec<u8>>, AllocError>
    ensures bytes { IfOk result (λ found. IfSome found (λ bytes. roman_text bytes.items ≡ text.now)) }
    ensures none { IfOk result (λ found. IfNone found ((bytes : List ℕ) → AreBytes bytes → ¬ (roman_text bytes ≡ text.now))) }
{
    let mut bytes = Vec::new(alloc);
    for character in text.chars() {
        let Some(byte) = byte_of(character) else {
            return Ok(None);
        };
        bytes.push(byte)?;
    }
    Ok(Some(bytes))
}
