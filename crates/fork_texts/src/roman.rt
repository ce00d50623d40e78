//! A text in MacRoman.

ghost use Rattle.std.specs.Prelude.{◌≡◌, ℕ, ◌∷◌, ◌<◌, List, true, false, IfOk, take, length};
ghost use Rattle.fork_texts.specs.Romans.{IsRomanOf};

use fork_list::byte_of;
use std::alloc::{AllocError, Global};

/// A text in MacRoman, up to the first letter that it lacks.
#[derive(Drop)]
pub(crate) struct Roman {
    pub bytes: Vec<u8>,
    /// Whether it is the whole text.
    pub is_whole: bool,
}

/// The bytes of a text, up to the first letter that MacRoman lacks. The only error is that the host has no memory.
pub(crate) fn roman_of(alloc: Global, text: &str) -> Result<Roman, AllocError>
    ensures { IfOk result (λ roman. IsRomanOf text.now roman.is_whole roman.bytes.items) }
{
    let mut bytes = Vec::new(alloc);
    for character in text.chars() {
        let Some(byte) = byte_of(character) else {
            return Ok(Roman {
                bytes,
                is_whole: false,
            });
        };
        bytes.push(byte)?;
    }
    Ok(Roman {
        bytes,
        is_whole: true,
    })
}
