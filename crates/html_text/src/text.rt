//! Texts between tags, and in the values of attributes.

ghost use Rattle.std.specs.Prelude.{◌≡◌, ◌++◌, OnOk};
ghost use Rattle.html_text.specs.Texts.{escaped, html_text};

use std::alloc::AllocError;

/// Adds a byte of a text: of `&`, `<`, `>` and both quotes a reference to the character.
fn push_escaped(page: &mut Vec<u8>, byte: u8) -> Result<(), AllocError>
    ensures { OnOk result (page.new.items ≡ page.old.items ++ escaped byte) }
{
    match byte {
        b'&' => page.extend_from_slice(b"&amp;"),
        b'<' => page.extend_from_slice(b"&lt;"),
        b'>' => page.extend_from_slice(b"&gt;"),
        b'"' => page.extend_from_slice(b"&quot;"),
        b'\'' => page.extend_from_slice(b"&apos;"),
        _ => page.extend_from_slice(&[byte]),
    }
}

/// Adds a text in UTF-8, between tags or between the double quotes of a value. An error comes where the host has no
/// memory: a part of the text may have been added then.
pub fn push_text(page: &mut Vec<u8>, text: &[u8]) -> Result<(), AllocError>
    ensures { OnOk result (page.new.items ≡ page.old.items ++ html_text text.now) }
{
    for byte in text {
        push_escaped(page, *byte)?;
    }
    Ok(())
}
