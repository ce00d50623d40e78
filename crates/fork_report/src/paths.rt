//! Lines with the name of a file before each.

ghost use Rattle.std.specs.Prelude.{◌≡◌, ◌++◌, ◌∷◌, [], if◌then◌else◌, IfOk, OnOk};
ghost use Rattle.fork_report.specs.Paths.{each_line};

use std::alloc::{AllocError, Global};

/// Adds a byte of a text, with these bytes before it where a line begins.
fn push_byte(all: &mut Vec<u8>, front: &[u8], begins: bool, byte: u8) -> Result<(), AllocError>
    ensures { OnOk result (all.new.items ≡ all.old.items ++ ((if begins then front.now else []) ++ byte ∷ [])) }
{
    if begins {
        all.extend_from_slice(front)?;
    }
    all.push(byte)?;
    Ok(())
}

/// A text with these bytes before each of its lines.
pub fn each_line(alloc: Global, front: &[u8], text: &[u8]) -> Result<Vec<u8>, AllocError>
    ensures { IfOk result (λ all. all.items ≡ each_line front.now text.now) }
{
    let mut all = Vec::new(alloc);
    let mut begins = true;
    for byte in text {
        push_byte(&mut all, front, begins, *byte)?;
        begins = *byte == b'\n';
    }
    Ok(all)
}
