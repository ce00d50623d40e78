//! Texts that take the place of others.

ghost use Rattle.std.specs.Prelude.{◌≡◌, IfOk};
ghost use Rattle.fork_texts.specs.Putting.{merged, next_lines, next_text};

use crate::entry::Entry;
use crate::line::Line;
use std::alloc::{AllocError, Global};

/// Texts of which lines change some, and the lines after those.
#[derive(Drop)]
pub(crate) struct Merged<'a> {
    pub entries: Vec<Entry>,
    pub left: &'a [Line],
}

/// The text of the next line, if this is in an entry's place, and else the entry's own.
fn next_text<'a>(entry: &'a Entry, lines: &'a [Line]) -> &'a [u8]
    ensures { result.now ≡ next_text entry.entry.now lines.entry.now }
{
    match lines.first() {
        Some(line) if line.entry.is_at(entry) => line.entry.text.as_slice(),
        _ => entry.text.as_slice(),
    }
}

/// The lines after that.
fn next_lines<'a>(entry: &Entry, lines: &'a [Line]) -> &'a [Line]
    ensures { result.now ≡ next_lines entry.now lines.entry.now }
{
    match lines.split_first() {
        Some((line, others)) if line.entry.is_at(entry) => others,
        _ => lines,
    }
}

/// These texts with those of lines that are in the same places, and the lines that are left: they are in the order of
/// the texts. The only error is that the host has no memory.
pub(crate) fn merge<'a>(
    alloc: Global,
    entries: &[Entry],
    lines: &'a [Line],
) -> Result<Merged<'a>, AllocError>
    ensures entries { IfOk result (λ m. m.entries.items ≡ (merged entries.now lines.entry.now).entries) }
    ensures left { IfOk result (λ m. m.left.now ≡ (merged entries.now lines.entry.now).left) }
{
    let mut merged = Vec::new(alloc);
    let mut left = lines;
    for entry in entries {
        merged.push(entry.copy_with(alloc, next_text(entry, left))?)?;
        left = next_lines(entry, left);
    }
    Ok(Merged {
        entries: merged,
        left,
    })
}
