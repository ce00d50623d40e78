//! The palette: a locked block that is made before a trace is replayed, and that the trace knows nothing of.

ghost use Rattle.std.specs.Prelude.{◌≡◌, ◌==◌, [], IfOk, IsTrue};
ghost use Rattle.std.specs.List.{list_all};
ghost use Rattle.mac_base.specs.HandleTable.{bytes_of, is_locked};
ghost use Rattle.paint_trace.specs.Shown.{is_grey, palette_text};

use crate::procedure::Procedure;
use mac_base::error::OsErr;
use mac_base::handle::Handle;
use mem_calls::MemoryManager;

/// How many bytes it has: red, green and blue of 16 colours.
const PALETTE_SIZE: u32 = 48;

/// What each of them is: all colours are the same grey.
const GREY: u8 = 0x80;

/// The locked handle of a new palette.
pub(crate) fn new_palette(memory: &mut MemoryManager) -> Result<Handle, OsErr>
    requires nothing_lent { memory.old.heap.table.lent ≡ [] }
    ensures nothing_lent { memory.new.heap.table.lent ≡ [] }
    ensures locked { IfOk result (λ palette. IsTrue (is_locked memory.new.heap.table palette)) }
{
    let palette = memory.new_handle(PALETTE_SIZE, &mut Procedure::without_cushion())?;
    memory.hlock(palette)?;
    memory.contents_mut(palette.number()).fill(GREY);
    Ok(palette)
}

/// Whether bytes are those of a palette in which all colours are the same grey.
fn is_grey(bytes: &[u8]) -> bool
    ensures { result ≡ is_grey bytes.now }
{
    bytes.len() == PALETTE_SIZE as usize && are_grey(bytes)
}

/// Whether all bytes are the same grey.
fn are_grey(bytes: &[u8]) -> bool
    ensures { result ≡ list_all (λ byte. byte == 128) bytes.now }
{
    bytes.iter().all(|byte| *byte == GREY)
}

/// What there is to see of a palette. No test is made whether it is still there: a locked handle has its block.
pub(crate) fn palette_shown(memory: &MemoryManager, palette: Handle) -> &'static str
    requires nothing_lent { memory.now.heap.table.lent ≡ [] }
    requires locked { IsTrue (is_locked memory.now.heap.table palette) }
    ensures { result.now ≡ palette_text (bytes_of memory.now.heap.table palette) }
{
    if is_grey(memory.contents(palette.number())) {
        "the palette is as it was"
    } else {
        "the palette has changed"
    }
}
