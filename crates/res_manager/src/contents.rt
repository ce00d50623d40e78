//! The bytes of handles, for an update.

ghost use Rattle.std.specs.Prelude.{◌≡◌, ◌≤◌, length, IsFalse};
ghost use Rattle.fork_bytes.specs.Fork.{max_fork};
ghost use Rattle.mac_base.specs.HandleTable.{bytes_of, is_lent};
ghost use Rattle.res_manager.specs.Patching.{live_alone};

use mac_base::block::Status;
use mac_base::handle::Handle;
use mem_calls::MemoryManager;
use res_update::contents::Contents;
use std::marker::Model;

/// Where the bytes of handles are.
#[derive(Drop)]
enum Source<'a> {
    /// In the blocks of a zone.
    Zone(&'a MemoryManager),
    /// One handle has these, and no other is live.
    Alone(Handle, &'a [u8]),
}

/// The bytes of handles, of which a contract sees the handle table. They have one type, so that an update is compiled
/// once.
#[derive(Drop)]
pub(crate) struct After<'a> {
    source: Source<'a>,
}

impl<'a> Model for After<'a> {
    ghost use Rattle.mac_base.specs.HandleTable.{HandleTable};
    ghost use Rattle.res_manager.specs.Contents.{is_small, table_of};

    ghost Value = { HandleTable };

    ghost view = { λ b. table_of b.source };

    ghost invariant = { λ b. is_small b.source };
}

impl<'a> After<'a> {
    /// The bytes of the handles of this zone.
    pub(crate) fn zone(memory: &'a MemoryManager) -> After<'a>
        ensures { result ≡ memory.now.heap.table }
    {
        After {
            source: Source::Zone(memory),
        }
    }

    /// These bytes, for the row with a handle.
    pub(crate) fn alone(handle: Handle, bytes: &'a [u8]) -> After<'a>
        requires { length bytes.now ≤ max_fork }
        ensures { result ≡ live_alone handle bytes.now }
    {
        After {
            source: Source::Alone(handle, bytes),
        }
    }
}

/// The bytes of a handle of a zone that isn't lent there.
fn bytes_in(memory: &MemoryManager, handle: Handle) -> &[u8]
    requires { IsFalse (is_lent memory.now.heap.table handle) }
    ensures { result.now ≡ bytes_of memory.now.heap.table handle }
{
    let number = handle.number();
    match memory.status(number) {
        Status::Full => memory.contents(number),
        Status::Lent | Status::Empty | Status::NotLive => &[],
    }
}

impl<'a> Contents for After<'a> {
    ghost table = { λ table. table };

    fn bytes(&self, handle: Handle) -> &[u8] {
        match self.source {
            Source::Zone(memory) => bytes_in(memory, handle),
            Source::Alone(own, bytes) if own == handle => bytes,
            Source::Alone(..) => &[],
        }
    }

    fn length(&self, handle: Handle) -> u32 {
        match self.source {
            Source::Zone(memory) => memory.length_if_any(handle),
            Source::Alone(own, bytes) if own == handle => bytes.len() as u32,
            Source::Alone(..) => 0,
        }
    }
}
