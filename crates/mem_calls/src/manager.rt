//! The Memory Manager, and what it shows of its zone.

use mac_base::block::{Block, Status};
use mac_base::error::{HostFull, OsErr};
use mac_base::handle::Handle;
use mac_base::zone_spec::{LARGEST_LIMIT, ZoneSpec};
use std::alloc::Global;
use std::marker::Model;
use zone_heap::Zone;

/// The Memory Manager with its zone. Contracts see the zone's shape and its heap. Only `create` takes host memory, and
/// can be refused it.
pub struct MemoryManager {
    pub(crate) zone: Zone,
}

impl Model for MemoryManager {
    ghost use Rattle.std.specs.Prelude.{◌≤◌};
    ghost use Rattle.mac_base.specs.ZoneState.{ZoneState};

    ghost Value = { ZoneState };

    ghost view = { λ m. m.zone };

    ghost invariant = { λ m. m.zone.shape.limit ≤ 0x4000_0000 };
}

impl Drop for MemoryManager {
    ghost use Rattle.std.specs.Prelude.{◌≡◌, []};

    /// The Memory Manager ends only when nothing of its zone is lent.
    fn drop(self)
        requires nothing_lent { self.heap.table.lent ≡ [] }
    {
        let MemoryManager { zone } = self;
        drop(zone);
    }
}

impl MemoryManager {
    ghost use Rattle.std.specs.Prelude.{◌≡◌, ◌+◌, ◌<◌, ◌≤◌, ◌∷◌, IfOk, IfErr, OnOk, [], length};
    ghost use Rattle.mac_base.specs.declared.error.OsErr.TheVariants.{MemLockedErr};
    ghost use Rattle.linked_zone.specs.Image.{IsImage};
    ghost use Rattle.std.specs.Borrow.{sem};
    ghost use Rattle.mac_base.specs.BlockStatus.{status_of};
    ghost use Rattle.mac_base.specs.HandleTable.{bytes_of};
    ghost use Rattle.mac_base.specs.Heap.{new_heap};
    ghost use Rattle.mac_base.specs.BlockReport.{report_at};
    ghost use Rattle.mac_base.specs.Sound.{Sound};
    ghost use Rattle.mac_base.specs.ZoneSizes.{shape_of};
    ghost use Rattle.mac_base.specs.ZoneState.{own_memory};
    ghost use Rattle.mac_base.specs.ZoneMap.{address_after};
    ghost use Rattle.mac_base.specs.Tests.{IsBlock, NotEmpty, NotLent};
    ghost use Rattle.mem_calls.specs.Testing.{Tests};
    ghost use Rattle.mem_calls.specs.WritingBack.{WritesBackContents};

    /// A new zone: a master block with 64 free slots, and the rest free. It takes all the memory that the zone will
    /// ever need.
    pub fn create(alloc: Global, spec: ZoneSpec) -> Result<MemoryManager, HostFull>
        ensures { IfOk result (λ memory. memory ≡ record { memory = own_memory memory.memory.region; shape = shape_of spec; heap = new_heap (shape_of spec) spec.size }) }
    {
        prove!(spec.limit() <= LARGEST_LIMIT);
        Ok(MemoryManager {
            zone: Zone::create(alloc, spec)?,
        })
    }

    /// How many bytes a handle has: none where it isn't live, or empty. One that is lent has those that it had.
    pub fn length_if_any(&self, handle: Handle) -> u32
        ensures { result ≡ length (bytes_of self.now.heap.table handle) }
    {
        self.zone.length_if_any(handle)
    }

    /// Whether a number is live, empty or lent.
    pub fn status(&self, block: u32) -> Status
        ensures { result ≡ status_of self.now.heap.table block }
    {
        if self.zone.linked().has_block(block) {
            if self.zone.linked().is_lent(block) {
                Status::Lent
            } else {
                Status::Full
            }
        } else if self.zone.linked().is_live(Handle::new(block)) {
            Status::Empty
        } else {
            Status::NotLive
        }
    }

    /// Tests that a number is a live handle or pointer, has a block and isn't lent: nilHandleErr where it is 0 or an
    /// empty handle, memWZErr where it is another number that isn't live, memLockedErr where it is lent.
    pub fn test_block_here(&self, block: u32) -> Result<(), OsErr>
        ensures refusal { Tests self.now (IsBlock block ∷ NotEmpty block ∷ NotLent block ∷ []) result }
        ensures full { OnOk result (status_of self.now.heap.table block ≡ Status.Full) }
    {
        if block == 0 {
            return Err(OsErr::NilHandleErr);
        }
        match self.status(block) {
            Status::NotLive => Err(OsErr::MemWzErr),
            Status::Empty => Err(OsErr::NilHandleErr),
            Status::Lent => Err(OsErr::MemLockedErr),
            Status::Full => Ok(()),
        }
    }

    /// The bytes of a block that is live, not empty and not lent.
    pub fn contents(&self, block: u32) -> &[u8]
        requires { status_of self.now.heap.table block ≡ Status.Full }
        ensures { result.now ≡ bytes_of self.now.heap.table block }
    {
        self.zone.linked().contents(block)
    }

    /// The bytes of a block that is live, not empty and not lent, to be written.
    pub fn contents_mut(&mut self, block: u32) -> &mut [u8]
        requires { status_of self.old.heap.table block ≡ Status.Full }
        ensures* writes_back { sem 𝓛 (WritesBackContents self.entry block result) }
        ensures value { result.now ≡ bytes_of self.old.heap.table block }
    {
        self.zone.contents_mut(block)
    }

    /// The address of the zone's first block header. What the zone shows is a sound heap, and its addresses have 32
    /// bits.
    pub fn first_block(&self) -> u32
        ensures address { result ≡ address_after self.now.shape [] }
        ensures sound { Sound self.now.shape self.now.heap }
        ensures reach { self.now.shape.base + self.now.shape.limit ≤ 0xFFFF_FFFF }
    {
        self.zone.first_block()
    }

    /// The block whose header is at this address, if one is.
    pub fn entry(&self, at: u32) -> Option<Block>
        ensures { result ≡ report_at self.now.shape self.now.heap at }
    {
        self.zone.linked().entry(at)
    }

    /// The bytes of the zone, from its start to the end of its last block: its header, and its blocks with their
    /// headers, master pointers and contents. memLockedErr where a block is lent, whose bytes aren't the zone's.
    pub fn image(&self) -> Result<&[u8], OsErr>
        ensures image { IfOk result (λ image. IsImage self.now image.now) }
        ensures nothing_lent { IfOk result (λ image. length self.now.heap.table.lent ≡ 0) }
        ensures refusal { IfErr result (λ code. (code ≡ MemLockedErr) × (0 < length self.now.heap.table.lent)) }
    {
        if self.zone.lent_count() == 0 {
            Ok(self.zone.linked().image())
        } else {
            Err(OsErr::MemLockedErr)
        }
    }
}
