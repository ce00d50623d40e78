//! A zone's structure, its header and those of its blocks, compared with other bytes and written to them.

ghost use Rattle.std.specs.Prelude.{◌≡◌, ℕ, ◌+◌, ◌-◌, ◌≤◌, ◌↔◌, length, slice_index, IsTrue};
ghost use Rattle.mac_base.specs.HeadKind.{zone_header};
ghost use Rattle.raw_region.specs.Bytes.{written};
ghost use Rattle.block_bytes.specs.Finding.{SplitAt};
ghost use Rattle.block_bytes.specs.Layout.{BlockAt, image_of, size_of};
ghost use Rattle.block_bytes.specs.Structure.{AreWritten, Compares, EachMaster, HasHead, HasStructure, InHeader, InMaster, begun_before, own_bytes};

use crate::blocks::Blocks;
use crate::memory::write_at;
use mac_base::size::ZONE_HEADER;

/// How block headers compare with those among other bytes, up to the next master block.
#[derive(Clone, Copy, Debug, PartialEq, Eq)]
pub enum Compared {
    /// One of them differs.
    Differ,
    /// They agree up to that of the next master block, which is at this address.
    NextMaster(u32),
    /// They agree up to the end of the zone, and no master block comes.
    AllAgree,
}

impl Blocks {
    /// Whether bytes are as many as the zone's, and the zone's header is at their front.
    pub fn has_head(&self, bytes: &[u8]) -> bool
        ensures { IsTrue result ↔ HasHead self.now bytes.now }
    {
        bytes.len() == self.memory.len() && self.memory.has_zone_head(bytes)
    }

    /// Compares the headers of the blocks from an address on with those among as many bytes as the zone has.
    pub fn compare_from(&self, bytes: &[u8], from: u32) -> Compared
        requires whole { length bytes.now ≡ length (image_of self.now) }
        requires split { SplitAt self.now from }
        ensures { (s : SplitAt self.now from) → Compares self.now bytes.now (from - self.now.base) s.after result }
    {
        self.compare_until(bytes, from, self.end())
    }

    /// Compares the headers of the blocks from an address on that begin before another with those among as many bytes
    /// as the zone has.
    pub fn compare_until(&self, bytes: &[u8], from: u32, end: u32) -> Compared
        requires whole { length bytes.now ≡ length (image_of self.now) }
        requires split { SplitAt self.now from }
        ensures { (s : SplitAt self.now from) → Compares self.now bytes.now (from - self.now.base) (begun_before self.now.heads from end s.after) result }
    {
        let base = self.spec.base();
        let heads = self.spec.heads();
        let stop = self.spec.size().min(end.saturating_sub(base)) as usize;
        let mut at = (from - base) as usize;
        while at < stop {
            let Some(step) = self.memory.same_step(heads, at, bytes) else {
                return Compared::Differ;
            };
            if step.is_master {
                return Compared::NextMaster(base + at as u32);
            }
            at += step.size as usize;
        }
        Compared::AllAgree
    }

    /// Writes the header of the block at an offset among as many other bytes as the zone has, and if it is a master
    /// block its contents too. Returns the block's size.
    fn write_block(&self, at: u32, bytes: &mut [u8]) -> u32
        requires whole { length bytes.old ≡ length (image_of self.now) }
        requires block { BlockAt self.now (self.now.base + at) }
        ensures size { (b : BlockAt self.now (self.now.base + at)) → result ≡ size_of self.now.heads b.here }
        ensures written { (b : BlockAt self.now (self.now.base + at)) → bytes.new ≡ written bytes.old at (own_bytes self.now.heads self.now.base b.here) }
    {
        let base = self.spec.base();
        let heads = self.spec.heads();
        self.memory.write_header(heads, at as usize, bytes);
        let header = self.memory.header(heads, at as usize);
        if header.role.is_master() {
            let start = (at + heads.head_size()) as usize;
            write_at(bytes, start, self.contents(base + at));
        }
        header.size
    }

    /// Writes the zone's own bytes, which are its header, those of its blocks and the contents of its master blocks,
    /// among as many other bytes as it has. No other of these changes.
    pub fn write_own_bytes(&self, bytes: &mut [u8])
        requires whole { length bytes.old ≡ length (image_of self.now) }
        ensures same { HasStructure self.now bytes.new }
        ensures masters { EachMaster (AreWritten bytes.new) self.now.heads zone_header self.now.blocks }
        ensures others { (at : ℕ) → zone_header ≤ at → (InHeader self.now at → ⊥) → (InMaster self.now at → ⊥) → slice_index bytes.new at ≡ slice_index bytes.old at }
    {
        let size = self.spec.size();
        self.memory.write_zone_head(bytes);
        let mut at = ZONE_HEADER;
        while at < size {
            at += self.write_block(at, bytes);
        }
    }
}
