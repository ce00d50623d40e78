//! The parts of an index, before and when they are put beside a zone.

ghost use Rattle.zone_index.specs.Index.{IsBlank};

use crate::leaves::{LEAF_SIZE, LeafSums};
use crate::lengths::Lengths;
use crate::marking::mark_blocks;
use crate::pages::{PAGE_SIZE, Pages};
use crate::zone::IndexedZone;
use linked_zone::LinkedZone;
use mac_base::error::HostFull;
use mac_base::zone_spec::ZoneSpec;
use place_numbers::Bits;
use std::alloc::Global;

/// A zone has so many bytes for each place in which a handle's length is remembered, beside the fewest. A place is for
/// four bytes, so these are places for the lowest 6,656 bytes of the zone and a sixty-fourth of it: master blocks don't
/// move and take the lowest room, so handles have their numbers there. The length of one above is asked of the zone.
const BYTES_PER_LENGTH: u32 = 256;

/// The fewest places for lengths.
const FEWEST_LENGTHS: usize = 1664;

/// What is kept beside a zone. Its parts are those of `IndexedZone`.
#[derive(Drop)]
pub(crate) struct Index {
    marks: Bits,
    purgeable: Bits,
    leaves: LeafSums,
    pages: Pages,
    lengths: Lengths,
}

impl Index {
    ghost use Rattle.std.specs.Prelude.{◌≡◌, IfOk};

    /// An index for a zone of these sizes, of which nothing is known. The only error is that the host has no memory.
    pub(crate) fn create(alloc: Global, spec: ZoneSpec) -> Result<Index, HostFull>
        ensures { IfOk result (IsBlank spec.limit) }
    {
        let places = spec.limit() as usize / 4 + 1;
        let marks = Bits::create(alloc, places)?;
        let purgeable = Bits::create(alloc, places)?;
        let leaves = LeafSums::create(alloc, (spec.limit() / LEAF_SIZE) as usize + 1)?;
        let pages = Pages::create(alloc, (spec.limit() / PAGE_SIZE) as usize + 1)?;
        let lengths = Lengths::create(
            alloc,
            spec.base(),
            (spec.limit() / BYTES_PER_LENGTH) as usize + FEWEST_LENGTHS,
        )?;
        Ok(Index {
            marks,
            purgeable,
            leaves,
            pages,
            lengths,
        })
    }

    /// The zone with this index, which knew nothing of it: its blocks are marked, and the rest is found where it is
    /// asked for.
    pub(crate) fn beside(self, zone: LinkedZone) -> IndexedZone
        requires { IsBlank zone.shape.limit self }
        ensures { result ≡ zone }
    {
        let Index {
            mut marks,
            mut purgeable,
            leaves,
            pages,
            lengths,
        } = self;
        mark_blocks(&zone, &mut marks, &mut purgeable);
        IndexedZone {
            zone,
            marks,
            purgeable,
            leaves,
            pages,
            lengths,
        }
    }
}
