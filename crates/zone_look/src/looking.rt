//! What is found of a zone that anyone made.

ghost use Rattle.std.specs.Prelude.{◌≡◌, ◌+◌, ◌≤◌, ◌<◌, List, length, map, slice_set};
ghost use Rattle.mac_base.specs.declared.block.Block.{Block};
ghost use Rattle.zone_look.specs.Look.{IsLook, IsWalk, put_in, trailer_size};
ghost use Rattle.zone_look.specs.Memory.{end_of};
ghost use Rattle.zone_look.specs.Zone.{IsZone};

use crate::blocks::{block_at, head_at};
use crate::dump::Dump;
use crate::fault::Fault;
use crate::free::free_masters;
use crate::head::{Head, Tag};
use mac_base::block::{Block, HeadKind};
use mac_base::size::ZONE_HEADER;

/// What a caller makes of a block that is found.
pub trait FromBlock: Copy {
    ghost use Rattle.std.specs.Prelude.{◌≡◌};

    ghost made: { Block → Self };

    /// The block as the caller has it.
    fn from_block(block: Block) -> Self
        ensures { result ≡ made block };
}

impl FromBlock for Block {
    ghost made = { λ block. block };

    fn from_block(block: Block) -> Block {
        block
    }
}

/// What is found of a zone: how many blocks and how many free master pointers are found, the size of the trailer, which is
/// 0 where there is none, and the first thing that is wrong.
#[derive(Clone, Copy, Debug, PartialEq, Eq)]
pub struct Found {
    pub blocks: usize,
    pub free_masters: u32,
    pub trailer: u32,
    pub fault: Option<Fault>,
}

/// How many blocks a walk finds, and what is wrong with the one after them.
#[derive(Clone, Copy, Debug, PartialEq, Eq)]
struct Walked {
    count: usize,
    fault: Option<Fault>,
}

/// Looks at a zone, and puts the blocks that it finds in `blocks`, from the first on, as many as there are rows.
pub fn look<B: FromBlock>(dump: &Dump, blocks: &mut [B]) -> Found
    ensures { (found : List Block) × IsLook dump.now result found × (blocks.new ≡ put_in blocks.old (map B.made found)) }
{
    let end = match dump.end() {
        Ok(end) => end,
        Err(fault) => {
            return Found {
                blocks: 0,
                free_masters: 0,
                trailer: 0,
                fault: Some(fault),
            };
        }
    };
    let trailer = trailer_size(dump, end);
    let Walked { count, fault } = walk(dump, end, blocks);
    if fault.is_some() {
        return Found {
            blocks: count,
            free_masters: 0,
            trailer,
            fault,
        };
    }
    let free = free_masters(dump, end);
    Found {
        blocks: count,
        free_masters: free.count,
        trailer,
        fault: free.fault,
    }
}

/// Finds the blocks of a zone that ends at a place.
fn walk<B: FromBlock>(dump: &Dump, end: u32, blocks: &mut [B]) -> Walked
    requires { IsZone dump.now end }
    ensures { (found : List Block) × IsWalk dump.now end result.fault found × (result.count ≡ length found) × (blocks.new ≡ put_in blocks.old (map B.made found)) }
{
    let mut at = ZONE_HEADER;
    let mut count = 0;
    while at < end {
        match block_at(dump, end, at) {
            Ok(block) => {
                let size = block.entry.size;
                let row = B::from_block(block);
                put(blocks, count, row);
                count += 1;
                at += size;
            }
            Err(fault) => {
                return Walked {
                    count,
                    fault: Some(fault),
                };
            }
        }
    }
    Walked { count, fault: None }
}

/// Puts a row in its place, if there is room.
fn put<B: Copy>(rows: &mut [B], at: usize, row: B)
    ensures { rows.new ≡ slice_set rows.old at row }
{
    if at < rows.len() {
        rows[at] = row;
    }
}

/// The size of the trailer, or 0.
fn trailer_size(dump: &Dump, end: u32) -> u32
    requires zone { IsZone dump.now end }
    ensures { result ≡ trailer_size dump.now end }
{
    let bytes = dump.bytes().len() as u64;
    if bytes < u64::from(end) + u64::from(dump.heads().head_size()) {
        return 0;
    }
    let head = head_at(dump, end);
    let least = dump.heads().head_size();
    let is_small = least <= head.size && head.size <= 16;
    if head.tag.is_free() && is_small && u64::from(end) + u64::from(head.size) <= bytes {
        head.size
    } else {
        0
    }
}
