//! A look at a zone that anyone made.

ghost use Rattle.macheap_c.specs.Life.{heads_of};
ghost use Rattle.macheap_c.specs.Look.{IsLooked};
ghost use Rattle.macheap_c.specs.Walk.{shown_block};

use crate::guest::DAMAGED;
use crate::life::heads_of;
use crate::walk::{MhBlock, shown_block};
use held_zone::host_err::HostErr;
use mac_base::block::Block;
use mac_base::error::NO_ERR;
use zone_look::{Dump, FromBlock, look};

/// What is wrong with a zone: which kind of fault (1 to 13, as `Problem` has them), the address of what is wrong, the
/// number there, and the one that would be right or is the nearest that would.
#[repr(C)]
#[derive(Clone, Copy)]
pub struct MhWrong {
    pub problem: u32,
    pub place: u32,
    pub found: u32,
    pub wanted: u32,
}

impl FromBlock for MhBlock {
    ghost made = { shown_block };

    fn from_block(block: Block) -> MhBlock {
        shown_block(block)
    }
}

/// Looks at the memory from a zone's start on, and shows its blocks, as many as C has rows for, and how many there are.
/// If something is wrong these are the blocks up to it, and the answer is that of damage. BadNumber where there is no
/// such mode.
#[unsafe(no_mangle)]
pub extern "C" fn mh_look(
    bytes: &[u8],
    base: u32,
    mode: u32,
    blocks: &mut [MhBlock],
    count: &mut usize,
    wrong: &mut MhWrong,
) -> i16
    ensures { IsLooked (heads_of mode) base bytes.now result
        (record { rows = blocks.old; count = count.old; wrong = wrong.old })
        (record { rows = blocks.new; count = count.new; wrong = wrong.new }) }
{
    let Some(heads) = heads_of(mode) else {
        return HostErr::BadNumber.code();
    };
    let found = look(&Dump::new(heads, base, bytes), blocks);
    *count = found.blocks;
    match found.fault {
        Some(fault) => {
            *wrong = MhWrong {
                problem: fault.problem.number(),
                place: fault.place,
                found: fault.found,
                wanted: fault.wanted,
            };
            DAMAGED
        }
        None => NO_ERR,
    }
}
