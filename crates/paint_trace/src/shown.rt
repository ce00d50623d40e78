//! The blocks of a zone, as they are printed.

use mac_base::block::{Block, Flags, Kind};
use mem_calls::MemoryManager;
use std::io;

/// Prints all blocks, lowest first: each is right after the one before it.
pub(crate) fn print_blocks(rt: &HostRuntime, memory: &MemoryManager) -> Result<(), io::Error> {
    let mut at = memory.first_block();
    while let Some(block) = memory.entry(at) {
        print_block(rt, &block)?;
        at += block.entry.size;
    }
    Ok(())
}

/// Prints a block: its address, its size with its header, and what is in it.
fn print_block(rt: &HostRuntime, block: &Block) -> Result<(), io::Error> {
    let address = block.address;
    let size = block.entry.size;
    let length = block.length;
    match block.entry.kind {
        Kind::Free => println!(rt; "{address:08X} {size:>5} free"),
        Kind::Master => println!(rt; "{address:08X} {size:>5} master pointers"),
        Kind::Ptr(_) => println!(rt; "{address:08X} {size:>5} pointer, {length} bytes"),
        Kind::Rel(handle) => {
            let handle = handle.number();
            let state = state_of(block.flags);
            println!(rt; "{address:08X} {size:>5} handle {handle:08X}, {length} bytes{state}")
        }
    }
}

/// What is printed of a handle that is locked or may be purged.
fn state_of(flags: Flags) -> &'static str {
    match (flags.lock, flags.purge) {
        (false, false) => "",
        (false, true) => ", purgeable",
        (true, false) => ", locked",
        (true, true) => ", locked and purgeable",
    }
}
