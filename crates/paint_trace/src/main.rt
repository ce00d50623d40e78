//! Replays what a paint program asked of its heap, and prints how the zone looks then.
#![tactic(auto)]

mod palette;
mod procedure;
mod replay;
mod shown;
mod trace;

use anyhow::{Context, Result};
use mac_base::zone_spec::ZoneSpec;
use mem_calls::MemoryManager;
use palette::{new_palette, palette_shown};
use replay::replay;
use std::fs;

/// Where the trace is.
const TRACE: &str = "paint.trace";

/// The address at which the zone begins.
const BASE: u32 = 0x10_0000;

/// How many bytes the zone has at first.
const ZONE_SIZE: u32 = 8192;

/// How many bytes it may grow to.
const ZONE_LIMIT: u32 = 16384;

fn main(rt: HostRuntime) -> Result<()> {
    let text = fs::read_to_string(&rt, TRACE).context("reading paint.trace")?;
    let spec = ZoneSpec::new(BASE, ZONE_SIZE, ZONE_LIMIT)?;
    let mut memory = MemoryManager::create(rt.alloc(), spec)?;
    let palette = new_palette(&mut memory)?;
    let replayed = replay(&mut memory, &text)?;
    println!(rt;
        "{} steps, {} of them refused",
        replayed.made, replayed.refused
    )?;
    shown::print_blocks(&rt, &memory)?;
    println!(rt; "{}", palette_shown(&memory, palette))?;
    Ok(())
}
