//! A zone with its index: it finds the lowest gap with room, where a gap begins and ends, the lowest free block that is
//! large enough, which blocks may be purged and which can be moved down, what room it has, and how many bytes a handle
//! has, without going through its blocks.
#![tactic(auto)]

mod adopting;
mod changes;
mod disorder;
mod fixed;
mod free;
mod gap;
mod index;
mod leaves;
mod lengths;
mod marking;
mod order;
mod pages;
mod purging;
mod rooms;
mod search;
mod sums;
mod waking;
mod weight;
mod zone;

pub use sums::ZoneSums;
pub use zone::IndexedZone;
