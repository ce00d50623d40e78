//! Raw memory under a safe surface: a region is one run of bytes, of which ranges can be lent out and given back.
//!
//! A contract sees a region as the list of its bytes beside the list of the ranges that are lent. Offsets and lengths
//! are in bytes, and an offset counts from the region's first byte.
#![tactic(auto)]

mod cells;
mod host;
mod loan;
mod memory;
mod region;
mod runs;

pub use host::HostBytes;
pub use loan::Lent;
pub use region::Region;
pub use runs::{Run, Runs};
