//! The blocks of a zone, one after the other in its bytes. An address names a block: that of its header.
#![tactic(auto)]

mod adopting;
mod blocks;
mod header;
mod memory;
mod own;
mod record;
mod sleeping;
mod structure;
mod walk;

pub use adopting::{NotAdopted, WhyNot};
pub use blocks::Blocks;
pub use header::{Header, Role};
pub use structure::Compared;
pub use walk::check;
