//! MFS volumes, the disks of 1984: which files they have, and where the bytes of these are. (*Inside Macintosh*, volume II,
//! chapter 4.)
#![tactic(auto)]

mod chain;
pub mod directory;
pub mod fault;
pub mod info;
mod ranges;
#[cfg(test)]
mod tests;
pub mod volume;

pub use ranges::ranges_of_file;
pub use volume::read_mfs;
