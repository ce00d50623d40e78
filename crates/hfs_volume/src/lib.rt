//! HFS volumes: which folders and files they have, and where the bytes of these are. (*Inside Macintosh: Files*,
//! chapter 2.)
#![tactic(auto)]

pub mod entry;
pub mod fault;
mod forks;
pub mod mdb;
pub mod name;
pub mod overflow;
pub mod ranges;
#[cfg(test)]
mod tests;
pub mod volume;

pub use ranges::ranges_of_fork;
pub use volume::read_volume;
