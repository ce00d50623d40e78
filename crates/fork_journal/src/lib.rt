//! A journal beside a resource fork: an update of the fork is all there or not at all, also when the machine stops in
//! it.
#![tactic(auto)]

mod crash_pair;
mod file_pair;
mod journal;
mod leaving;
mod mem_pair;
pub mod pair;
mod pair_world;
mod reading;
pub mod recovery;
mod steps;
pub mod update;

pub use crash_pair::CrashPair;
pub use file_pair::FilePair;
pub use journal::Journal;
pub use leaving::{Choice, Fate};
pub use mem_pair::{Call, MemPair};
pub use pair::{PairDisk, Side};
pub use pair_world::{PairWorld, UnknownPair};
