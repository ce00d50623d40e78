//! The blocks of a zone and the slots of its master blocks. That owners and blocks find each other is up to the caller.
#![tactic(auto)]

mod adopting;
mod chain;
mod chained;
mod faults;
mod finding;
mod linking;
mod listing;
mod lookup;
mod masters;
mod ranges;
mod records;
mod slot;
mod structure;

pub use block_bytes::{NotAdopted, WhyNot};
pub use listing::list_runs;
pub use records::Records;
pub use slot::Slot;
pub use structure::{Agreement, Part, Written};
