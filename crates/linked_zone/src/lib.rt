//! A zone in which handles, pointers and blocks find each other, and free slots follow one another.
#![tactic(auto)]

mod adopting;
mod changes;
mod copying;
mod finding;
mod flags;
mod loans;
mod relocating;
mod sizes;
mod structure;
mod zone;

pub use zone::LinkedZone;
pub use zone_records::{Agreement, NotAdopted, Part, WhyNot, Written};
