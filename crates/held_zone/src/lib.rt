//! The zone that a program in C holds: what belongs to it, the calls on it, and what C gets from them.
#![tactic(auto)]

pub mod asleep;
mod attaching;
pub mod fields;
pub mod host_err;
mod lending_again;
mod lent;
pub mod memory;
mod nil_flags;
pub mod parked;
pub mod purges;
mod repairing;
pub mod session;
pub mod told;
pub mod waking;
pub mod zone;
