//! The resource files that a program in C holds: their forks in memory, the calls on them, and what C gets from these.
#![tactic(auto)]

mod counting;
pub mod elsewhere;
pub mod files;
pub mod held;
mod partial;
mod saving;
pub mod told;
