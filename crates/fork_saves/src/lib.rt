//! Files that are changed, made anew or written in another container: each path has the old file or the new one, and
//! what is said was saved before.
#![tactic(auto)]

pub mod change;
pub mod convert;
pub mod laws;
mod order;
mod ready;
pub mod save;
pub mod source;
