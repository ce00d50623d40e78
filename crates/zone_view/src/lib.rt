//! `macheap --look FILE`: shows a zone that anyone made, in a file of memory.
#![tactic(auto)]

mod asked;
mod looking;
mod reading;
mod shown;
mod writing;

pub use asked::{NotAsked, Request, asked_by, asks_for_look};
pub use looking::looked;
pub use reading::Acts;
