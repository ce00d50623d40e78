//! What can be had of a file whose container has a fault: its forks, as far as their bytes reach, where the header or
//! the list of the container says that they are.
#![tactic(auto)]

mod apple;
mod file;
mod laws;
mod place;
mod text;

pub use file::{FileLeft, open_in_spite};
pub use laws::salvage_laws;
pub use place::ForkLeft;
