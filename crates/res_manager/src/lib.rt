//! The calls of the Resource Manager over one zone and its resource files.
#![tactic(auto)]

mod contents;
mod counting;
mod getting;
mod info;
mod load;
mod manager;
mod opening;
mod partial;
mod patching;
mod quiet;
mod rows;
mod seeking;
mod tests;
mod updating;
pub mod watch;

pub use counting::count;
pub use info::set_info;
pub use manager::make;
pub use partial::read_partial;
pub use patching::patch;
pub use seeking::{find_place, seek};
