//! The calls of the Memory Manager over one zone.
#![tactic(auto)]

mod adopting;
mod bringing;
mod copying;
mod flags;
mod laws;
mod loans;
mod manager;
mod new_blocks;
mod operands;
mod places;
mod purges;
mod releasing;
mod reports;
mod request;
mod room;
mod sizes;
mod state;
mod structure;
mod waking;

pub use laws::purge_laws;
pub use manager::MemoryManager;
pub use operands::{MOST_LOANS, has_part};
pub use state::state_of;
