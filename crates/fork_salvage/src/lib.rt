//! What can still be read of a damaged resource fork, and where its first fault is. No count of resources
//! or of bytes is too large.
#![tactic(auto)]

mod check;
mod cursor;
mod entry;
mod fault;
mod first;
mod firsts;
mod found;
mod laws;
mod number;
mod place;
mod plan;
mod reference;
mod salvage;

pub use check::all_faults;
pub use fault::{BadList, BadRow, Excess, Fault, SameType};
pub use first::first_fault;
pub use found::FoundRow;
pub use laws::salvage_laws;
pub use place::{Gap, NameSpan, Span};
pub use reference::{FoundName, Loss};
pub use salvage::{Item, LostRow, Salvage, find_attributes};
