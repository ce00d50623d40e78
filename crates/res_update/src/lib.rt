//! What the Resource Manager's calls do. And an update: a table of resources is written over the fork of which it was
//! read.
#![tactic(auto)]

pub mod contents;
mod counting_call;
mod draft;
pub mod fault;
mod partial_end;
mod patching_call;
mod ranges;
mod seeking_call;
pub mod selection;
mod sizes;
mod write;

pub use counting_call::CountingCall;
pub use partial_end::PartialEnd;
pub use patching_call::PatchingCall;
pub use seeking_call::SeekingCall;
pub use write::write_table;
