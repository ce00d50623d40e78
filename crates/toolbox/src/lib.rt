//! The toolbox over one zone: one call, one reply. And laws: what calls of the Resource Manager do to the heap.
#![tactic(auto)]

mod laws;
mod lending;
mod toolbox;

pub use laws::resource_laws;
pub use toolbox::Toolbox;

/// The answers of the grow-zone procedure that a script has queued.
pub type AnswerQueue = held_calls::answers::AnswerQueue<0>;
