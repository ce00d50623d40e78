//! The calls of whoever holds a zone: one call of the Memory Manager, made as it is given, the answers of the grow-zone
//! procedure that wait for one, and the loans, with the calls by which they come and go.
#![tactic(auto)]

pub mod answers;
mod blocks;
pub mod bytes;
pub mod lending;
pub mod loans;
pub mod making;
pub mod window;
