//! What `resfork` does with the user's files and with the standard streams, each act noted; and what is in its way.
#![tactic(auto)]

pub mod acts;
pub mod entries;
pub mod found;
pub mod host;
pub mod input;
pub mod message;
mod output;
pub mod parts;
