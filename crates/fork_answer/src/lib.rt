//! What is shown of the resource fork in a file, and what can still be read of a damaged one: as text, and as a fork
//! that is written again.
#![tactic(auto)]

pub mod answer;
mod group;
mod line;
mod mend;
mod parts;
pub mod request;
pub mod source;
mod table;
pub mod warning;

pub use answer::{Failure, read_table};
pub use line::salvage_listing;
pub use mend::mended_fork;
pub use parts::{answer_in_parts, rows_in_parts};
pub use source::{NoFork, resource_fork};
pub use table::salvaged_table;
