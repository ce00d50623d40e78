//! Resource forks that stay on their disks: which resources there are, and where their bytes are.
#![tactic(auto)]

pub mod fault;
mod open;
mod part;
pub mod table;

pub use open::{read_rows, read_rows_within};
pub use part::read_part;
