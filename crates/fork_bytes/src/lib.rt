//! Resource forks: the bytes of a fork to a table of resources, and back. `read_fork` reads a fork that is in memory.
//! One that is elsewhere is read by its parts, as `read_fork` does it: the header, the map, and the length of each
//! datum give the places of all bytes.
#![tactic(auto)]

mod data;
pub mod datum;
pub mod fault;
mod grow;
mod header;
mod laws;
pub mod layout;
mod map;
mod name;
mod number;
mod over;
pub mod place;
mod read;
mod sizes;
pub mod table;
mod types;
mod write;

pub use data::{check_bytes, length_place, place_row};
pub use header::{HEADER_LENGTH, check_parts, extra_bytes, read_header};
pub use laws::fork_laws;
pub use map::{read_attributes, read_map};
pub use over::{is_over, is_over_by};
pub use read::{read_fork, read_fork_within};
pub use write::{write_fork, write_fork_within, write_rows, write_rows_within};
