//! A run of a script: from the bytes that a reader gives to those that a writer takes.
#![tactic(auto)]

mod counted;
mod end;
mod machine;
mod moments;
mod reading;
mod ready;
mod running;
mod writing;

pub use counted::Counted;
pub use end::{RunEnd, status};
pub use moments::Moments;
pub use running::{run, tell_no_memory};
pub use writing::write_whole;
