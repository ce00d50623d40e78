//! What a file of an old Macintosh says of itself, in words: its Finder flags by their names, and its dates as a
//! calendar and a clock show them.
#![tactic(auto)]

pub mod date;
pub mod flag;

pub use date::{FileDate, Moment, date_of, moment_of};
pub use flag::{Flag, color_of, flags_of};
