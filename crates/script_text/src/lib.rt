//! The text of a script: from bytes to lines.
#![tactic(auto)]

mod answer;
mod call;
mod hashing;
mod names;
mod operand;
mod script;
mod statement;
mod token;
mod wrong;

pub use names::{Names, names_have_places};
pub use script::{Fault, MAX_LINES, MAX_SCRIPT, one_reading, parse_script};
pub use token::{Token, read_tokens};
pub use wrong::Wrong;
