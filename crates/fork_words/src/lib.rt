//! What the words of resfork's command line ask for.
#![tactic(auto)]

pub mod asked;
mod command;
mod ending;
pub mod fault;
pub mod find;
mod outputs;
pub mod size;
pub mod texts;
pub mod work;

/// The word for the standard input, in place of a file's name.
pub const INPUT: &str = "-";
