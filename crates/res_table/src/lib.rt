//! The rows of open resource files, and the chain of open files. `keyed` and `kinds` say where rows are that have a
//! key, and how many rows of one type are together.
#![tactic(auto)]

pub mod all_files;
pub mod attributes;
pub mod chain;
mod keyed;
mod keys;
mod kinds;
pub mod names;
pub mod row;
pub mod rows;
mod runs;
