//! A file whose resources are changed: the table of its resource fork is read, changed, and written in the place of the
//! old one.
#![tactic(auto)]

pub mod change;
pub mod convert;
pub mod difference;
pub mod edit;
pub mod extra;
pub mod file;
pub mod path_name;
pub mod replaced;
