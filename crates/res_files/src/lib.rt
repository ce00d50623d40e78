//! Resource files on their disks: the open ones, with the bytes that their resources have there.
#![tactic(auto)]

mod all_files;
mod changes;
mod current;
mod files;
mod fitting;
mod handles;
mod info;
mod opening;
mod placing;
mod queries;
mod reading;
mod replacing;
mod saving;
mod tables;
mod updating;

pub use files::{MOST_FILES, ResourceFiles};
