//! The files that the resources of a fork are unpacked to: TYPE/ID NAME.bin, with types and names made safe for file
//! systems, and no two files of one path. The resources of such a folder: what `resources.json` says of each, and the
//! bytes of its file.
#![tactic(auto)]

mod added;
mod counts;
mod file_name;
pub mod files;
mod folder;
mod json;
mod laws;
pub mod manifest;
pub mod rows;
mod types;

pub use added::with_added;
pub use files::unpacked;
pub use json::manifest_text;
pub use laws::{folder_laws, pack_laws};
pub use manifest::manifest_of;
pub use rows::packed;
