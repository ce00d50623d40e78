//! Files in disk images: which volumes, folders and files an image has, which of them a path names, and a file as the
//! bytes of a MacBinary file.
#![tactic(auto)]

pub mod contents;
pub mod file;
pub mod files;
mod fork;
pub mod found;
pub mod item;
pub mod lines;
mod look;
pub mod message;
mod place;
mod read;
pub mod refusal;
pub mod still;
#[cfg(test)]
mod tests;
pub mod volume;

pub use file::{read_file, read_fork};
pub use found::find;
pub use image_paths::{ImagePath, NameText, PathFault, text_name};
pub use read::read_contents;
pub use still::{StillDisk, StillFile};
