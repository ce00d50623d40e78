//! What `resfork` does with disk images: which place in an image a word names, a file there as the bytes of a MacBinary
//! file, and what an image has. Images are only read.
#![tactic(auto)]

mod acts;
mod problem;
mod word;

pub use acts::{Described, ImageList, check_outside, describe_image, list_image, read};
