//! What a path names in a disk image: a volume, a folder, or a file, whose bytes are those of a MacBinary file.
#![tactic(auto)]

mod near;
pub mod opened;

pub use near::missing_text;
pub use opened::{open_image, open_path, read_path};
