//! Paths in disk images as they are typed and printed, and the names of a Macintosh's files as those of a host's.
#![tactic(auto)]

mod host_name;
mod path;
mod shown;
#[cfg(test)]
mod tests;

pub use host_name::text_name;
pub use path::{ImagePath, PathFault};
pub use shown::NameText;
