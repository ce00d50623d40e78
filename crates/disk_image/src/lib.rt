//! Disk images: what a file is known as, and where in it the bytes of its volumes are.
#![tactic(auto)]

mod device;
pub mod fault;
pub mod image;
pub mod known;
pub mod map;
mod old_map;
mod open;
pub mod part;
pub mod place;
#[cfg(test)]
mod tests;
pub mod view;

pub use image::read_image;
pub use open::{open_fork, open_fork_within, open_volume};
