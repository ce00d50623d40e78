//! The pictures that the resources of old Macintosh files are, in their colours; and a picture as a PNG file.
#![tactic(auto)]

mod adler;
mod bytes;
mod colours;
mod crc;
mod drawing;
pub mod fault;
mod icons;
pub mod kind;
mod laws;
mod maps;
pub mod picture;
pub mod pixel;
mod png;
mod rows;
#[cfg(test)]
mod tests;

pub use icons::picture_of;
pub use kind::kind_of;
pub use laws::{png_law, raster_law};
pub use png::png_file;
