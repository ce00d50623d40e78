//! The dots of a picture in QuickDraw's language, a 'PICT' resource.
#![tactic(auto)]

mod brush;
mod bytes;
mod dots;
mod drawing;
pub mod fault;
mod lacking;
mod lines;
mod packed;
mod palette;
pub mod picture;
mod region;
mod span;
pub mod undrawn;

pub use picture::picture_of;
