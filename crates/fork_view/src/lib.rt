//! Resources shown to people, and unpacked to a folder.
#![tactic(auto)]

mod drawing;
pub mod form;
mod manifest;
mod sound;
pub mod unpack;
mod view;

pub use drawing::is_drawing;
pub use sound::wav_of;
pub use unpack::{NotUnpacked, Unpacking};
pub use view::{Chosen, NotShown, ShowAs, Sight, Untold, View, sight_of};
