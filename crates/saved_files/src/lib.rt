//! Resource files as bytes, so that they can be made again of these over the same zone.
#![tactic(auto)]

mod addresses;
mod blocks;
mod loading;
mod saving;
mod sound;

pub use addresses::has_address;
pub use loading::{SavedFiles, load};
pub use saving::save;
