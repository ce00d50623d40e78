//! Files in the containers of old Macintoshes are written: with another resource fork in the place of their own
//! (`with_fork`), and anew from what another container says.
#![tactic(auto)]

mod apple;
mod apple_text;
mod binary;
mod binary_text;
mod bytes;
pub mod detail;
mod fork;
mod hex_text;
mod known;
mod laws;
mod length;
pub mod mac_file;
mod plan;
pub mod refusal;
mod target;

pub use fork::{text_with_fork, with_fork};
pub use known::know_file;
pub use laws::written_laws;
pub use mac_file::parts_of;
pub use target::{Target, write_file};
