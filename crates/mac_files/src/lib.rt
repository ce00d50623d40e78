//! The forms in which files of old Macintoshes come: AppleSingle, AppleDouble, MacBinary, BinHex, or a resource fork
//! alone. A file is known by its bytes (`kind_of`), and `OldFile` is what it is out of any container: its forks with
//! their places, its name, type, creator, flags, dates and comment.
#![tactic(auto)]

pub mod apple;
pub mod archive;
pub mod bin_hex;
mod check;
pub mod container;
pub mod contents;
pub mod crc;
pub mod fault;
pub mod kind;
mod laws;
pub mod mac_binary;
pub mod number;
pub mod old_file;
pub mod part;
mod read;

pub use archive::archive_of;
pub use container::{container_of, is_raw};
pub use kind::kind_of;
pub use laws::container_laws;
pub use old_file::OldFile;
pub use read::read_contents;
