//! BinHex 4.0 (RFC 1741): a file with both its forks as a text of 64 characters.

pub mod crc;
pub mod decode;
mod digits;
pub mod fault;
pub mod file;
mod find;
mod packed;
mod read;
mod runs;

pub use digits::digit_value;
pub use find::{ends_line, find_colon, find_comment, is_bin_hex, is_skipped};
pub use read::{most_of, read_bin_hex, read_bin_hex_within};
