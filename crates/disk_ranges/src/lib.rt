//! A disk that is ranges of another: the bytes of a partition, of an image, or of a fork in a volume.
#![tactic(auto)]

mod disk;
mod fit;
mod nested;
pub mod read;
#[cfg(test)]
mod tests;

pub use disk::RangesDisk;
pub use fit::are_within;
pub use nested::within;
