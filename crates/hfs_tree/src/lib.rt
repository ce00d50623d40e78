//! The trees of HFS volumes: where their nodes are, and what their leaves have. (*Inside Macintosh: Files*, chapter 2.)
#![tactic(auto)]

pub mod extent;
pub mod fault;
pub mod leaf;
pub mod number;
pub mod rows;
#[cfg(test)]
mod tests;
mod walk;

pub use walk::{Chain, Link, TreeFile, read_block, read_header, read_tree};
