//! The rows of an open resource file as a fork: each resource has a row's type, id, name and attributes, and its bytes
//! say where the row's bytes are in the file's own fork, and which handle it has.
#![tactic(auto)]

mod fault;
mod image;
mod info;

pub use fault::SaveFault;
pub use image::{image_of, table_of};
pub use info::RowInfo;
