//! The opcodes of a picture in QuickDraw's language, a 'PICT' resource of version 1 or 2, each with its operands.
#![tactic(auto)]

pub mod bits;
pub mod fault;
pub mod operands;
pub mod plane;
mod reading;
pub mod sequence;
pub mod shape;

pub use operands::bits_at;
pub use sequence::{head_of, opcodes_of};
pub use shape::shape_of;
