//! A walk over a zone that anyone made, as Inside Macintosh: Memory draws one: its blocks, its free master pointers, and
//! the first thing that is wrong. It only reads, takes all that the books leave open, and ends for any bytes.
#![tactic(auto)]

mod blocks;
mod dump;
mod fault;
mod free;
mod head;
mod laws;
mod looking;

pub use dump::Dump;
pub use fault::{Fault, Problem};
pub use laws::look_laws;
pub use looking::{Found, FromBlock, look};
