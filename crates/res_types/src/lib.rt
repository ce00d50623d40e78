//! Types of resources as Rez, the resource compiler of the Macintosh Programmer's Workshop, declares them: what the
//! fields of a type are, what a value of the type is, and the bits of a value.
#![tactic(auto)]

mod bits;
pub mod declaration;
pub mod field;
mod laws;
mod reading;
pub mod stop;
mod text;
pub mod texts;
pub mod value;
mod writing;

pub use laws::text_laws;
