//! The texts of resources as lines: each text of a table with the type and the id of its resource and its place in it,
//! and a table whose texts are those of such lines. Which fields of a resource are texts is declared for each type.
#![tactic(auto)]

mod entry;
pub mod fault;
mod kinds;
mod laws;
mod line;
mod merge;
mod place;
mod reading;
mod resource;
mod roman;
mod row;
mod table;

pub use entry::Entry;
pub use kinds::{Naming, TextType, text_types};
pub use laws::line_laws;
pub use place::Place;
pub use table::{Listed, put_texts, rows_of, texts_of};
