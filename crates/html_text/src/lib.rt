//! Pages of HTML whose texts can't become tags: what is written of a tag, of a value in it, and of a text between tags. (HTML
//! Living Standard, 13.1.2 and 13.2.5.)
#![tactic(auto)]

pub mod laws;
mod tag;
mod text;

pub use tag::{Attribute, AttributeName, Tag, push_end, push_start};
pub use text::push_text;
