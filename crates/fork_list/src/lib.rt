//! A table of resources as text: a line for each resource or for each type, and the words for types, ids and names that
//! choose among them. And MacRoman, the text encoding of the classic Macintosh in Western languages: each byte is one
//! character, and no two bytes are the same one. Text goes from its bytes to UTF-8 and back, bytes are shown between
//! quotes, and the texts in resources are read.
#![tactic(auto)]

mod attribute;
mod compressed;
mod counts;
pub mod find;
mod kind;
pub mod letters;
mod list;
mod name;
mod quoted;
mod roman;
mod shown;
mod size;
pub mod strings;
mod text;
mod types;
pub mod version;

pub use attribute::Attributes;
pub use compressed::{has_marked, unpacked_length};
pub use find::find_row;
pub use kind::kind_of;
pub use list::{RowText, absent_kind, is_chosen, listing};
pub use name::name_of;
pub use quoted::{Escaped, Quoted, hexadecimal_digit};
pub use roman::{byte_of, char_of};
pub use shown::{KindText, NamePart};
pub use size::HasSize;
pub use text::{bytes_of, text_of};
pub use types::types_listing;
