//! Resources as text: `data` statements of Rez, the resource compiler of the Macintosh Programmer's Workshop, as its
//! DeRez writes them, and the table of resources that such a text says.
#![tactic(auto)]

mod attribute;
mod blanks;
pub mod fault;
mod laws;
mod number;
mod quoted;
mod statement;
pub mod table;
mod text;
pub mod unread;

pub use laws::rez_laws;
pub use table::rez;
pub use text::derez;
