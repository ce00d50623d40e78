//! Names of files as text: what a terminal, a log or a shell gets of a name does no harm there, and it is clear which
//! name it is.
#![tactic(auto)]

mod characters;
mod file_name;
mod harm;
mod lines;
mod pieces;
mod shell_word;

pub use file_name::{FileName, is_plain};
pub use harm::is_harmful;
pub use lines::{Line, Lines, in_lines};
pub use pieces::{Pieces, quoted};
pub use shell_word::ShellWord;
