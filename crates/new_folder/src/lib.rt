//! A folder that is written to: each folder and each file in it is made anew, and no link in it is followed.
#![tactic(auto)]

mod calls;
mod folder;
mod names;
mod opened;

pub use calls::{FolderCall, FolderCalls, FolderNoted};
pub use folder::{InnerFolder, NewFolder};
pub use opened::NoNewFolder;
