//! Paths of the host: what they lead to, and new files that are made beside them.
#![tactic(auto)]

mod beside;
mod host;
mod identity;
mod limits;
mod links;
mod made_path;

pub use beside::Beside;
pub use host::{
    Access, Answer, FileKind, FolderOpen, FolderOpenCalls, Found, HostCall, HostCalls, Locking,
    StreamCalls, StreamWrite, Syncing, found_at, found_of, found_over, give, lock, open,
    open_or_make, open_to_sync, set_mode, sync, sync_file, this_user, write_stream, write_whole,
};
pub use identity::Identity;
pub use limits::{Longest, longest_file};
pub use links::{folder_name, follow, followed, leads_to};
