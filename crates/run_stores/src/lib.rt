//! The files of a run: how each is opened, locked against other programs, and synced; and the stores of forks and
//! journals in them.
#![tactic(auto)]

mod claimed;
mod disk;
mod opened;
mod stores;

pub use claimed::Naming;
pub use disk::Disk;
pub use opened::{NewFile, NotOpened, Refusal};
pub use stores::{
    AnyStore, HostDisks, NoStores, Opens, close_alone, close_journalled, journalled_stores,
    plain_stores,
};
