//! Disks that hold a resource fork: bytes that read as they were written, or a failure that is counted.
#![tactic(auto)]

pub mod disk;
mod fail_at;
mod failures;
pub mod faults;
mod file_disk;
mod host_file;
mod mem_disk;
mod record;
pub mod store;
pub mod update;
mod world;

pub use fail_at::FailAt;
pub use file_disk::FileDisk;
pub use host_file::HostFile;
pub use mem_disk::MemDisk;
pub use record::{FileCalls, Record};
pub use world::{Unknown, World};
