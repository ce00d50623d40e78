//! What a command is done with.

use crate::output::{Output, room_of_output};
use std::alloc::Global;
use std::io::Stdout;

/// The word for the standard output, in place of a file's name.
pub const OUTPUT: &str = "-";

/// The host, and how much of a file is read.
#[derive(Clone, Copy)]
pub struct Host<'a> {
    /// The system.
    pub rt: &'a HostRuntime,
    /// How many bytes of a file are read at most.
    pub limit: u64,
}

impl Host<'_> {
    /// The host's memory.
    pub fn alloc(&self) -> Global {
        self.rt.alloc()
    }

    /// The standard output, which ends no process where it is a file that would be too long.
    pub(crate) fn output(&self) -> Output<Stdout> {
        Output::new(self.rt.stdout(), room_of_output(self.rt))
    }
}
