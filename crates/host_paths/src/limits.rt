//! What the system lets this process do.

use std::fs;

/// How many bytes long a regular file may be that this process writes. There is none but what the system says of this
/// process.
#[derive(Clone, Copy)]
pub struct Longest {
    pub(crate) bytes: u64,
}

impl Longest {
    /// What the system says now.
    pub fn of_process(rt: &HostRuntime) -> Longest {
        Longest {
            bytes: longest_file(rt),
        }
    }
}

/// The limit that a line of the kernel's list gives, where it is that of a file's length. No number means no
/// limit.
fn limit_in(line: &str) -> Option<u64> {
    let limits = line.strip_prefix("Max file size")?;
    limits.split_whitespace().next()?.parse().ok()
}

/// How many bytes long a regular file may be that this process writes, as Linux says: a write past that ends the
/// process. Elsewhere, and where there is no limit, it is the largest number.
pub fn longest_file(rt: &HostRuntime) -> u64 {
    match fs::read_to_string(rt, "/proc/self/limits") {
        Ok(limits) => limits.lines().find_map(limit_in).unwrap_or(u64::MAX),
        Err(_) => u64::MAX,
    }
}
