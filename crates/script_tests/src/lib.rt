//! The theorem of a run, read at files of the host. And tests of whole runs: over readers and writers that fail, and
//! over a resource file on a disk in memory that grows, or of which a call fails. And tests of how files are changed:
//! crashes at each moment of an update with a journal and of a recovery, and each call of a replacement that fails.
#![tactic(auto)]

#[cfg(test)]
mod crashes;
#[cfg(test)]
mod disks;
pub mod files;
#[cfg(test)]
mod forks;
#[cfg(test)]
mod growth;
#[cfg(test)]
mod lengths;
#[cfg(test)]
mod replacing;
#[cfg(test)]
mod runs;
#[cfg(test)]
mod sides;
#[cfg(test)]
mod streams;
