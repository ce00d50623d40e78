//! What is reported of a damaged fork.

ghost use Rattle.std.specs.Prelude.{◌≡◌, ◌≢◌, ◌||◌, ℕ, List, [], ◌∷◌, filter_map, length, IfNone, IfSome, Some};
ghost use Rattle.mac_files.specs.Kinds.{kind_of};
ghost use Rattle.fork_bytes.specs.Fork.{IsForkWithin, format_limits};
ghost use Rattle.fork_answer.specs.Salvaged.{found_in};
ghost use Rattle.fork_answer.specs.Source.{IsForkIn};
ghost use Rattle.fork_report.specs.Damage.{IsDamageOf, is_more, is_of_fork, is_readable, is_run, tally_of};

use fork_answer::resource_fork;
use fork_bytes::fault::{Condition, ForkFault};
use fork_salvage::{Fault, Item, Salvage, first_fault};
use mac_files::kind::FileKind;
use std::alloc::Global;
use std::fmt;

/// How many resources of a damaged fork are counted at most. No fork has so many that was whole once.
pub const MOST_FOUND: usize = 1_048_576;

/// How many resources of a damaged fork can be read, and how many are found in it.
#[derive(Clone, Copy)]
pub struct Tally {
    pub readable: usize,
    pub found: usize,
    /// Whether more are listed than the map has room for, so that they are at least so many.
    pub more: bool,
}

/// The first fault of a fork, and how much can still be read of it.
#[derive(Clone, Copy)]
pub struct Damage {
    fault: Fault,
    /// What the file is known as.
    pub kind: FileKind,
    /// None where no resource is found, or too many to be counted.
    tally: Option<Tally>,
}

impl Tally {
    /// Whether some resource can be read.
    pub fn is_readable(self) -> bool
        ensures { result ≡ is_readable (Some self) }
    {
        self.readable > 0
    }
}

impl fmt::Display for Tally {
    fn fmt<W: fmt::Write>(&self, f: &mut fmt::Formatter<W>) -> fmt::Result {
        let Tally {
            readable,
            found,
            more,
        } = *self;
        let least = if more { "at least " } else { "" };
        write!(f, "{readable} of {least}{found} resources")
    }
}

impl Damage {
    /// That of the fork in a file. None where there is no such fork or it has no fault, or where the host has no memory
    /// for that of a BinHex text.
    pub fn of_file(alloc: Global, file: &[u8]) -> Option<Damage>
        ensures damage { IfSome result (λ damage. (fork : List ℕ) × IsDamageOf file.now fork damage) }
        ensures none { IfNone result (kind_of file.now ≢ FileKind.BinHex → (fork : List ℕ) → IsForkIn file.now fork → IsForkWithin format_limits fork) }
    {
        let Ok(found) = resource_fork(alloc, file) else {
            return None;
        };
        let fork = found.fork();
        Some(Damage {
            fault: first_fault(alloc, fork)?,
            kind: found.kind(),
            tally: tally_of(fork),
        })
    }

    /// Whether the bytes are those of a fork in spite of it: its parts lie within it, or some resource can be read.
    pub fn is_of_fork(&self) -> bool
        ensures { result ≡ is_of_fork self.now }
    {
        let has_parts = !matches!(
            self.fault.refusal(),
            ForkFault::EndOfFile | ForkFault::BadMap(Condition::Parts)
        );
        has_parts || self.is_readable()
    }

    /// Whether some resource can be read.
    pub fn is_readable(&self) -> bool
        ensures { result ≡ is_readable self.now.tally }
    {
        self.tally.is_some_and(Tally::is_readable)
    }
}

impl fmt::Display for Damage {
    fn fmt<W: fmt::Write>(&self, f: &mut fmt::Formatter<W>) -> fmt::Result {
        let fault = self.fault;
        write!(f, "{fault}")?;
        if !self.kind.is_alone() {
            let name = self.kind.name();
            write!(f, "\n  (places are those in the resource fork of {name})")?;
        }
        match self.tally {
            Some(tally) => write!(f, "\n  {tally} can be read"),
            None => Ok(()),
        }
    }
}

/// Whether it is a run of bytes in a fork in which no type is found.
fn is_run(item: &Item) -> bool
    ensures { result ≡ is_run item.now }
{
    matches!(item, Item::Run(_))
}

/// Whether it was said before, or this says, that there are more resources than the map has room for.
fn says_more(before: bool, item: &Item) -> bool
    ensures { result ≡ (before || is_more item.now) }
{
    before || matches!(item, Item::More)
}

/// How many resources of these can be read: one, or none.
fn readable_in(item: &Item) -> usize
    ensures { result ≡ length (filter_map found_in (item.now ∷ [])) }
{
    match item {
        Item::Row(_) => 1,
        Item::Lost(_) | Item::More | Item::Run(_) => 0,
    }
}

/// How many resources of a fork can be read, of how many that are found in it. None where none is found, or too many to
/// be counted.
pub fn tally_of(fork: &[u8]) -> Option<Tally>
    ensures { result ≡ tally_of fork.now }
{
    let mut salvage = Salvage::new(fork);
    let mut readable = 0usize;
    let mut more = false;
    for found in 0..MOST_FOUND {
        let Some(item) = salvage.next() else {
            return if found == 0 {
                None
            } else {
                Some(Tally {
                    readable,
                    found,
                    more,
                })
            };
        };
        if is_run(&item) {
            return None;
        }
        readable = readable.saturating_add(readable_in(&item));
        more = says_more(more, &item);
    }
    None
}
