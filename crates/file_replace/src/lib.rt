//! A file is replaced safely: its path has the old file or the new one, whatever fails, and whenever the machine stops;
//! and the new one gives nobody more than the old one did.
#![tactic(auto)]

mod calls;
mod destination;
mod held;
mod host_place;
mod laws;
mod mem_place;
mod pair;
mod place;
mod prepared;
mod replacement;
mod rights;
mod stop;
mod told;
mod world;

pub use calls::{Call, HeldCall, HeldCalls, Noted, PlaceCalls, Wanted};
pub use destination::{Destination, NewPath, OpenStream};
pub use held::Held;
pub use host_place::{FileReplacer, There};
pub use laws::crash_laws;
pub use mem_place::{MemFile, MemPlace};
pub use pair::{PairFault, put_both as put_both_places};
pub use place::{Event, FolderSync, PlainFile, Replaces};
pub use prepared::{Difference, Losses, NewFile, NotBoth, Outcome, Prepared, Stream, put_both};
pub use replacement::{Fault, Step, prepare, put, replace};
pub use rights::{Owner, Rights, mode_for};
pub use stop::Stop;
pub use told::NotReplaced;
pub use world::{FolderWorld, UnknownFolder};
