//! Laws of zone maps, handle tables and heaps: what keeps a heap sound, what arrangements of gaps keep, when a request
//! fits, and how it is then served. And laws of the calls: their refusals and their steps, worked rows, and what is
//! promised of a zone from any moment of a run of calls to any later one, in the words of who uses handles and
//! pointers.
#![tactic(auto)]

mod laws;

pub use laws::heap_laws;
