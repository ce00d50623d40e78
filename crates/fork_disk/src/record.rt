//! What happened, for clauses alone.

ghost use Rattle.std.specs.Prelude.{◌≡◌, List, [], ◌∷◌};
ghost use Rattle.std.specs.Borrow.{ftrue};

use std::collections::LinkedList;
use std::marker::{Model, PhantomData};

/// Events that the proofs of callers pick. No memory holds them.
#[derive(Drop)]
pub struct Record<T> {
    of: PhantomData<T>,
    pub ghost events: { List T },
}

impl<T> Model for Record<T> {
    ghost also_owns = { λ _. ftrue };
}

impl<T> Record<T> {
    /// A record of the events that a caller's proof picks.
    fn of_events() -> Record<T>
        ghost picked: { List T }
        ensures { result.events ≡ picked }
    {
        Record { of: PhantomData }
    }

    /// The same. A pick sees the arguments of the call that it is for and nothing else, so they are all that it picks
    /// from.
    pub fn of_events_beside<A, B>(_past: &Record<T>, _first: &A, _second: &B) -> Record<T>
        ghost picked: { List T }
        ensures { result.events ≡ picked }
    {
        Record::of_events()
    }

    /// No event so far.
    pub fn new() -> Record<T>
        ensures { result.events ≡ [] }
    {
        Record::of_events()
    }
}

/// The calls on a file with their answers, the newest first: the numbers and the bytes of each.
pub type FileCalls = Record<(LinkedList<u64>, LinkedList<u8>)>;

impl FileCalls {
    /// Notes a call with its answer.
    pub(crate) fn note(&mut self, numbers: &[u64], bytes: &[u8])
        ensures { self.new.events ≡ (numbers.now, bytes.now) ∷ self.old.events }
    {
        *self = Record::of_events_beside(self, &numbers, &bytes);
    }
}
