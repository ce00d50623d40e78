//! What was written and done by some moments of a run, for clauses alone.

ghost use Rattle.std.specs.Prelude.{◌≡◌, [], ◌∷◌, ◌++◌};
ghost use Rattle.script_run.specs.Turns.{moment, stores_of};

use crate::counted::Counted;
use crate::machine::Machine;
use fork_disk::Record;
use fork_disk::store::ForkStore;
use std::collections::LinkedList;
use std::marker::Model;

/// What had been written by a moment, and the stores as they were then.
pub struct Moment<S> {
    pub written: LinkedList<u8>,
    pub stores: LinkedList<S>,
}

/// Moments of runs, in the order of time: one when a line begins, and one when its call is done, before its reply is
/// written. No memory holds them.
#[derive(Drop)]
pub struct Moments<S> {
    noted: Record<Moment<S>>,
}

impl<S> Model for Moments<S> {
    ghost use Rattle.std.specs.Prelude.{List};
    ghost use Rattle.script_run.specs.declared.moments.Moment.{Moment};

    ghost Value = { List (Moment S) };

    ghost view = { λ m. m.noted.events };
}

impl<S> Moments<S> {
    /// None so far.
    pub fn new() -> Moments<S>
        ensures { result ≡ [] }
    {
        Moments {
            noted: Record::new(),
        }
    }
}

impl<S: ForkStore> Moments<S> {
    /// Notes what the writer has taken by now, and the stores as they are now.
    pub(crate) fn note<W>(&mut self, writer: &Counted<W>, machine: &Machine<S>)
        ensures { self.new ≡ self.old ++ moment writer.now.passed (stores_of machine.now) ∷ [] }
    {
        self.noted = Record::of_events_beside(&self.noted, writer, machine);
    }
}
