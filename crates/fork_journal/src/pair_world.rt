//! What is supposed of a pair of files that is opened.

ghost use Rattle.std.specs.Prelude.{ℕ, List, []};
ghost use Rattle.fork_disk.specs.Record.{Event};
ghost use Rattle.fork_journal.specs.Crash.{Contents};

/// What forks and their journals held after each of the calls on them. No code can know it, so a function over `W:
/// PairWorld` is proved for each world that there may be. Each run of a program has a number of its own, and each pair
/// that is opened in a run has one there: two of the same numbers would be the same pair in the same run.
pub trait PairWorld: Drop {
    /// By a run and a pair of it: the bytes of both files after these calls, of which the newest comes first.
    ghost held: { ℕ → ℕ → List Event → Contents };
}

/// The world that a program names where it has to name one. Of it alone nothing is known but that its files are empty.
#[derive(Drop)]
pub struct UnknownPair;

impl PairWorld for UnknownPair {
    ghost held = { λ _ _ _. record { fork = []; journal = [] } };
}
