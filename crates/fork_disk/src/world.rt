//! What is supposed of a file that is opened.

ghost use Rattle.std.specs.Prelude.{List, [], ℕ};
ghost use Rattle.fork_disk.specs.Record.{Event};

/// What files held after each of the calls on them, and what a crash there might have left. No code can know either, so
/// a function over `W: World` is proved for each world that there may be. Each file has a number of its own: two of one
/// number would be the same file.
pub trait World: Drop {
    /// The bytes of the file of a number after these calls, of which the newest comes first.
    ghost held: { ℕ → List Event → List ℕ };

    /// The bytes that a crash after these calls may leave.
    ghost may_leave: { ℕ → List Event → List ℕ → Type 0 };
}

/// The world that a program names where it has to name one. Of it alone nothing is known but that its files are empty.
#[derive(Drop)]
pub struct Unknown;

impl World for Unknown {
    ghost held = { λ _ _. [] };

    ghost may_leave = { λ _ _ _. ⊥ };
}
