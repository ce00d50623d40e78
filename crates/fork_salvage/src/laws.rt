//! What is read of a fork that isn't damaged.

ghost use Rattle.fork_salvage.specs.Laws.{ShowsTable};

/// Of a fork that `fork_bytes::read_fork` reads, the items are the rows of its table, each once. It computes nothing.
#[tactic(auto, using(crate::proofs::Told::shows_table))]
pub fn salvage_laws()
    ensures { ShowsTable }
{}
