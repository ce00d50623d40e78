//! The text of a table says that table.

ghost use Rattle.fork_rez.specs.Laws.{IsReadAgain};

/// The text of a table is read as that table. It computes nothing.
pub fn rez_laws()
    ensures again { IsReadAgain }
{}
