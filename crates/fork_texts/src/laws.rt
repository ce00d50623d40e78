//! What lines are to texts, and what becomes of a table by its own lines.

ghost use Rattle.fork_texts.specs.Laws.{IsReadAgain, IsUnchanged};

/// Lines that were written are read again, and a table stays as it is by the lines of its texts. It computes nothing.
pub fn line_laws()
    ensures again { IsReadAgain }
    ensures unchanged { IsUnchanged }
{}
