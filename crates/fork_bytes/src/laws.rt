//! What reading and writing are to each other.

ghost use Rattle.fork_bytes.specs.declared.layout.Limits.{Limits};
ghost use Rattle.fork_bytes.specs.Laws.{IsReadAgain, IsReadAgainWithin, ArePlacesLow, StandsForOne, IsReadGrouped, IsReadGroupedWithin, IsReadWhole, IsReadWholeWithin};

/// The laws of forks and tables: the written form of a table stands for it, no bytes stand for two tables, what bytes
/// stand for is grouped by type and may be written again, and 16,777,216 bytes of data have no datum too far from their
/// start. It computes nothing.
pub fn fork_laws()
    ensures read_again { IsReadAgain }
    ensures one { StandsForOne }
    ensures grouped { IsReadGrouped }
    ensures whole { IsReadWhole }
    ensures read_again_within { IsReadAgainWithin }
    ensures places { ArePlacesLow }
    ensures grouped_within { (limits : Limits) → IsReadGroupedWithin limits }
    ensures whole_within { (limits : Limits) → IsReadWholeWithin limits }
{}
