//! What is purged in a call, and before it.

ghost use Rattle.mem_calls.specs.Purges.{EmptiedIsExact, InTurnIsExact, NoneIsPurged, ReadyIsExact};

/// A call that purges does what it does where the handle that it would purge first is emptied by EmptyHandle before it,
/// and so each of them in turn. Where it would purge none, it purges none. It computes nothing.
pub fn purge_laws()
    ensures ready_is_exact { ReadyIsExact }
    ensures emptied_is_exact { EmptiedIsExact }
    ensures in_turn_is_exact { InTurnIsExact }
    ensures none_is_purged { NoneIsPurged }
{}
