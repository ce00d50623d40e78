//! What changes are to each other.

ghost use Rattle.fork_change.specs.Laws.{IsFoundPut, KeepsOthers, IsRemovedPut, IsSetBack, IsMovedBack, IsNoDifference, IsApplied, KeepsTables};

/// The laws of changes: what is put is found, and all others stay; what is put where nothing was and removed leaves the
/// table as it was; what is set is set back; no row differs exactly where each type and id has the same rows, and what
/// differs makes one of the other; and what comes of a table is a table. It computes nothing.
pub fn change_laws()
    ensures found { IsFoundPut }
    ensures others { KeepsOthers }
    ensures removed { IsRemovedPut }
    ensures back { IsSetBack }
    ensures moved { IsMovedBack }
    ensures same { IsNoDifference }
    ensures applied { IsApplied }
    ensures tables { KeepsTables }
{}
