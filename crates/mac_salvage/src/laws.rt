//! What is true of files that are read in spite of faults.

ghost use Rattle.mac_salvage.specs.Laws.{GoodTextIsKept, PlacesAreKept, WholeIsKept};

/// A file without a fault has the resource fork that is read elsewhere, and a text without wrong characters is read as
/// it is. No character changes its place.
pub fn salvage_laws()
    ensures whole { WholeIsKept }
    ensures good { GoodTextIsKept }
    ensures places { PlacesAreKept }
{}
