//! No two resources are unpacked to one file, file systems take the names, and what was unpacked is packed again.

ghost use Rattle.fork_folder.specs.Json.{IsReadBack};
ghost use Rattle.fork_folder.specs.Laws.{AreSafe, IsOneToOne};
ghost use Rattle.fork_folder.specs.Manifest.{IsForkReadAgain, IsReadAgain};
ghost use Rattle.fork_folder.specs.PackedAgain.{IsPackedAgain};

/// Each resource has a path of its own, for a file system that has no regard to case too, and names that file systems
/// take. It computes nothing.
pub fn folder_laws()
    ensures own { IsOneToOne }
    ensures safe { AreSafe }
{}

/// The files that the rows of a fork are unpacked to, packed again by what their manifest says, are those rows. The
/// manifest says of a resource, and of a fork, what it says of no other, and its JSON is read as what was written. It
/// computes nothing.
pub fn pack_laws()
    ensures again { IsPackedAgain }
    ensures same { IsReadAgain }
    ensures fork { IsForkReadAgain }
    ensures back { IsReadBack }
{}
