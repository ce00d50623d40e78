//! What is supposed of a path of the host.

ghost use Rattle.std.specs.Prelude.{List, None};
ghost use Rattle.file_replace.specs.Place.{Answered, Folder};

/// What a path had, and the name beside it, after each of the calls there. No code can know it, so a function over
/// `W: FolderWorld` is proved for each world that there may be. A function over two paths names a world for each.
pub trait FolderWorld: Drop {
    /// What the path has, and what is beside it, after these calls, of which the newest comes first.
    ghost held: { List Answered → Folder };
}

/// The world that a program names where it has to name one. Of it alone nothing is known but that there are no files.
#[derive(Drop)]
pub struct UnknownFolder;

impl FolderWorld for UnknownFolder {
    ghost held = { λ _. record { path = None; beside = None } };
}
