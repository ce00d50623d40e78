//! What files that were put are worth after a crash.

ghost use Rattle.fork_saves.specs.Lasting.{PutFilesLast};

/// A file that was put with a good end is there, also after a crash, if the host is honest. It computes nothing.
pub fn save_laws()
    ensures { PutFilesLast }
{}
