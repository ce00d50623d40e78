//! What is ready to be written.

ghost use Rattle.std.specs.Prelude.{◌≢◌, codes};

use file_replace::{Prepared, UnknownFolder};

/// A file that lies beside its path, ready to be put there.
#[derive(Drop)]
pub(crate) struct ReadyFile<'a> {
    pub(crate) path: &'a str,
    pub(crate) prepared: Prepared<'a, UnknownFolder>,
    ghost named: { path.now ≢ codes "-" },
}

/// Bytes that are ready to be written.
#[derive(Drop)]
pub(crate) enum Ready<'a> {
    /// To the standard output.
    Output(&'a [u8]),
    /// As a file.
    File(ReadyFile<'a>),
}
