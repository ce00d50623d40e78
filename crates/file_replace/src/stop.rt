//! A step of a replacement that failed, as it is reported.

ghost use Rattle.file_replace.specs.LeftBeside.{IsMadeLeft};

use crate::replacement::Step;
use std::io;
use std::path::PathBuf;

/// A step that failed.
#[derive(Debug, Drop)]
pub struct Stop {
    /// The step.
    pub step: Step,
    /// Why it failed.
    pub error: io::Error,
    /// The file that was made and couldn't be removed, if there is one.
    pub left: Option<PathBuf>,
    ghost made: { IsMadeLeft left },
}
