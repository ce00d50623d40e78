//! How a run ends.

ghost use Rattle.std.specs.Prelude.{◌≡◌};
ghost use Rattle.script_run.specs.End.{status_of};

use script_text::Wrong;

/// How a run ended.
#[derive(Clone, Copy, Debug, PartialEq, Eq)]
pub enum RunEnd {
    /// All lines were run.
    Finished,
    /// This line is the first that is none; 0 for a script that is too long. Nothing was run.
    ScriptFault(u32, Wrong),
    /// The host had no memory.
    NoMemory,
    /// The reader failed.
    ReadFault,
    /// The writer failed, or took nothing.
    WriteFault,
}

/// The exit status of a run that ended so.
pub fn status(end: RunEnd) -> u8
    ensures { result ≡ status_of end }
{
    match end {
        RunEnd::Finished => 0,
        RunEnd::NoMemory | RunEnd::ReadFault | RunEnd::WriteFault => 1,
        RunEnd::ScriptFault(_, _) => 3,
    }
}
