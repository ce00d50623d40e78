//! A file that is to be changed, opened and read once.

ghost use Rattle.std.specs.Prelude.{◌≡◌, IfOk, false, is_some, true};
ghost use Rattle.file_acts.specs.Acts.{WritesNothing};
ghost use Rattle.file_acts.specs.Saved.{ShowsSaved};
ghost use Rattle.fork_saves.specs.Changing.{HoldsFile, IsJustRead, IsOpenedFor, OpensSource, is_elsewhere, is_held, source_bytes};

use crate::save::open_held;
use file_acts::acts::Acts;
use file_acts::host::Host;
use file_acts::input::{read, read_held};
use file_acts::message::Problem;
use file_replace::Held;
use fork_words::work::Target;

/// A file that is to be changed, and its bytes.
#[derive(Drop)]
pub enum Source {
    /// What comes of it goes elsewhere, or nothing is written.
    Read(Vec<u8>),
    /// It is locked until it is replaced.
    Held(Held, Vec<u8>),
}

/// Whether the file that is read isn't written: another one is, or none.
fn is_elsewhere(target: &Target<'_>) -> bool
    ensures is { result ≡ is_elsewhere target.now }
    ensures here { result ≡ false → target.now.is_dry ≡ false }
{
    target.is_dry || target.output.is_some()
}

impl Source {
    /// Opens the file of a target, and reads it: where it is to be replaced, it is locked before. `Problem::Replace` or
    /// `Problem::Read` comes where it isn't opened or read.
    pub fn open(host: &Host<'_>, target: &Target<'_>, acts: &mut Acts) -> Result<Source, Problem>
        ensures does { OpensSource target.now result acts.old.events acts.new.events }
        ensures place { IfOk result (IsOpenedFor target.now) }
        ensures just { IfOk result (λ source. IsJustRead source acts.new.events) }
        ensures dry { target.now.is_dry ≡ true → WritesNothing acts.old.events acts.new.events }
        ensures seen { ShowsSaved acts.old.events acts.new.events }
    {
        if is_elsewhere(target) {
            Ok(Source::Read(read(host, target.file, acts)?))
        } else {
            Source::hold(host, target.file, acts)
        }
    }

    /// Locks the file of a path, and reads it.
    fn hold(host: &Host<'_>, path: &str, acts: &mut Acts) -> Result<Source, Problem>
        ensures does { HoldsFile path.now result acts.old.events acts.new.events }
        ensures held { IfOk result (λ source. is_held source ≡ true) }
        ensures just { IfOk result (λ source. IsJustRead source acts.new.events) }
        ensures seen { ShowsSaved acts.old.events acts.new.events }
    {
        let held = open_held(host, path, acts)?;
        let bytes = read_held(host, held.file(), acts)?;
        Ok(Source::Held(held, bytes))
    }

    /// The bytes that were read.
    pub fn bytes(&self) -> &[u8]
        ensures { result.now ≡ source_bytes self.now }
    {
        match self {
            Source::Read(bytes) => bytes.as_slice(),
            Source::Held(_, bytes) => bytes.as_slice(),
        }
    }
}
