//! The file that is named to be written, or else the standard output.

ghost use Rattle.std.specs.Prelude.{◌≡◌, IfOk, is_none, true};
ghost use Rattle.file_acts.specs.Acts.{ReadsNothing};
ghost use Rattle.fork_shows.specs.Written.{IsWritten};

use file_acts::acts::{Acts, print};
use file_acts::host::Host;
use file_acts::message::Problem;
use fork_saves::save::save_to;

/// Writes bytes to the file of this name, or to the standard output.
pub fn write_to(
    host: &Host<'_>,
    output: Option<&str>,
    bytes: &[u8],
    acts: &mut Acts,
) -> Result<(), Problem>
    ensures quiet { is_none output.entry ≡ true → ReadsNothing acts.old.events acts.new.events }
    ensures written { IfOk result (λ _. IsWritten output.entry bytes.now acts.new.events) }
{
    match output {
        Some(path) => save_to(host, path, bytes, acts),
        None => print(host, bytes, acts),
    }
}
