//! The call that opens a file.

ghost use Rattle.std.specs.Prelude.{◌≡◌, ◌≤◌, IfOk, OnErr, IsFalse, length};
ghost use Rattle.mac_base.specs.ZoneState.{ZoneState};
ghost use Rattle.res_manager.specs.Crash.{OpensFork};
ghost use Rattle.res_manager.specs.Ends.{OpensFile};
ghost use Rattle.res_table.specs.OpenFiles.{is_open};

use fork_disk::store::ForkStore;
use mac_base::error::HostFull;
use mac_base::{Outcome, Results};
use res_files::ResourceFiles;

/// Opens the file of a number, which isn't open.
pub(crate) fn open<S: ForkStore>(
    files: &mut ResourceFiles<S>,
    number: u8,
) -> Result<Outcome, HostFull>
    requires there { (1 ≤ number) × (number ≤ length files.old.stores) }
    requires closed { IsFalse (is_open number files.old.files) }
    ensures opened { IfOk result (λ outcome. (zone : ZoneState) → OpensFile S.ForkStore zone files.old number outcome files.new) }
    ensures full { OnErr result (files.new.files ≡ files.old.files) }
    ensures opens { OpensFork S.ForkStore number files.old.stores files.new.stores result }
    ensures loads { files.new.loads ≡ files.old.loads }
    ensures count { length files.new.stores ≡ length files.old.stores }
{
    match files.open(number)? {
        Ok(()) => Ok(Ok(Results::Number(number as u32))),
        Err(code) => Ok(Err(code)),
    }
}
