//! A resource file is opened.

ghost use Rattle.std.specs.Prelude.{◌≡◌, ◌≤◌, ◌⊎◌, length, IsFalse, IfOk, IfErr, OnOk, OnErr, Ok, Err};
ghost use Rattle.res_table.specs.OpenFiles.{is_open, file_opened};
ghost use Rattle.res_update.specs.Changes.{FileTable};
ghost use Rattle.res_files.specs.FilesOn.{fork_of, FailedAt, HonestAt, NoneFailed};
ghost use Rattle.res_files.specs.Crash.{OthersStay};
ghost use Rattle.res_files.specs.Opening.{MayRead};
ghost use Rattle.res_files.specs.Stores.{OpensStore};

use crate::files::ResourceFiles;
use crate::tables::{code_of, read_table};
use fork_disk::store::ForkStore;
use mac_base::error::{HostFull, OsErr};

impl<S: ForkStore> ResourceFiles<S> {
    /// Opens the file of a number, which isn't open, after the others, and makes it the current one. Without bytes it
    /// has no resources. The code is eofErr where there are fewer than 16, mapReadErr where they are no fork, and ioErr
    /// where the device failed; then, and without host memory, no file is opened.
    pub fn open(&mut self, number: u8) -> Result<Result<(), OsErr>, HostFull>
        requires there { (1 ≤ number) × (number ≤ length self.old.stores) }
        requires closed { IsFalse (is_open number self.old.files) }
        ensures opened { IfOk result (λ done. OnOk done ((table : FileTable)
            × MayRead (HonestAt S.is_honest self.new.stores number) (fork_of S.fork number self.old.stores) (Ok table)
            × (self.new.files ≡ file_opened number table self.old.files))) }
        ensures refused { IfOk result (λ done. IfErr done (λ code.
            (MayRead (HonestAt S.is_honest self.new.stores number) (fork_of S.fork number self.old.stores) (Err code) × NoneFailed S.failures self.old.stores self.new.stores)
            ⊎ ((code ≡ OsErr.IoErr) × FailedAt S.failures number self.old.stores self.new.stores))) }
        ensures works { IfOk result (λ done. OnOk done (NoneFailed S.failures self.old.stores self.new.stores)) }
        ensures same { IfOk result (λ done. OnErr done (self.new.files ≡ self.old.files)) }
        ensures full { OnErr result (self.new.files ≡ self.old.files) }
        ensures opens { HonestAt S.is_honest self.new.stores number → OpensStore S.ForkStore number self.old.stores self.new.stores result }
        ensures others { OthersStay number self.old.stores self.new.stores }
        ensures loads { self.new.loads ≡ self.old.loads }
        ensures count { length self.new.stores ≡ length self.old.stores }
    {
        let store = &mut self.stores[number as usize - 1];
        let table = match read_table(self.alloc, store) {
            Ok(table) => table,
            Err(fault) => return Ok(Err(code_of(fault)?)),
        };
        self.chain.open(number, table)?;
        Ok(Ok(()))
    }
}
