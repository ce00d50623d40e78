//! A resource file is written.

ghost use Rattle.std.specs.Prelude.{◌≡◌, ◌↔◌, length, IsTrue, IsFalse, OnOk, IfSome, IsErrOf};
ghost use Rattle.res_table.specs.OpenFiles.{is_open, rows_changed, file_closed, table_of};
ghost use Rattle.res_update.specs.Answered.{AnswersFor};
ghost use Rattle.res_update.specs.Changes.{rows_of};
ghost use Rattle.res_update.specs.Updates.{fits_fork};
ghost use Rattle.res_update.specs.Selected.{updated, reads_lent};
ghost use Rattle.res_files.specs.FilesOn.{FailedAt, HonestAt, NoneFailed};
ghost use Rattle.res_files.specs.Crash.{OthersStay};
ghost use Rattle.res_files.specs.Stores.{UpdatesStore};

use crate::files::ResourceFiles;
use crate::placing::place_rows;
use fork_disk::store::{ForkStore, ReplaceFault};
use res_update::contents::Contents;
use res_update::fault::UpdateFault;
use res_update::selection::Selection;
use res_update::write_table;

/// Whether the device failed after the first write.
fn is_later(fault: UpdateFault) -> bool
    ensures { IsTrue result ↔ (fault ≡ UpdateFault.Device ReplaceFault.Later) }
{
    matches!(fault, UpdateFault::Device(ReplaceFault::Later))
}

impl<S: ForkStore> ResourceFiles<S> {
    /// Writes the file of a number anew, which is open. The selected rows have the bytes of their handles then, and are
    /// no longer changed; all others keep what they have on the disk. The new fork stands for the table: it is read as
    /// it. TooBig comes exactly where no fork holds the table. Where the device failed after the first write, the file
    /// is closed; in any other case of an error nothing is changed.
    pub fn update<C: Contents>(
        &mut self,
        number: u8,
        selection: Selection,
        contents: &C,
    ) -> Result<(), UpdateFault>
        requires open { IsTrue (is_open number self.old.files) }
        requires unlent { IsFalse (reads_lent (C.table contents.now) selection (rows_of number self.old.files)) }
        ensures rows { OnOk result (IfSome (table_of number self.old.files) (λ table.
            AnswersFor (HonestAt S.is_honest self.new.stores)
            (rows_changed number (λ _. (updated (C.table contents.now) selection table).rows) self.old.files) self.new.files)) }
        ensures too_big { IfSome (table_of number self.old.files) (λ table.
            IsErrOf result UpdateFault.TooBig ↔ IsFalse (fits_fork (updated (C.table contents.now) selection table))) }
        ensures untouched { IsErrOf result UpdateFault.TooBig → self.new ≡ self.old }
        ensures unasked { IsErrOf result UpdateFault.HostFull → self.new ≡ self.old }
        ensures before { IsErrOf result (UpdateFault.Device ReplaceFault.BeforeFirstWrite)
            → AnswersFor (HonestAt S.is_honest self.new.stores) self.old.files self.new.files }
        ensures closed { IsErrOf result (UpdateFault.Device ReplaceFault.Later)
            → self.new.files ≡ file_closed number self.old.files }
        ensures updates { HonestAt S.is_honest self.new.stores number → UpdatesStore S.ForkStore number
            (updated (C.table contents.now) selection) self.old.files self.old.stores self.new.stores result }
        ensures others { OthersStay number self.old.stores self.new.stores }
        ensures loads { self.new.loads ≡ self.old.loads }
        ensures count { length self.new.stores ≡ length self.old.stores }
        ensures none { OnOk result (NoneFailed S.failures self.old.stores self.new.stores) }
        ensures cause { IsErrOf result (UpdateFault.Device ReplaceFault.BeforeFirstWrite)
            → FailedAt S.failures number self.old.stores self.new.stores }
        ensures cause_later { IsErrOf result (UpdateFault.Device ReplaceFault.Later)
            → FailedAt S.failures number self.old.stores self.new.stores }
    {
        let table = self.chain.table(number).unwrap();
        let store = &mut self.stores[number as usize - 1];
        match write_table(self.alloc, store, table, selection, contents) {
            Ok(places) => {
                place_rows(&mut self.chain, number, selection, &places);
                Ok(())
            }
            Err(fault) => {
                if is_later(fault) {
                    drop(self.chain.close(number));
                }
                Err(fault)
            }
        }
    }
}
