//! What is read from the disks.

ghost use Rattle.std.specs.Prelude.{◌≡◌, ◌+◌, ◌<◌, ◌≤◌, length, IfSome, MatchResult, OnErr, OnOk};
ghost use Rattle.fork_disk.specs.Disk.{bytes_at};
ghost use Rattle.res_table.specs.OpenFiles.{row_at};
ghost use Rattle.res_update.specs.Answered.{AnswersFor};
ghost use Rattle.res_files.specs.FilesOn.{FailedAt, HonestAt, NoneFailed};
ghost use Rattle.res_files.specs.Stores.{KeepsStores};

use crate::files::ResourceFiles;
use fork_disk::disk::DiskFault;
use fork_disk::store::ForkStore;
use res_table::chain::RowPlace;

impl<S: ForkStore> ResourceFiles<S> {
    /// Reads the bytes that the row at a place has on the disk: none are read where it has none. After a fault the
    /// buffer holds any bytes.
    pub fn read(&mut self, place: RowPlace, buffer: &mut [u8]) -> Result<(), DiskFault>
        requires long { IfSome (row_at place self.old.files) (λ r. length buffer.old ≡ length r.resource.datum) }
        ensures reads { HonestAt S.is_honest self.new.stores place.file → OnOk result (IfSome (row_at place self.old.files) (λ r. buffer.new ≡ r.resource.datum)) }
        ensures keeps { KeepsStores S.ForkStore self.old.stores self.new.stores }
        ensures length { length buffer.new ≡ length buffer.old }
        ensures files { AnswersFor (HonestAt S.is_honest self.new.stores) self.old.files self.new.files }
        ensures loads { self.new.loads ≡ self.old.loads }
        ensures count { length self.new.stores ≡ length self.old.stores }
        ensures cause { MatchResult result (λ _. NoneFailed S.failures self.old.stores self.new.stores)
            (λ _. FailedAt S.failures place.file self.old.stores self.new.stores) }
    {
        self.read_part(place, 0, buffer)
    }

    /// Reads as many bytes as the buffer holds of those that the row at a place has on the disk, from an offset on:
    /// none are read into an empty buffer. After a fault the buffer holds any bytes.
    pub fn read_part(
        &mut self,
        place: RowPlace,
        offset: u32,
        buffer: &mut [u8],
    ) -> Result<(), DiskFault>
        requires within { IfSome (row_at place self.old.files) (λ r. offset + length buffer.old ≤ length r.resource.datum) }
        ensures reads { HonestAt S.is_honest self.new.stores place.file
            → OnOk result (IfSome (row_at place self.old.files) (λ r. buffer.new ≡ bytes_at (length buffer.old) offset r.resource.datum)) }
        ensures keeps { KeepsStores S.ForkStore self.old.stores self.new.stores }
        ensures length { length buffer.new ≡ length buffer.old }
        ensures some { OnErr result (0 < length buffer.old) }
        ensures files { AnswersFor (HonestAt S.is_honest self.new.stores) self.old.files self.new.files }
        ensures loads { self.new.loads ≡ self.old.loads }
        ensures count { length self.new.stores ≡ length self.old.stores }
        ensures cause { MatchResult result (λ _. NoneFailed S.failures self.old.stores self.new.stores)
            (λ _. FailedAt S.failures place.file self.old.stores self.new.stores) }
    {
        let Some(row) = self.chain.row(place) else {
            return Ok(());
        };
        if buffer.is_empty() {
            return Ok(());
        }
        let start = row.resource.datum.offset as u64 + offset as u64;
        let store = &mut self.stores[place.file as usize - 1];
        store.read_at(start, buffer)
    }
}
