//! A file of the system, each call of which is noted.

ghost use Rattle.std.specs.Prelude.{◌≡◌, ◌∷◌, true, false, length, OnOk, OnErr};
ghost use Rattle.fork_disk.specs.Record.{cut_event, len_event, read_event, sync_event, write_event};

use crate::disk::DiskFault;
use crate::record::FileCalls;
use std::fs::File;
use std::os::unix::fs::FileExt;

const MEASURED: u64 = 0;

const READ: u64 = 1;

const WRITTEN: u64 = 2;

const CUT: u64 = 3;

const SYNCED: u64 = 4;

/// A file of the system. Nothing is claimed of its bytes. Each call is noted with its answer, and with which file it was
/// of those that share a record. A read that ends past the end has failed.
#[derive(Drop)]
pub struct HostFile {
    file: File,
    /// It was synced since it was opened, before anything was noted of it. Only clauses read it.
    was_synced: bool,
    /// A sync of `settle` has failed.
    is_spent: bool,
    /// Which of the files it is that share a record. Only clauses read it.
    which: u64,
}

impl HostFile {
    /// A file that is open, and wasn't synced since. No sync of `settle` has failed.
    pub fn new(file: File) -> HostFile
        ensures file { result.file ≡ file }
        ensures unsynced { result.was_synced ≡ false }
        ensures unspent { result.is_spent ≡ false }
        ensures which { result.which ≡ 0 }
    {
        HostFile {
            file,
            was_synced: false,
            is_spent: false,
            which: 0,
        }
    }

    /// The same file, and whether it was synced since it was opened.
    pub fn having_synced(self, was_synced: bool) -> HostFile
        ensures { result ≡ record self { was_synced = was_synced } }
    {
        HostFile { was_synced, ..self }
    }

    /// The same file, with a number of its own among those that share a record.
    pub fn numbered(self, which: u64) -> HostFile
        ensures { result ≡ record self { which = which } }
    {
        HostFile { which, ..self }
    }

    /// How many bytes there are.
    pub fn len(&self, log: &mut FileCalls) -> Result<u64, DiskFault>
        ensures { log.new.events ≡ len_event self.now.which result ∷ log.old.events }
    {
        match self.file.metadata() {
            Ok(metadata) => {
                let len = metadata.len();
                log.note(&[MEASURED, len, 1, self.which], &[]);
                Ok(len)
            }
            Err(_) => {
                log.note(&[MEASURED, 0, 0, self.which], &[]);
                Err(DiskFault)
            }
        }
    }

    /// Fills the buffer with the bytes at an offset.
    pub fn read_at(&self, at: u64, buffer: &mut [u8], log: &mut FileCalls) -> Result<(), DiskFault>
        ensures long { length buffer.new ≡ length buffer.old }
        ensures noted { log.new.events ≡ read_event self.now.which at buffer.new result ∷ log.old.events }
    {
        let answer = self.file.read_exact_at(buffer, at).map_err(|_| DiskFault);
        match answer {
            Ok(()) => log.note(&[READ, at, 1, self.which], buffer),
            Err(_) => log.note(&[READ, at, 0, self.which], &[]),
        }
        answer
    }

    /// Writes over what is there, and past the end.
    pub fn write_at(&self, at: u64, bytes: &[u8], log: &mut FileCalls) -> Result<(), DiskFault>
        ensures { log.new.events ≡ write_event self.now.which at bytes.now result ∷ log.old.events }
    {
        let answer = self.file.write_all_at(bytes, at).map_err(|_| DiskFault);
        log.note(&[WRITTEN, at, u64::from(answer.is_ok()), self.which], bytes);
        answer
    }

    /// Cuts the bytes to a length, or grows them to it.
    pub fn cut(&self, len: u64, log: &mut FileCalls) -> Result<(), DiskFault>
        ensures { log.new.events ≡ cut_event self.now.which len result ∷ log.old.events }
    {
        let answer = self.file.set_len(len).map_err(|_| DiskFault);
        log.note(&[CUT, len, u64::from(answer.is_ok()), self.which], &[]);
        answer
    }

    /// Makes what was written stable.
    pub fn sync(&self, log: &mut FileCalls) -> Result<(), DiskFault>
        ensures { log.new.events ≡ sync_event self.now.which result ∷ log.old.events }
    {
        let answer = self.file.sync_all().map_err(|_| DiskFault);
        log.note(&[SYNCED, 0, u64::from(answer.is_ok()), self.which], &[]);
        answer
    }

    /// The same, for one who counts on all that was written so far. Where a sync fails, the system may drop what waited
    /// for it, and still answer the next one as done. So after one that failed each fails, and no call of the system is
    /// made; it is noted as one that failed.
    pub fn settle(&mut self, log: &mut FileCalls) -> Result<(), DiskFault>
        ensures trusted { OnOk result (self.old.is_spent ≡ false) }
        ensures still { OnOk result (self.new.is_spent ≡ false) }
        ensures spent { OnErr result (self.new.is_spent ≡ true) }
        ensures which { self.new.which ≡ self.old.which }
        ensures synced { self.new.was_synced ≡ self.old.was_synced }
        ensures noted { log.new.events ≡ sync_event self.old.which result ∷ log.old.events }
    {
        if self.is_spent {
            log.note(&[SYNCED, 0, 0, self.which], &[]);
            return Err(DiskFault);
        }
        let answer = self.sync(log);
        self.is_spent = answer.is_err();
        answer
    }
}
