//! A fork and its journal that are two files.

ghost use Rattle.std.specs.Prelude.{◌≡◌, ◌∷◌, false, [], OnOk};
ghost use Rattle.fork_disk.specs.Disk.{Counts};
ghost use Rattle.fork_disk.specs.Record.{cut_event, failed_calls, len_event, read_event, sync_event, write_event};
ghost use Rattle.fork_journal.specs.Crash.{has_failed};
ghost use Rattle.fork_journal.specs.declared.pair.Side.TheVariants.{Fork, Journal};
ghost use Rattle.fork_journal.specs.Files.{file_on, history_of, reads_outcome, side_at};
ghost use Rattle.fork_journal.specs.OnPair.{CutsSide, MeasuresSide, ReadsSide, SyncsSide, WritesSide};

use crate::pair::{PairDisk, Side};
use crate::pair_world::PairWorld;
use fork_disk::disk::DiskFault;
use fork_disk::{FileCalls, HostFile};
use std::marker::PhantomData;

/// A fork and its journal that are two files. Each call of the system is noted with its answer, in one record for both,
/// that only clauses read. The pair is honest where both files were synced once they were open, and these answers are
/// those of the files in its world, so that nobody else wrote them. The two are one device: it has failed as often as
/// calls in the record have, and a machine that stops, stops both. After a sync that failed, each sync of that file
/// fails.
#[derive(Drop)]
pub struct FilePair<W: PairWorld> {
    fork: HostFile,
    journal: HostFile,
    /// In which run of the world it was opened. Only clauses read it.
    run: u64,
    /// Which pair of that run it is. Only clauses read it.
    number: u64,
    log: FileCalls,
    world: PhantomData<W>,
    ghost sides: { (side_at fork.which ≡ Fork) × (side_at journal.which ≡ Journal) },
    ghost fork_trusted: { fork.is_spent ≡ false → has_failed Fork (history_of (W.held run number) log.events) ≡ false },
    ghost journal_trusted: { journal.is_spent ≡ false → has_failed Journal (history_of (W.held run number) log.events) ≡ false },
}

impl<W: PairWorld> FilePair<W> {
    ghost use Rattle.fork_journal.specs.Crash.{Leaves};
    ghost use Rattle.fork_journal.specs.OnFiles.{contents_in, history_in};

    /// The pair of two files, which must not be the same one, and of which nothing was asked since they were opened, but
    /// that each was synced. No other pair of this run may have its number.
    pub fn new(fork: HostFile, journal: HostFile, run: u64, number: u64) -> FilePair<W>
        ensures fork { result.fork ≡ record fork { which = 0 } }
        ensures journal { result.journal ≡ record journal { which = 1 } }
        ensures run { result.run ≡ run }
        ensures number { result.number ≡ number }
        ensures start { result.log.events ≡ [] }
        ensures settled { Leaves (λ c. c ≡ contents_in W.PairWorld result) (history_in W.PairWorld result) }
    {
        FilePair {
            fork: fork.numbered(0),
            journal: journal.numbered(1),
            run,
            number,
            log: FileCalls::new(),
            world: PhantomData,
        }
    }
}

impl<W: PairWorld> PairDisk for FilePair<W> {
    ghost use Rattle.fork_journal.specs.OnFiles.{IsHonestIn, contents_in, history_in};

    ghost contents = { contents_in W.PairWorld };

    ghost history = { history_in W.PairWorld };

    ghost is_honest = { IsHonestIn W.PairWorld };

    ghost failures = { λ pair. failed_calls pair.log.events };

    ghost reads_is_outcome = { λ pair honest. reads_outcome (W.held pair.run pair.number) pair.log.events honest.answers };

    fn len(&mut self, side: Side) -> Result<u64, DiskFault>
        ensures measures { IsHonestIn W.PairWorld self.new → MeasuresSide (contents_in W.PairWorld) (history_in W.PairWorld) (IsHonestIn W.PairWorld) self.old self.new side result }
        ensures cause { Counts (failed_calls self.old.log.events) (failed_calls self.new.log.events) result }
        ensures noted { self.new.log.events ≡ len_event (file_on side self.old.fork self.old.journal).which result ∷ self.old.log.events }
    {
        match side {
            Side::Fork => self.fork.len(&mut self.log),
            Side::Journal => self.journal.len(&mut self.log),
        }
    }

    fn read_at(&mut self, side: Side, at: u64, buffer: &mut [u8]) -> Result<(), DiskFault>
        ensures reads { IsHonestIn W.PairWorld self.new → ReadsSide (contents_in W.PairWorld) (history_in W.PairWorld) (IsHonestIn W.PairWorld) self.old self.new side at buffer.old buffer.new result }
        ensures cause { Counts (failed_calls self.old.log.events) (failed_calls self.new.log.events) result }
        ensures noted { self.new.log.events ≡ read_event (file_on side self.old.fork self.old.journal).which at buffer.new result ∷ self.old.log.events }
    {
        match side {
            Side::Fork => self.fork.read_at(at, buffer, &mut self.log),
            Side::Journal => self.journal.read_at(at, buffer, &mut self.log),
        }
    }

    fn write_at(&mut self, side: Side, at: u64, bytes: &[u8]) -> Result<(), DiskFault>
        ensures writes { IsHonestIn W.PairWorld self.new → WritesSide (contents_in W.PairWorld) (history_in W.PairWorld) (IsHonestIn W.PairWorld) self.old self.new side at bytes.now result }
        ensures cause { Counts (failed_calls self.old.log.events) (failed_calls self.new.log.events) result }
        ensures noted { self.new.log.events ≡ write_event (file_on side self.old.fork self.old.journal).which at bytes.now result ∷ self.old.log.events }
    {
        match side {
            Side::Fork => self.fork.write_at(at, bytes, &mut self.log),
            Side::Journal => self.journal.write_at(at, bytes, &mut self.log),
        }
    }

    fn cut(&mut self, side: Side, len: u64) -> Result<(), DiskFault>
        ensures cuts { IsHonestIn W.PairWorld self.new → CutsSide (contents_in W.PairWorld) (history_in W.PairWorld) (IsHonestIn W.PairWorld) self.old self.new side len result }
        ensures cause { Counts (failed_calls self.old.log.events) (failed_calls self.new.log.events) result }
        ensures noted { self.new.log.events ≡ cut_event (file_on side self.old.fork self.old.journal).which len result ∷ self.old.log.events }
    {
        match side {
            Side::Fork => self.fork.cut(len, &mut self.log),
            Side::Journal => self.journal.cut(len, &mut self.log),
        }
    }

    /// Makes a side stable. After one that succeeded, the system is asked for the next one too.
    fn sync(&mut self, side: Side) -> Result<(), DiskFault>
        ensures syncs { IsHonestIn W.PairWorld self.new → SyncsSide (contents_in W.PairWorld) (history_in W.PairWorld) (IsHonestIn W.PairWorld) self.old self.new side result }
        ensures cause { Counts (failed_calls self.old.log.events) (failed_calls self.new.log.events) result }
        ensures noted { self.new.log.events ≡ sync_event (file_on side self.old.fork self.old.journal).which result ∷ self.old.log.events }
        ensures run { self.new.run ≡ self.old.run }
        ensures number { self.new.number ≡ self.old.number }
        ensures still { OnOk result ((file_on side self.new.fork self.new.journal).is_spent ≡ false) }
    {
        match side {
            Side::Fork => self.fork.settle(&mut self.log),
            Side::Journal => self.journal.settle(&mut self.log),
        }
    }
}
