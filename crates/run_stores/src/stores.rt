//! The stores of a run.

ghost use Rattle.std.specs.Prelude.{◌≡◌, ◌≤◌, ◌++◌, ◌∷◌, [], List, ℕ, Result, Ok, length, map, IfOk, IfErr, OnOk};
ghost use Rattle.std.specs.Result.{result_map_both};
ghost use Rattle.fork_disk.specs.Crash.{Finds};
ghost use Rattle.run_stores.specs.Claiming.{AreNamed, Asking};
ghost use Rattle.run_stores.specs.Refusing.{IsOpening};
ghost use Rattle.run_stores.specs.declared.opened.Refusal.{Refusal};
ghost use Rattle.run_stores.specs.declared.stores.AnyStore.{AnyStore};
ghost use Rattle.run_stores.specs.declared.stores.AnyStore.TheVariants.{Alone, Journalled};
ghost use Rattle.run_stores.specs.Stores.{most_files};
ghost use Rattle.run_stores.specs.Stores.{AreJournalled, AreOn, ArePaired, ArePairs, ArePlain, Asked, IsOpened, Opening};

use crate::claimed::{Naming, open_claimed};
use crate::disk::Disk;
use crate::opened::{NewFile, OpenedFiles, Refusal, note};
use fork_disk::store::{ForkStore, PlainStore};
use fork_disk::{FileDisk, MemDisk, Record, World};
use fork_journal::{FilePair, Journal, PairWorld};
use host_paths::Found;
use std::alloc::{AllocError, AllocFailed, Global};

/// A store of a run: `S` of a fork alone, or `J` of a fork with its journal.
#[derive(Drop)]
pub enum AnyStore<S, J> {
    /// Of a fork alone.
    Alone(S),
    /// Of a fork with its journal.
    Journalled(J),
}

/// What opens the files of a run, and makes stores of them: `S` of a fork alone, and `J` of a fork with its journal.
pub trait Opens<F, S: ForkStore, J: ForkStore> {
    /// The files that were asked for so far, in order: the path of each, and the file, or why it can't be opened.
    ghost openings: { Self → List (List ℕ × Result F Refusal) };

    /// The stores that were closed so far, in order, each as it was then.
    ghost closed: { Self → List (AnyStore S J) };

    /// What is a store of this number of a fork, which is this file.
    ghost plain: { ℕ → F → S → Type 0 };

    /// What is a store of this number of a fork and its journal, which are these files.
    ghost pairs: { ℕ → F → F → J → Type 0 };

    /// What is asked of a file: the file itself, which one it is, and the calls of the system by which it was opened.
    ghost asking: { Asking F };

    /// The file of a path, which is made where it is missing, locked and synced, or why it can't be opened. One of those
    /// that were opened before it is locked already: where each may be named once, it is refused.
    fn open(&mut self, path: &str, naming: Naming, known: &[Found]) -> Result<F, Refusal>
        ensures noted { openings self.new ≡ openings self.old ++ (path.now, result) ∷ [] }
        ensures none_closed { closed self.new ≡ closed self.old }
        ensures opens { IsOpening asking naming known.now path.now result };

    /// Which file it is.
    fn id(&self, file: &F) -> Found
        ensures { result ≡ asking.id file.now };

    /// A store in memory, without bytes.
    fn in_memory(&self) -> S
        ensures fork { S.fork result ≡ [] }
        ensures ready { S.is_ready result }
        ensures honest { S.is_honest result };

    /// The store of a fork in a file. No other store of the run may have its number.
    fn plain(&self, fork: F, number: u64) -> S
        ensures { plain number fork result };

    /// The store of a fork and its journal, each in a file. No other store of the run may have its number.
    fn journalled(&self, fork: F, journal: F, number: u64) -> J
        ensures { pairs number fork journal result };

    /// Closes a store as it is.
    fn close(&mut self, store: AnyStore<S, J>)
        ensures closed { closed self.new ≡ closed self.old ++ store ∷ [] }
        ensures none_opened { openings self.new ≡ openings self.old };

    /// Until something happens to a store that was just made of two files, which were synced, a start finds its fork and
    /// no other.
    ghost starts: { (number : ℕ) (fork journal : F) (store : J) → pairs number fork journal store → Finds J.may_find (λ found. found ≡ J.fork store) (J.history store) };
}

/// Closes a store, and notes it as it is.
fn note_closed<T: Drop>(closed: &mut Record<T>, store: T)
    ensures { closed.new.events ≡ closed.old.events ++ store ∷ [] }
{
    *closed = Record::of_events_beside(closed, &store, &());
}

/// Opens the host's files, and disks in its memory. Each file that is asked for is noted, and each store that is closed,
/// in lists that only clauses read.
#[derive(Drop)]
pub struct HostDisks<'a, S, J> {
    runtime: &'a HostRuntime,
    /// Which run it is over files with journals, of those of a world. Only clauses read it.
    run: u64,
    opened: OpenedFiles,
    closed: Record<AnyStore<S, J>>,
}

impl<'a, S, J> HostDisks<'a, S, J> {
    /// Opens the files of this host in the run of this number. None was asked for so far, and no store closed.
    pub fn new(runtime: &'a HostRuntime, run: u64) -> HostDisks<'a, S, J>
        ensures run { result.run ≡ run }
        ensures none_opened { result.opened.events ≡ [] }
        ensures none_closed { result.closed.events ≡ [] }
    {
        HostDisks {
            runtime,
            run,
            opened: Record::new(),
            closed: Record::new(),
        }
    }
}

/// `W` says what the files of forks alone hold, and `V` what those with journals hold.
impl<W: World, V: PairWorld> Opens<NewFile, PlainStore<Disk<W>>, Journal<FilePair<V>>>
    for HostDisks<'_, PlainStore<Disk<W>>, Journal<FilePair<V>>> {
    ghost use Rattle.fork_journal.specs.Files.{none_other};
    ghost use Rattle.run_stores.specs.Disks.{IsFile};
    ghost use Rattle.run_stores.specs.Claiming.{as_opened};

    ghost openings = { λ opener. opener.opened.events };

    ghost closed = { λ opener. opener.closed.events };

    ghost asking = { as_opened };

    ghost plain = { λ number fork store. IsFile number fork store.disk };

    ghost pairs = { λ number fork journal store. (store.pair.fork ≡ record fork.file { which = 0 })
        × (store.pair.journal ≡ record journal.file { which = 1 }) × (store.pair.number ≡ number) × (store.pair.log.events ≡ []) };

    ghost starts = { λ number fork journal store made. none_other (V.held store.pair.run store.pair.number) store.pair.log.events made.3 };

    fn open(&mut self, path: &str, naming: Naming, known: &[Found]) -> Result<NewFile, Refusal> {
        let file = open_claimed(self.runtime, path, naming, known);
        note(&mut self.opened, path, &file);
        file
    }

    fn id(&self, file: &NewFile) -> Found {
        file.id
    }

    fn in_memory(&self) -> PlainStore<Disk<W>> {
        PlainStore {
            disk: Disk::Memory(MemDisk::new(self.runtime.alloc())),
        }
    }

    fn plain(&self, fork: NewFile, number: u64) -> PlainStore<Disk<W>> {
        PlainStore {
            disk: Disk::File(FileDisk::new(fork.file, number)),
        }
    }

    fn journalled(&self, fork: NewFile, journal: NewFile, number: u64) -> Journal<FilePair<V>> {
        Journal::new(
            self.runtime.alloc(),
            FilePair::new(fork.file, journal.file, self.run, number),
        )
    }

    fn close(&mut self, store: AnyStore<PlainStore<Disk<W>>, Journal<FilePair<V>>>)
        ensures closed { self.new.closed.events ≡ self.old.closed.events ++ store ∷ [] }
        ensures none_opened { self.new.opened.events ≡ self.old.opened.events }
    {
        note_closed(&mut self.closed, store);
    }
}

/// Why there are no stores.
#[derive(Drop)]
pub enum NoStores<'a> {
    /// The host has no memory.
    HostFull,
    /// The file of this path can't be opened.
    CannotOpen(&'a str, Refusal),
}

impl<'a> From<AllocError> for NoStores<'a> {
    ghost use Rattle.std.specs.Prelude.{◌≡◌};
    ghost use Rattle.run_stores.specs.declared.stores.NoStores.TheVariants.{HostFull};

    ghost from_gives = { λ _ e. e ≡ HostFull };

    fn from(_: AllocError) -> NoStores<'a> {
        NoStores::HostFull
    }
}

impl<'a, S: Drop> From<AllocFailed<S>> for NoStores<'a> {
    ghost use Rattle.std.specs.Prelude.{◌≡◌};
    ghost use Rattle.run_stores.specs.declared.stores.NoStores.TheVariants.{HostFull};

    ghost from_gives = { λ _ e. e ≡ HostFull };

    fn from(_: AllocFailed<S>) -> NoStores<'a> {
        NoStores::HostFull
    }
}

/// The stores of the forks in the files of these paths: where there are none, one in memory.
pub fn plain_stores<'a, F: Drop, S: ForkStore, J: ForkStore, O: Opens<F, S, J>>(
    alloc: Global,
    opener: &mut O,
    paths: &[&'a str],
) -> Result<Vec<S>, NoStores<'a>>
    requires { length paths.now ≤ most_files }
    ensures stores { (openings : List (Opening F)) × (O.openings opener.new ≡ O.openings opener.old ++ openings)
        × IsOpened O.asking Naming.Repeated (map (λ path. path.now) paths.now) openings (ArePlain O.asking S.ForkStore O.plain (map (λ path. path.now) paths.now) openings) result }
    ensures few { IfOk result (λ stores. length stores.items ≤ most_files) }
    ensures none_closed { O.closed opener.new ≡ O.closed opener.old }
{
    if paths.is_empty() {
        return one_in_memory(alloc, opener);
    }
    let opened = match opened(alloc, opener, Naming::Repeated, paths) {
        Ok(opened) => opened,
        Err(fault) => return Err(fault),
    };
    stores_on(alloc, opener, opened.files)
}

/// One store in memory.
fn one_in_memory<'a, F: Drop, S: ForkStore, J: ForkStore, O: Opens<F, S, J>>(
    alloc: Global,
    opener: &O,
) -> Result<Vec<S>, NoStores<'a>>
    ensures stores { IfOk result (λ stores. ArePlain O.asking S.ForkStore O.plain [] [] stores.items) }
    ensures few { IfOk result (λ stores. length stores.items ≤ most_files) }
    ensures full { IfErr result (λ fault. fault ≡ NoStores.HostFull) }
{
    let mut stores = Vec::with_capacity(alloc, 1)?;
    stores.push_reserved(opener.in_memory());
    Ok(stores)
}

/// The stores of the forks in these files, numbered as they come.
fn stores_on<'a, F: Drop, S: ForkStore, J: ForkStore, O: Opens<F, S, J>>(
    alloc: Global,
    opener: &O,
    forks: Vec<F>,
) -> Result<Vec<S>, NoStores<'a>>
    ensures stores { IfOk result (λ stores. AreOn O.plain 0 forks.items stores.items) }
    ensures count { IfOk result (λ stores. length stores.items ≡ length forks.items) }
    ensures full { IfErr result (λ fault. fault ≡ NoStores.HostFull) }
{
    let mut stores = Vec::with_capacity(alloc, forks.len())?;
    for fork in forks {
        let number = stores.len();
        stores.push_reserved(opener.plain(fork, number as u64));
    }
    Ok(stores)
}

/// The stores of the forks and the journals in the files of these paths. All forks are opened first. No file may be named
/// twice: what one journal has would be put into the fork of another.
pub fn journalled_stores<'a, F: Drop, S: ForkStore, J: ForkStore, O: Opens<F, S, J>>(
    alloc: Global,
    opener: &mut O,
    paths: &[&'a str],
    journals: &[&'a str],
) -> Result<Vec<J>, NoStores<'a>>
    requires { length journals.now ≡ length paths.now }
    ensures stores { (openings : List (Opening F)) × (O.openings opener.new ≡ O.openings opener.old ++ openings)
        × (let all = map (λ path. path.now) paths.now ++ map (λ path. path.now) journals.now in IsOpened O.asking Naming.Once all openings (AreJournalled O.asking O.pairs all openings) result) }
    ensures count { IfOk result (λ stores. length stores.items ≡ length paths.now) }
    ensures none_closed { O.closed opener.new ≡ O.closed opener.old }
{
    let pairs = match opened_pairs(alloc, opener, paths, journals) {
        Ok(pairs) => pairs,
        Err(fault) => return Err(fault),
    };
    pairs_on(alloc, opener, pairs)
}

/// The stores of these forks and their journals, numbered as they come.
fn pairs_on<'a, F: Drop, S: ForkStore, J: ForkStore, O: Opens<F, S, J>>(
    alloc: Global,
    opener: &O,
    pairs: Vec<(F, F)>,
) -> Result<Vec<J>, NoStores<'a>>
    ensures stores { IfOk result (λ stores. ArePaired O.pairs 0 (map (λ pair. pair.0) pairs.items) (map (λ pair. pair.1) pairs.items) stores.items) }
    ensures count { IfOk result (λ stores. length stores.items ≡ length pairs.items) }
    ensures full { IfErr result (λ fault. fault ≡ NoStores.HostFull) }
{
    let mut stores = Vec::with_capacity(alloc, pairs.len())?;
    for pair in pairs {
        let (fork, journal) = pair;
        let number = stores.len();
        stores.push_reserved(opener.journalled(fork, journal, number as u64));
    }
    Ok(stores)
}

/// The files of the forks and the journals of these paths, a fork with its journal. All forks are opened first.
fn opened_pairs<'a, F: Drop, S: ForkStore, J: ForkStore, O: Opens<F, S, J>>(
    alloc: Global,
    opener: &mut O,
    paths: &[&'a str],
    journals: &[&'a str],
) -> Result<Vec<(F, F)>, NoStores<'a>>
    requires { length journals.now ≡ length paths.now }
    ensures pairs { (openings : List (Opening F)) × (O.openings opener.new ≡ O.openings opener.old ++ openings)
        × (let all = map (λ path. path.now) paths.now ++ map (λ path. path.now) journals.now in IsOpened O.asking Naming.Once all openings (ArePairs O.asking all openings) result) }
    ensures count { IfOk result (λ pairs. length pairs.items ≡ length paths.now) }
    ensures none_closed { O.closed opener.new ≡ O.closed opener.old }
{
    let opened = match opened(alloc, opener, Naming::Once, paths) {
        Ok(opened) => opened,
        Err(fault) => return Err(fault),
    };
    let mut known = opened.known;
    let mut pairs = Vec::new(alloc);
    for fork in opened.files {
        let name = journals[pairs.len()];
        let journal = match opener.open(name, Naming::Once, known.as_slice()) {
            Ok(journal) => journal,
            Err(refusal) => return Err(NoStores::CannotOpen(name, refusal)),
        };
        let id = opener.id(&journal);
        match push_both(&mut pairs, (fork, journal), &mut known, id) {
            Ok(()) => {}
            Err(_) => return Err(NoStores::HostFull),
        }
    }
    Ok(pairs)
}

/// Adds an item, and which file it is of.
fn push_both<T: Drop>(
    items: &mut Vec<T>,
    item: T,
    known: &mut Vec<Found>,
    id: Found,
) -> Result<(), AllocError>
    ensures items { OnOk result (items.new.items ≡ items.old.items ++ item ∷ []) }
    ensures known { OnOk result (known.new.items ≡ known.old.items ++ id ∷ []) }
{
    known.push(id)?;
    items.push(item)?;
    Ok(())
}

/// Files that were opened, and which files they are.
#[derive(Drop)]
struct KnownFiles<F> {
    files: Vec<F>,
    known: Vec<Found>,
}

/// The files of these paths, and which files they are.
fn opened<'a, F: Drop, S: ForkStore, J: ForkStore, O: Opens<F, S, J>>(
    alloc: Global,
    opener: &mut O,
    naming: Naming,
    paths: &[&'a str],
) -> Result<KnownFiles<F>, NoStores<'a>>
    ensures files { (openings : List (Opening F)) × (O.openings opener.new ≡ O.openings opener.old ++ openings)
        × IsOpened O.asking naming (map (λ path. path.now) paths.now) openings (λ files. Asked (map (λ path. path.now) paths.now) (map Ok files) openings) (result_map_both (λ opened. opened.files) (λ fault. fault) result) }
    ensures count { IfOk result (λ opened. length opened.files.items ≡ length paths.now) }
    ensures named { IfOk result (λ opened. AreNamed O.asking naming [] (map (λ path. path.now) paths.now) opened.files.items) }
    ensures known { IfOk result (λ opened. opened.known.items ≡ map O.asking.id opened.files.items) }
    ensures none_closed { O.closed opener.new ≡ O.closed opener.old }
{
    let mut files = Vec::new(alloc);
    let mut known = Vec::new(alloc);
    for path in paths {
        let file = match opener.open(path, naming, known.as_slice()) {
            Ok(file) => file,
            Err(refusal) => return Err(NoStores::CannotOpen(path, refusal)),
        };
        let id = opener.id(&file);
        match push_both(&mut files, file, &mut known, id) {
            Ok(()) => {}
            Err(_) => return Err(NoStores::HostFull),
        }
    }
    Ok(KnownFiles { files, known })
}

/// Closes these stores of forks alone, as they are.
pub fn close_alone<F: Drop, S: ForkStore, J: ForkStore, O: Opens<F, S, J>>(
    opener: &mut O,
    stores: Vec<S>,
)
    ensures closed { O.closed opener.new ≡ O.closed opener.old ++ map Alone stores.items }
    ensures none_opened { O.openings opener.new ≡ O.openings opener.old }
{
    let mut left = stores.into_iter();
    while let Some(store) = left.next() {
        opener.close(AnyStore::Alone(store));
    }
    left.destroy_empty();
}

/// Closes these stores of forks with their journals, as they are.
pub fn close_journalled<F: Drop, S: ForkStore, J: ForkStore, O: Opens<F, S, J>>(
    opener: &mut O,
    stores: Vec<J>,
)
    ensures closed { O.closed opener.new ≡ O.closed opener.old ++ map Journalled stores.items }
    ensures none_opened { O.openings opener.new ≡ O.openings opener.old }
{
    let mut left = stores.into_iter();
    while let Some(store) = left.next() {
        opener.close(AnyStore::Journalled(store));
    }
    left.destroy_empty();
}
