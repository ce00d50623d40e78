//! Resource files whose forks are in memory.

ghost use Rattle.std.specs.Prelude.{◌≡◌, ◌≤◌, [], ◌∷◌, length, map, option_copied, IfOk, IfSome, IsFalse};
ghost use Rattle.held_files.specs.Forks.{empty_forks, fork_in, fork_of_number, free_number, HasFork};
ghost use Rattle.mac_base.specs.Released.{disposed_by, disposed_in};
ghost use Rattle.res_files.specs.Standing.{most_files};
ghost use Rattle.res_table.specs.OpenFiles.{is_open};

use crate::elsewhere::{OtherZones, OverZone};
use fork_bytes::is_over;
use fork_disk::MemDisk;
use fork_disk::store::PlainStore;
use held_calls::answers::{Carried, MOST_ASKS, MadeAsk};
use held_zone::host_err::HostErr;
use held_zone::session::Session;
use held_zone::told;
use mac_base::error::{HostFull, OsErr};
use mac_base::handle::Handle;
use mac_base::releasing::ReleasingCall;
use mac_base::{BlockCall, MemoryCall, Outcome, ResourceCall};
use res_files::{MOST_FILES, ResourceFiles};
use res_update::{CountingCall, PartialEnd, PatchingCall, SeekingCall};
use row_image::SaveFault;
use saved_files::SavedFiles;
use std::alloc::Global;
use std::marker::Model;

/// Resource files, `MOST_FILES` at most, with their forks in memory. A contract sees the open files, whether calls load
/// what they get, the forks, and what is known of other zones.
pub struct ForkFiles {
    files: ResourceFiles<PlainStore<MemDisk>>,
    zones: OtherZones,
}

impl Model for ForkFiles {
    ghost use Rattle.std.specs.Prelude.{◌≡◌, length};
    ghost use Rattle.held_files.specs.Forks.{ForksState, seen_on};
    ghost use Rattle.res_files.specs.Standing.{most_files};

    ghost Value = { ForksState };

    ghost view = { λ f. seen_on f.zones f.files };

    ghost invariant = { λ f. length f.files.stores ≡ most_files };
}

impl Drop for ForkFiles {
    /// What isn't written stays unwritten.
    fn drop(self) {
        let ForkFiles { files, zones: _ } = self;
        drop(files.into_stores());
    }
}

/// tmfoErr: as many files are open as can be.
const TOO_MANY_FILES: i16 = -42;

/// The handle of which a call of an answer disposed, where it was carried out.
fn disposed_by(carried: &Carried) -> Option<Handle>
    ensures { result ≡ disposed_by carried.now }
{
    match carried.call() {
        ReleasingCall::DisposesHandle(handle) if carried.code().is_none() => Some(handle),
        _ => None,
    }
}

/// A fork in memory.
fn store_of(fork: Vec<u8>) -> PlainStore<MemDisk>
    ensures { fork_in result ≡ fork.items }
{
    PlainStore {
        disk: MemDisk::from_bytes(fork),
    }
}

/// Forks without bytes, one for each number.
fn no_stores(alloc: Global) -> Result<Vec<PlainStore<MemDisk>>, HostFull>
    ensures forks { IfOk result (λ stores. map fork_in stores.items ≡ empty_forks) }
    ensures count { IfOk result (λ stores. length stores.items ≡ most_files) }
{
    let mut stores = Vec::with_capacity(alloc, MOST_FILES)?;
    for _ in 0..MOST_FILES {
        stores.push(store_of(Vec::new(alloc)))?;
    }
    Ok(stores)
}

impl ForkFiles {
    ghost use Rattle.std.specs.Prelude.{IsSome, OnErr, filter_map};
    ghost use Rattle.held_files.specs.Elsewhere.{elsewhere, needed, needing, with_system};
    ghost use Rattle.held_files.specs.Told.{Disposes, GivesFork, MakesOver, OpensFork};
    ghost use Rattle.held_files.specs.Forks.{HasNoForks, without_handles};
    ghost use Rattle.held_files.specs.Making.{HasNoMemory, MakesResource, SeeksOnForks, StepsOnForks};

    /// Files of which none is open.
    pub fn create(alloc: Global) -> Result<Box<ForkFiles>, HostFull>
        ensures { IfOk result (λ files. HasNoForks files.value) }
    {
        let stores = no_stores(alloc)?;
        let files = ForkFiles {
            files: ResourceFiles::new(alloc, stores),
            zones: OtherZones::none(),
        };
        Ok(Box::new(alloc, files)?)
    }

    /// The files, to be read.
    pub(crate) fn files(&self) -> &ResourceFiles<PlainStore<MemDisk>>
        ensures { result.now.files ≡ self.now.files }
    {
        &self.files
    }

    /// An address in the system zone, if that is known.
    pub(crate) fn system(&self) -> Option<u32>
        ensures { result ≡ self.now.zones.system }
    {
        self.zones.system
    }

    /// Resources with resSysHeap are loaded into the zone that has this address from now on, or as all others are.
    pub fn set_system(&mut self, address: Option<u32>)
        ensures { self.new ≡ with_system address self.old }
    {
        self.zones.system = address;
    }

    /// An address in the zone over which the last call has to be made that was given another.
    pub fn needed(&self) -> Option<u32>
        ensures { result ≡ needed self.now }
    {
        self.zones.needed
    }

    /// The first number of which no file is open.
    pub fn free_number(&self) -> Option<u8>
        ensures first { result ≡ free_number self.now.files }
        ensures free { IfSome result (λ k. (1 ≤ k) × (k ≤ most_files) × IsFalse (is_open k self.now.files)) }
    {
        for number in 1..=MOST_FILES {
            let number = number as u8;
            if !self.files.is_open(number) {
                return Some(number);
            }
        }
        None
    }

    /// Gives the file of a number, of which none is open, this fork.
    pub fn put_fork(&mut self, number: u8, fork: Vec<u8>)
        requires there { (1 ≤ number) × (number ≤ most_files) }
        requires closed { IsFalse (is_open number self.old.files) }
        ensures { HasFork number fork.items self.old self.new }
    {
        drop(self.files.replace_store(number, store_of(fork)));
    }

    /// The fork of the file of a number, open or not, if there is such a number.
    pub fn fork(&self, number: u32) -> Option<&[u8]>
        ensures { option_copied result ≡ fork_of_number number self.now }
    {
        if 1 <= number && number <= MOST_FILES as u32 {
            Some(self.files.store(number as u8).disk.bytes())
        } else {
            None
        }
    }

    /// Gives a copy of a fork to the first number of which no file is open, and opens that file. Its number is written,
    /// and the code returned: TooBig exactly where the fork has more than macheap reads, if there is a number and the
    /// host has memory.
    pub fn open(
        &mut self,
        alloc: Global,
        session: &mut Session,
        fork: &[u8],
        number: &mut u32,
    ) -> i16
        ensures { OpensFork (free_number self.old.files) session.old self.old fork.now result number.old number.new session.new self.new }
    {
        let Some(free) = self.free_number() else {
            return TOO_MANY_FILES;
        };
        let Ok(over) = is_over(alloc, fork) else {
            return OsErr::MemFullErr.code();
        };
        if over {
            return HostErr::TooBig.code();
        }
        self.open_as(alloc, session, free, fork, number)
    }

    /// Gives a copy of a fork to a number of which no file is open, and opens that file.
    fn open_as(
        &mut self,
        alloc: Global,
        session: &mut Session,
        free: u8,
        fork: &[u8],
        number: &mut u32,
    ) -> i16
        requires there { (1 ≤ free) × (free ≤ most_files) }
        requires closed { IsFalse (is_open free self.old.files) }
        ensures { GivesFork free session.old self.old fork.now result number.old number.new session.new self.new }
    {
        let Ok(copy) = Vec::from_slice(alloc, fork) else {
            return OsErr::MemFullErr.code();
        };
        self.put_fork(free, copy);
        let call = ResourceCall::OpenResFile(free as u32);
        let outcome = self.make(alloc, session, &call);
        told::number(&Some(outcome), number)
    }

    /// No row has this handle.
    fn forget(&mut self, handle: Handle)
        ensures { self.new ≡ without_handles (handle ∷ []) self.old }
    {
        self.files.forget(handle);
    }

    /// No row has a handle of which one of these calls disposed.
    fn forget_carried(&mut self, carried: &[Carried])
        ensures { self.new ≡ without_handles (filter_map disposed_by carried.now) self.old }
    {
        for call in carried {
            if let Some(handle) = disposed_by(call) {
                self.forget(handle);
            }
        }
    }

    /// No row has a handle of which an answer to one of these asks disposed.
    pub fn forget_asked(&mut self, asks: &[MadeAsk])
        ensures { self.new ≡ without_handles (disposed_in asks.now) self.old }
    {
        for ask in asks {
            self.forget_carried(ask.carried());
        }
    }

    /// Disposes of a handle, which no row has then, nor one of which an answer disposed.
    pub fn dispose(&mut self, session: &mut Session, handle: Handle) -> Option<Outcome>
        ensures made { IfSome result (λ outcome. Disposes session.old self.old handle outcome session.new self.new) }
        ensures some { IsSome result }
    {
        let made = session.make(&MemoryCall::OnBlock(BlockCall::DisposeHandle(handle)));
        self.forget_asked(session.asks());
        if let Some(Ok(_)) = made {
            self.forget(handle);
        }
        made
    }

    /// Makes a call of the Resource Manager over the zone of a session; one that finds no room takes the answers that
    /// are left. Where the host has no memory for it, it is memFullErr.
    pub fn make(&mut self, alloc: Global, session: &mut Session, call: &ResourceCall<'_>) -> Outcome
        ensures { MakesResource session.old self.old call.now result session.new self.new }
    {
        match self.step(alloc, session, call) {
            Ok(outcome) => outcome,
            Err(_) => Err(OsErr::MemFullErr),
        }
    }

    /// The same over the zone that the call has to be made over; where that is another one, nothing changes but what is
    /// known of it.
    pub fn make_over(
        &mut self,
        alloc: Global,
        session: &mut Session,
        call: &ResourceCall<'_>,
    ) -> OverZone<Outcome>
        ensures { MakesOver (elsewhere session.old.zone.shape self.old call.now) session.old self.old (MakesResource session.old self.old call.now) result session.new self.new }
    {
        if let Some(address) = self.elsewhere(session.memory.linked().spec(), call) {
            session.answers.begin();
            self.need(address);
            return OverZone::Other;
        }
        OverZone::This(Some(self.make(alloc, session, call)))
    }

    /// Notes an address in the zone over which a call has to be made.
    fn need(&mut self, address: u32)
        ensures { self.new ≡ needing address self.old }
    {
        self.zones.needed = Some(address);
    }

    /// The same, and it says where the host has no memory.
    fn step(
        &mut self,
        alloc: Global,
        session: &mut Session,
        call: &ResourceCall<'_>,
    ) -> Result<Outcome, HostFull>
        ensures steps { IfOk result (λ outcome. StepsOnForks session.old self.old call.now outcome session.new self.new) }
        ensures full { OnErr result (HasNoMemory session.old self.old call.now (Err OsErr.MemFullErr) session.new self.new) }
    {
        session.answers.begin();
        let lent = session.loans.blocks();
        let memory = &mut session.memory;
        let answers = &mut session.answers;
        let made = res_manager::make(
            &mut self.files,
            memory,
            lent.as_slice(),
            alloc,
            call,
            answers,
        );
        // What was asked says whether answers are left.
        prove!(session.answers.asks().len() <= MOST_ASKS);
        made
    }

    /// Makes a call that seeks a resource otherwise than by its id; one that finds no room takes the answers that are
    /// left.
    pub fn seek(&mut self, session: &mut Session, call: &SeekingCall<'_>) -> Outcome
        ensures { SeeksOnForks session.old self.old call.now result session.new self.new }
    {
        session.answers.begin();
        let memory = &mut session.memory;
        let answers = &mut session.answers;
        let outcome = res_manager::seek(&mut self.files, memory, call, answers);
        // What was asked says whether answers are left.
        prove!(session.answers.asks().len() <= MOST_ASKS);
        outcome
    }
}

impl ForkFiles {
    ghost use Rattle.held_files.specs.Elsewhere.{sought_elsewhere};
    ghost use Rattle.held_files.specs.Making.{SeeksOnForks};
    ghost use Rattle.held_files.specs.Told.{MakesOver};

    /// The same over the zone that the call has to be made over; where that is another one, nothing changes but what is
    /// known of it.
    pub fn seek_over(&mut self, session: &mut Session, call: &SeekingCall<'_>) -> OverZone<Outcome>
        ensures { MakesOver (sought_elsewhere session.old.zone.shape self.old call.now) session.old self.old (SeeksOnForks session.old self.old call.now) result session.new self.new }
    {
        if let Some(address) = self.sought_elsewhere(session.memory.linked().spec(), call) {
            session.answers.begin();
            self.need(address);
            return OverZone::Other;
        }
        OverZone::This(Some(self.seek(session, call)))
    }
}

impl ForkFiles {
    ghost use Rattle.held_files.specs.Info.{SetsInfo};

    /// SetResInfo: a resource gets this id, and this name where one is given. Where the host has no memory for it, it
    /// is memFullErr.
    pub fn set_info(
        &mut self,
        alloc: Global,
        handle: Handle,
        id: i16,
        name: Option<&[u8]>,
    ) -> Result<(), OsErr>
        ensures { SetsInfo handle id (option_copied name.entry) self.old result self.new }
    {
        match res_manager::set_info(&mut self.files, alloc, handle, id, name) {
            Ok(done) => done,
            Err(_) => Err(OsErr::MemFullErr),
        }
    }
}

impl ForkFiles {
    ghost use Rattle.res_update.specs.Counted.{counted};

    /// Makes a call that says what all open files have together.
    pub fn count(&self, call: CountingCall) -> Outcome
        ensures { result ≡ counted call self.now.files }
    {
        res_manager::count(&self.files, call)
    }
}

impl ForkFiles {
    ghost use Rattle.std.specs.Prelude.{IsErrOf};
    ghost use Rattle.held_files.specs.Forks.{ForksState};
    ghost use Rattle.held_files.specs.Saving.{AreAsSaved, CantBeSaved, IsSavedOver};

    /// The files as bytes, in the format of `saved_files`, over the zone of a session. The fault is NotSound exactly
    /// where they can't be saved over it: a handle of a row that is in the zone isn't live, or another row has a
    /// row's handle, or the rows of a file fit
    /// no fork, or files are open and none is the current one.
    pub fn save(&self, alloc: Global, session: &Session) -> Result<Vec<u8>, SaveFault>
        ensures saved { IfOk result (λ bytes. IsSavedOver session.now.zone self.now bytes.items) }
        ensures refused { IsErrOf result SaveFault.NotSound → CantBeSaved session.now.zone self.now }
    {
        saved_files::save(
            alloc,
            session.memory.linked(),
            self.files.chain(),
            self.files.stores(),
            self.files.loads(),
        )
    }

    /// The files of which these bytes were saved over the zone of a session, as they were. The fault is NotSound exactly
    /// where no files that can be saved over it are saved as these bytes.
    pub fn load(alloc: Global, session: &Session, bytes: &[u8]) -> Result<Box<ForkFiles>, SaveFault>
        ensures loaded { IfOk result (λ files. AreAsSaved session.now.zone bytes.now files.value) }
        ensures refused { IsErrOf result SaveFault.NotSound → (other : ForksState) → ¬ IsSavedOver session.now.zone other bytes.now }
    {
        let SavedFiles {
            chain,
            stores,
            loads,
        } = saved_files::load(alloc, session.memory.linked(), bytes)?;
        let files = ForkFiles {
            files: ResourceFiles::restored(alloc, chain, stores, loads),
            zones: OtherZones::none(),
        };
        match Box::new(alloc, files) {
            Ok(files) => Ok(files),
            Err(_) => Err(SaveFault::HostFull),
        }
    }
}

impl ForkFiles {
    ghost use Rattle.held_files.specs.Elsewhere.{handle_outside};
    ghost use Rattle.held_files.specs.Partial.{ReadsOnForks, ReadsOver};

    /// ReadPartialResource: reads as many bytes as the buffer holds of those that a resource has in its fork, from an
    /// offset on.
    pub fn read_partial(
        &mut self,
        session: &Session,
        handle: Handle,
        offset: u32,
        buffer: &mut [u8],
    ) -> PartialEnd
        ensures { ReadsOnForks session.now self.old handle offset buffer.old buffer.new result self.new }
    {
        res_manager::read_partial(&mut self.files, &session.memory, handle, offset, buffer)
    }

    /// The same over the zone that the handle is in; where that is another one, nothing changes but what is known of it.
    pub fn read_partial_over(
        &mut self,
        session: &Session,
        handle: Handle,
        offset: u32,
        buffer: &mut [u8],
    ) -> OverZone<PartialEnd>
        ensures { ReadsOver (handle_outside session.now.zone.shape handle self.old.files) session.now self.old handle offset buffer.old buffer.new result self.new }
    {
        if let Some(address) = self.handle_outside(session.memory.linked().spec(), handle) {
            self.need(address);
            return OverZone::Other;
        }
        OverZone::This(Some(self.read_partial(session, handle, offset, buffer)))
    }
}

impl ForkFiles {
    ghost use Rattle.held_files.specs.Elsewhere.{handle_outside};
    ghost use Rattle.held_files.specs.Patching.{PatchesOnForks, PatchesOver};
    ghost use Rattle.res_update.specs.Patching.{handle_patched, patch_asked};

    /// Makes a call that changes the bytes that a resource has in its fork, which is written at once. Where the host
    /// has no memory for it, it is memFullErr.
    pub fn patch(&mut self, alloc: Global, session: &Session, call: &PatchingCall<'_>) -> PartialEnd
        ensures { PatchesOnForks session.now self.old call.now (patch_asked call.now self.old.files) result self.new }
    {
        match res_manager::patch(&mut self.files, &session.memory, alloc, call) {
            Ok(end) => end,
            Err(_) => PartialEnd::Refused(OsErr::MemFullErr),
        }
    }

    /// The same over the zone that the resource's handle is in; where that is another one, nothing changes but what is
    /// known of it.
    pub fn patch_over(
        &mut self,
        alloc: Global,
        session: &Session,
        call: &PatchingCall<'_>,
    ) -> OverZone<PartialEnd>
        ensures { PatchesOver (handle_outside session.now.zone.shape (handle_patched call.now) self.old.files) session.now self.old call.now result self.new }
    {
        if let Some(address) = self.patched_elsewhere(session.memory.linked().spec(), call) {
            self.need(address);
            return OverZone::Other;
        }
        OverZone::This(Some(self.patch(alloc, session, call)))
    }
}
