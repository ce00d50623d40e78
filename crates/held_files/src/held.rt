//! Resource files that C holds.

ghost use Rattle.std.specs.Prelude.{◌≡◌, Option, Some, None, IfNone, IfSome, IsTrue, MatchBool};
ghost use Rattle.std.specs.Option.{option_map};
ghost use Rattle.held_files.specs.Forks.{ForksState};
ghost use Rattle.held_files.specs.Held.{LacksOne, is_there};

use crate::elsewhere::OverZone;
use crate::files::ForkFiles;
use crate::told::{MrInfo, info, kind, over_number};
use held_zone::host_err::HostErr;
use held_zone::parked::Parked;
use held_zone::session::Session;
use held_zone::told;
use held_zone::zone::MhZone;
use mac_base::error::NO_ERR;
use mac_base::handle::Handle;
use mac_base::{Outcome, ResourceCall};
use res_update::SeekingCall;
use std::alloc::Global;
use std::marker::Model;
use std::{mem, ptr};

/// Files at a pointer, or none.
#[repr(C)]
#[derive(Drop)]
pub struct Held {
    at: *mut u8,
    pub ghost files: { Option ForksState },
}

impl Model for Held {
    ghost use Rattle.held_files.specs.Held.{held};

    ghost also_owns = { λ h. held h.files h.at };
}

impl Held {
    /// No files.
    fn none(at: *mut u8) -> Held
        ensures { result.files ≡ None }
    {
        Held { at }
    }

    /// These files.
    fn of(parked: Parked<ForkFiles, Global>) -> Held
        ensures { result.files ≡ Some parked.value }
    {
        let Parked { at, alloc: _ } = parked;
        Held { at: at as *mut u8 }
    }

    /// The files.
    fn into_parked(self, alloc: Global) -> Parked<ForkFiles, Global>
        requires { IsTrue (is_there self.files) }
        ensures { self.files ≡ Some result.value }
    {
        let Held { at } = self;
        Parked {
            at: at as *mut ForkFiles,
            alloc,
        }
    }

    /// The files in their box.
    fn into_box(self, alloc: Global) -> Box<ForkFiles>
        requires { IsTrue (is_there self.files) }
        ensures { self.files ≡ Some result.value }
    {
        let parked = self.into_parked(alloc);
        parked.into_box()
    }
}

/// Resource files that C holds: live, or none.
#[repr(C)]
#[derive(Drop)]
pub struct MrFiles {
    live: bool,
    pub held: Held,
    ghost agrees: { live ≡ is_there held.files },
}

impl MrFiles {
    /// No files.
    fn none() -> MrFiles
        ensures { result.held.files ≡ None }
    {
        let at = null();
        MrFiles::without(at)
    }

    /// No files, at this pointer.
    fn without(at: *mut u8) -> MrFiles
        ensures { result.held.files ≡ None }
    {
        let held = Held::none(at);
        MrFiles { live: false, held }
    }

    /// Whether there are files.
    pub fn are_live(&self) -> bool
        ensures { MatchBool result ((files : ForksState) × (self.now.held.files ≡ Some files)) (self.now.held.files ≡ None) }
    {
        self.live
    }

    /// The files, where there are some.
    fn opened(self, alloc: Global) -> Option<Box<ForkFiles>>
        ensures { self.held.files ≡ option_map (λ files. files.value) result }
    {
        let MrFiles { live, held } = self;
        if !live {
            return None;
        }
        let files = held.into_box(alloc);
        Some(files)
    }

    /// Takes the files out, where there are some.
    pub fn take(&mut self, alloc: Global) -> Option<Box<ForkFiles>>
        ensures given { self.old.held.files ≡ option_map (λ files. files.value) result }
        ensures none { self.new.held.files ≡ None }
    {
        let before = mem::replace(self, MrFiles::none());
        before.opened(alloc)
    }

    /// Takes the files and the session of a zone out, where there are both; else both stay.
    pub(crate) fn take_with(
        &mut self,
        alloc: Global,
        zone: &mut MhZone,
    ) -> Option<(Box<ForkFiles>, Box<Session>)>
        ensures session { IfSome result (λ taken. zone.old.held.session ≡ Some taken.1.value) }
        ensures files { IfSome result (λ taken. self.old.held.files ≡ Some taken.0.value) }
        ensures no_session { IfSome result (λ taken. zone.new.held.session ≡ None) }
        ensures no_files { IfSome result (λ taken. self.new.held.files ≡ None) }
        ensures lacking { IfNone result (LacksOne zone.old.held.session self.old.held.files) }
        ensures zone_stays { IfNone result (zone.new.held.session ≡ zone.old.held.session) }
        ensures files_stay { IfNone result (self.new.held.files ≡ self.old.held.files) }
    {
        let session = zone.take(alloc)?;
        let Some(files) = self.take(alloc) else {
            zone.put(session);
            return None;
        };
        Some((files, session))
    }

    /// Puts files in, where there are none.
    pub fn put(&mut self, files: Box<ForkFiles>)
        requires none { self.old.held.files ≡ None }
        ensures { self.new.held.files ≡ Some files.value }
    {
        *self = MrFiles {
            live: true,
            held: Held::of(Parked::of(files)),
        };
    }
}

/// The null pointer.
fn null() -> *mut u8 {
    ptr::null_mut()
}

impl MrFiles {
    ghost use Rattle.held_files.specs.Told.{DisposeTold, FirstLoadedTold, ForgetTold, InfoTold, OpenTold, ResourceCalled, ResourceTold, ResourceToldKind, ResourceToldNumber, ResourceSought, SoughtTold};

    /// Makes a call of the Resource Manager, where there are files and a zone.
    pub fn call(
        &mut self,
        alloc: Global,
        zone: &mut MhZone,
        call: &ResourceCall<'_>,
    ) -> OverZone<Outcome>
        ensures { ResourceCalled zone.old.held.session self.old.held.files call.now result zone.new.held.session self.new.held.files }
    {
        let Some((mut files, mut session)) = self.take_with(alloc, zone) else {
            return OverZone::This(None);
        };
        let end = files.make_over(alloc, &mut session, call);
        self.put(files);
        zone.put(session);
        end
    }

    /// Makes a call, and returns its code.
    pub fn code(&mut self, alloc: Global, zone: &mut MhZone, call: &ResourceCall<'_>) -> i16
        ensures { ResourceTold zone.old.held.session self.old.held.files call.now result zone.new.held.session self.new.held.files }
    {
        match self.call(alloc, zone, call) {
            OverZone::Other => HostErr::OtherZone.code(),
            OverZone::This(outcome) => told::code(&outcome),
        }
    }

    /// Makes a call, returns its code, and writes its number, where it gives one.
    pub fn number(
        &mut self,
        alloc: Global,
        zone: &mut MhZone,
        call: &ResourceCall<'_>,
        number: &mut u32,
    ) -> i16
        ensures { ResourceToldNumber zone.old.held.session self.old.held.files call.now result number.old number.new zone.new.held.session self.new.held.files }
    {
        over_number(&self.call(alloc, zone, call), number)
    }

    /// Makes a call that seeks a resource otherwise than by its id, where there are files and a zone.
    fn sought(
        &mut self,
        alloc: Global,
        zone: &mut MhZone,
        call: &SeekingCall<'_>,
    ) -> OverZone<Outcome>
        ensures { ResourceSought zone.old.held.session self.old.held.files call.now result zone.new.held.session self.new.held.files }
    {
        let Some((mut files, mut session)) = self.take_with(alloc, zone) else {
            return OverZone::This(None);
        };
        let end = files.seek_over(&mut session, call);
        self.put(files);
        zone.put(session);
        end
    }

    /// Makes such a call, returns its code, and writes the handle of the resource, where there is one.
    pub fn seek(
        &mut self,
        alloc: Global,
        zone: &mut MhZone,
        call: &SeekingCall<'_>,
        handle: &mut u32,
    ) -> i16
        ensures { SoughtTold zone.old.held.session self.old.held.files call.now result handle.old handle.new zone.new.held.session self.new.held.files }
    {
        over_number(&self.sought(alloc, zone, call), handle)
    }

    /// Makes a call, returns its code, and writes its resource type, where it gives one.
    pub fn kind(
        &mut self,
        alloc: Global,
        zone: &mut MhZone,
        call: &ResourceCall<'_>,
        number: &mut u32,
    ) -> i16
        ensures { ResourceToldKind zone.old.held.session self.old.held.files call.now result number.old number.new zone.new.held.session self.new.held.files }
    {
        match self.call(alloc, zone, call) {
            OverZone::Other => HostErr::OtherZone.code(),
            OverZone::This(outcome) => kind(&outcome, number),
        }
    }

    /// GetResInfo: returns its code, and writes what the resource is called. BadNumber where there is no room for 255
    /// bytes of a name.
    pub fn info(
        &mut self,
        alloc: Global,
        zone: &mut MhZone,
        handle: Handle,
        shown: &mut MrInfo,
        name: &mut [u8],
    ) -> i16
        ensures { InfoTold zone.old.held.session self.old.held.files handle result (shown.old, name.old) (shown.new, name.new) zone.new.held.session self.new.held.files }
    {
        if name.len() < 255 {
            return HostErr::BadNumber.code();
        }
        match self.call(alloc, zone, &ResourceCall::GetResInfo(handle)) {
            OverZone::Other => HostErr::OtherZone.code(),
            OverZone::This(outcome) => info(&outcome, shown, name),
        }
    }

    /// Opens a file on a copy of a fork, returns the code, and writes the file's number.
    pub fn open(&mut self, alloc: Global, zone: &mut MhZone, fork: &[u8], number: &mut u32) -> i16
        ensures { OpenTold zone.old.held.session self.old.held.files fork.now result number.old number.new zone.new.held.session self.new.held.files }
    {
        let Some((mut files, mut session)) = self.take_with(alloc, zone) else {
            return HostErr::NotThere.code();
        };
        let code = files.open(alloc, &mut session, fork, number);
        self.put(files);
        zone.put(session);
        code
    }

    /// No resource has a handle of which an answer to the zone's last call disposed.
    pub fn forget(&mut self, alloc: Global, zone: &mut MhZone) -> i16
        ensures { ForgetTold zone.old.held.session self.old.held.files result zone.new.held.session self.new.held.files }
    {
        let Some((mut files, session)) = self.take_with(alloc, zone) else {
            return HostErr::NotThere.code();
        };
        files.forget_asked(session.asks());
        self.put(files);
        zone.put(session);
        NO_ERR
    }

    /// Writes the first handle that a resource has in a zone. NoneSuch where there is none.
    pub fn first_loaded(&mut self, alloc: Global, zone: &mut MhZone, handle: &mut u32) -> i16
        ensures { FirstLoadedTold zone.old.held.session self.old.held.files result handle.old handle.new zone.new.held.session self.new.held.files }
    {
        let Some((files, session)) = self.take_with(alloc, zone) else {
            return HostErr::NotThere.code();
        };
        let found = files.first_loaded(session.memory.linked().spec());
        self.put(files);
        zone.put(session);
        match found {
            Some(first) => {
                *handle = first;
                NO_ERR
            }
            None => HostErr::NoneSuch.code(),
        }
    }

    /// Disposes of a handle, which no resource has then, and returns the code.
    pub fn dispose(&mut self, alloc: Global, zone: &mut MhZone, handle: Handle) -> i16
        ensures { DisposeTold zone.old.held.session self.old.held.files handle result zone.new.held.session self.new.held.files }
    {
        let Some((mut files, mut session)) = self.take_with(alloc, zone) else {
            return HostErr::NotThere.code();
        };
        let outcome = files.dispose(&mut session, handle);
        self.put(files);
        zone.put(session);
        told::code(&outcome)
    }
}

impl MrFiles {
    ghost use Rattle.std.specs.Prelude.{option_copied};
    ghost use Rattle.held_files.specs.Info.{SetInfoTold};

    /// SetResInfo: gives a resource this id, and this name where one is given, and returns the code.
    pub fn set_info(&mut self, alloc: Global, handle: Handle, id: i16, name: Option<&[u8]>) -> i16
        ensures { SetInfoTold handle id (option_copied name.entry) self.old.held.files result self.new.held.files }
    {
        let Some(mut files) = self.take(alloc) else {
            return HostErr::NotThere.code();
        };
        let set = files.set_info(alloc, handle, id, name);
        self.put(files);
        told::done(set)
    }
}
