//! Over which zone a call has to be made, where resources are in several.

ghost use Rattle.std.specs.Prelude.{◌≡◌, None, Some, if◌then◌else◌, option_and_then};
ghost use Rattle.held_files.specs.Forks.{no_zones};
ghost use Rattle.held_files.specs.Elsewhere.{IsFirstLoaded, elsewhere, first_on, handle_outside, if_open, is_on, named_outside, outside, handle_reached, place_got, place_outside, sought_elsewhere};
ghost use Rattle.mac_base.specs.ZoneSizes.{shape_of};
ghost use Rattle.mac_base.specs.declared.resource_call.ResourceCall.TheVariants.{Changing, Writing};
ghost use Rattle.res_table.specs.OpenFiles.{row_at};
ghost use Rattle.res_update.specs.Changes.{FileRow};
ghost use Rattle.res_update.specs.Files.{file_named};
ghost use Rattle.res_update.specs.Patching.{handle_patched};

use crate::files::ForkFiles;
use bitflags::Flags;
use mac_base::handle::Handle;
use mac_base::resource::ResAttrs;
use mac_base::zone_spec::ZoneSpec;
use mac_base::{ChangingCall, GettingCall, ResourceCall, WritingCall};
use res_files::MOST_FILES;
use res_manager::find_place;
use res_table::chain::RowPlace;
use res_update::{PatchingCall, SeekingCall};
use saved_files::has_address;

/// How a call over a zone ends.
#[derive(Drop)]
pub enum OverZone<E> {
    /// It has to be made over another zone: an address in that is known then.
    Other,
    /// As it ended over this one, if there are files and a zone.
    This(Option<E>),
}

/// What is known of other zones than the one that a call is given.
#[derive(Clone, Copy)]
pub(crate) struct OtherZones {
    /// An address in the system zone, if that is known.
    pub system: Option<u32>,
    /// An address in the zone over which the last call has to be made that was given another.
    pub needed: Option<u32>,
}

impl OtherZones {
    /// No other zone is known.
    pub fn none() -> OtherZones
        ensures { result ≡ no_zones }
    {
        OtherZones {
            system: None,
            needed: None,
        }
    }
}

/// Which rows of a file an update or a close works on, of those that have handles.
#[derive(Clone, Copy)]
enum Reach {
    /// Those that are changed.
    Changed,
    /// All.
    All,
}

/// Where a handle is.
#[derive(Clone, Copy)]
enum Side {
    /// In a zone.
    Inside,
    /// Outside it.
    Outside,
}

/// Whether a handle is on this side of a zone.
fn is_on(zone: ZoneSpec, side: Side, handle: u32) -> bool
    ensures { result ≡ is_on (shape_of zone) side handle }
{
    match side {
        Side::Inside => has_address(zone, handle),
        Side::Outside => !has_address(zone, handle),
    }
}

/// An address that is none of a zone's.
fn outside(zone: ZoneSpec, address: Option<u32>) -> Option<u32>
    ensures { result ≡ option_and_then (outside (shape_of zone)) address }
{
    address.filter(|address| !has_address(zone, *address))
}

impl ForkFiles {
    /// An address in the zone over which a call has to be made, where that isn't this zone.
    pub(crate) fn elsewhere(&self, zone: ZoneSpec, call: &ResourceCall<'_>) -> Option<u32>
        ensures { result ≡ elsewhere (shape_of zone) self.now call.now }
    {
        match *call {
            ResourceCall::Getting(call) => self.place_outside(zone, self.place_got(call)),
            ResourceCall::Changing(call) => self.changed_outside(zone, call),
            ResourceCall::Writing(call) => self.written_outside(zone, call),
            _ => None,
        }
    }

    /// The same of a call that seeks a resource otherwise than by its id.
    pub(crate) fn sought_elsewhere(&self, zone: ZoneSpec, call: &SeekingCall<'_>) -> Option<u32>
        ensures { result ≡ sought_elsewhere (shape_of zone) self.now call.now }
    {
        self.place_outside(zone, find_place(self.files(), call))
    }

    /// The same of a call that changes the bytes that a resource has in its fork.
    pub(crate) fn patched_elsewhere(&self, zone: ZoneSpec, call: &PatchingCall<'_>) -> Option<u32>
        ensures { result ≡ handle_outside (shape_of zone) (handle_patched call.now) self.now.files }
    {
        match *call {
            PatchingCall::SetResourceSize(handle, _) => self.handle_outside(zone, handle),
            PatchingCall::WritePartialResource { handle, .. } => self.handle_outside(zone, handle),
        }
    }

    /// Where the row is that a call gets by an id, an index, or its handle.
    fn place_got(&self, call: GettingCall) -> Option<RowPlace>
        ensures value { result ≡ place_got call self.now.files }
    {
        let files = self.files();
        match call {
            GettingCall::GetResource { kind, id } => files.find(kind, i16::try_from(id).ok()?),
            GettingCall::Get1Resource { kind, id } => {
                files.find_here(kind, i16::try_from(id).ok()?)
            }
            GettingCall::GetIndResource { kind, index } => files.find_ith(kind, index),
            GettingCall::LoadResource(handle) => files.row_of_handle(handle),
        }
    }

    /// An address in the zone where the bytes of the row at a place are or are to be, if that isn't this zone.
    fn place_outside(&self, zone: ZoneSpec, place: Option<RowPlace>) -> Option<u32>
        ensures { result ≡ option_and_then (place_outside (shape_of zone) self.now) place }
    {
        let row = self.files().row(place?)?;
        let home = match row.handle {
            Some(handle) => Some(handle.number()),
            None if row.resource.attributes.contains(ResAttrs::SYS_HEAP) => self.system(),
            None => None,
        };
        outside(zone, home)
    }

    /// A handle, if a row has it and it isn't in this zone.
    pub(crate) fn handle_outside(&self, zone: ZoneSpec, handle: Handle) -> Option<u32>
        ensures { result ≡ handle_outside (shape_of zone) handle self.now.files }
    {
        self.files().row_of_handle(handle)?;
        outside(zone, Some(handle.number()))
    }

    /// The handle of the row that a call gives up, if it isn't in this zone.
    fn changed_outside(&self, zone: ZoneSpec, call: ChangingCall) -> Option<u32>
        ensures { result ≡ elsewhere (shape_of zone) self.now (Changing call) }
    {
        match call {
            ChangingCall::ReleaseResource(handle)
            | ChangingCall::DetachResource(handle)
            | ChangingCall::RemoveResource(handle) => self.handle_outside(zone, handle),
            _ => None,
        }
    }

    /// The handle of the first row that a call writes or closes, of those that aren't in this zone.
    fn written_outside(&self, zone: ZoneSpec, call: WritingCall) -> Option<u32>
        ensures { result ≡ elsewhere (shape_of zone) self.now (Writing call) }
    {
        match call {
            WritingCall::WriteResource(handle) => self.handle_outside(zone, handle),
            WritingCall::UpdateResFile(named) => self.named_outside(zone, Reach::Changed, named),
            WritingCall::CloseResFile(named) => self.named_outside(zone, Reach::All, named),
        }
    }

    /// The handle of the first row that a call reaches of those that aren't in this zone, in the file that is named, or
    /// else in the current one.
    fn named_outside(&self, zone: ZoneSpec, reach: Reach, named: Option<u32>) -> Option<u32>
        ensures { result ≡ named_outside (shape_of zone) reach named self.now.files }
    {
        self.first_on(zone, Side::Outside, reach, self.open_file(named)?)
    }

    /// The number of the file that is named, or else of the current one, if it is open.
    fn open_file(&self, named: Option<u32>) -> Option<u8>
        ensures { result ≡ option_and_then (if_open self.now.files) (file_named named self.now.files) }
    {
        let Some(number) = named else {
            return self.files().current();
        };
        if number as usize > self.files().count() {
            return None;
        }
        let number = number as u8;
        if self.files().is_open(number) {
            Some(number)
        } else {
            None
        }
    }

    /// The first handle that a row has in this zone, in the order of the files' numbers and of their rows.
    pub fn first_loaded(&self, zone: ZoneSpec) -> Option<u32>
        ensures { IsFirstLoaded (shape_of zone) self.now.files result }
    {
        for number in 1..=MOST_FILES {
            if let Some(handle) = self.first_on(zone, Side::Inside, Reach::All, number as u8) {
                return Some(handle);
            }
        }
        None
    }

    /// The first handle on this side of a zone, of those rows of a file that are reached.
    fn first_on(&self, zone: ZoneSpec, side: Side, reach: Reach, number: u8) -> Option<u32>
        ensures { result ≡ first_on (shape_of zone) side reach self.now.files number }
    {
        let files = self.files();
        let mut from = 0;
        while let Some(found) = files.next_handle(number, from) {
            let (index, handle) = found;
            if is_on(zone, side, handle.number()) && self.reaches(reach, number, index) {
                return Some(handle.number());
            }
            from = index + 1;
        }
        None
    }

    /// Whether a call works on the row of a file at an index, where that has a handle.
    fn reaches(&self, reach: Reach, file: u8, index: usize) -> bool
        ensures { (row : FileRow) → row_at (record { file = file; index = index }) self.now.files ≡ Some row → (if result then row.handle else None) ≡ handle_reached reach row }
    {
        match (reach, self.files().row(RowPlace { file, index })) {
            (Reach::Changed, Some(row)) => row.resource.attributes.contains(ResAttrs::CHANGED),
            _ => true,
        }
    }
}
