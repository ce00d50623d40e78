//! Calls on some of the bytes that a resource has in its fork, over files that C holds.

ghost use Rattle.held_files.specs.Partial.{PartCalled};
ghost use Rattle.held_files.specs.Patching.{PatchCalled};

use crate::elsewhere::OverZone;
use crate::held::MrFiles;
use held_zone::zone::MhZone;
use mac_base::handle::Handle;
use res_update::{PartialEnd, PatchingCall};
use std::alloc::Global;

impl MrFiles {
    /// Reads as many bytes as the buffer holds of those that a resource has in its fork, from an offset on, where there
    /// are files and a zone.
    pub fn read_partial(
        &mut self,
        alloc: Global,
        zone: &mut MhZone,
        handle: Handle,
        offset: u32,
        buffer: &mut [u8],
    ) -> OverZone<PartialEnd>
        ensures { PartCalled zone.old.held.session self.old.held.files handle offset buffer.old buffer.new result zone.new.held.session self.new.held.files }
    {
        let Some((mut files, session)) = self.take_with(alloc, zone) else {
            return OverZone::This(None);
        };
        let end = files.read_partial_over(&session, handle, offset, buffer);
        self.put(files);
        zone.put(session);
        end
    }

    /// Makes a call that changes the bytes that a resource has in its fork, where there are files and a zone.
    pub fn patch(
        &mut self,
        alloc: Global,
        zone: &mut MhZone,
        call: &PatchingCall<'_>,
    ) -> OverZone<PartialEnd>
        ensures { PatchCalled zone.old.held.session self.old.held.files call.now result zone.new.held.session self.new.held.files }
    {
        let Some((mut files, session)) = self.take_with(alloc, zone) else {
            return OverZone::This(None);
        };
        let end = files.patch_over(alloc, &session, call);
        self.put(files);
        zone.put(session);
        end
    }
}
