//! Bytes of the host in which a zone wakes.

ghost use Rattle.std.specs.Prelude.{◌≡◌, [], None, Some, IfSome};
ghost use Rattle.raw_region.specs.Hosts.{are_there};
ghost use Rattle.held_zone.specs.Asleep.{anew, region_of};

use raw_region::{HostBytes, Region};
use std::mem;

/// Bytes of the host in which a zone wakes. They are here while the host has them, and gone while a zone is awake in
/// them.
#[repr(C)]
#[derive(Drop)]
pub struct MhMemory {
    pub host: HostBytes,
    here: bool,
    ghost agrees: { here ≡ are_there host.bytes },
}

impl MhMemory {
    /// No bytes.
    fn none() -> MhMemory
        ensures { result.host.bytes ≡ None }
    {
        MhMemory {
            host: HostBytes::none(),
            here: false,
        }
    }

    /// The region of these bytes, if they are here.
    fn opened(self) -> Option<Region>
        ensures region { result ≡ region_of self.host }
        ensures whole { IfSome result (λ region. region.lent ≡ []) }
        ensures fresh { IfSome result (λ region. region.name.1 ≡ region.bytes) }
    {
        let MhMemory { host, here } = self;
        if !here {
            return None;
        }
        Some(Region::over(host))
    }

    /// Takes the bytes, if they are here.
    pub fn take(&mut self) -> Option<Region>
        ensures given { result ≡ region_of self.old.host }
        ensures whole { IfSome result (λ region. region.lent ≡ []) }
        ensures fresh { IfSome result (λ region. region.name.1 ≡ region.bytes) }
        ensures gone { region_of self.new.host ≡ None }
    {
        let before = mem::replace(self, MhMemory::none());
        before.opened()
    }

    /// Gives the bytes back, which are gone, as they were when they were taken.
    pub fn put(&mut self, region: Region)
        requires gone { region_of self.old.host ≡ None }
        requires whole { region.lent ≡ [] }
        requires fresh { region.name.1 ≡ region.bytes }
        ensures { region_of self.new.host ≡ Some region }
    {
        self.put_written(region);
    }

    /// Gives the bytes back, which are gone, with what was written in them.
    pub fn put_written(&mut self, region: Region)
        requires gone { region_of self.old.host ≡ None }
        requires whole { region.lent ≡ [] }
        ensures { region_of self.new.host ≡ Some (anew region) }
    {
        *self = MhMemory {
            host: region.hand_back(),
            here: true,
        };
    }
}
