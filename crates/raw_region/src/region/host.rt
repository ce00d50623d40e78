//! A region over memory of the host.

ghost use Rattle.std.specs.Prelude.{◌≡◌, [], length, Some, IsTrue};
ghost use Rattle.raw_region.specs.Hosts.{are_there};

use super::Region;
use crate::cells::Cells;
use crate::host::HostBytes;
use crate::runs::Runs;

impl Region {
    /// The region that is in the host's bytes. Nothing of it is lent.
    pub fn over(host: HostBytes) -> Region
        requires { IsTrue (are_there host.bytes) }
        ensures bytes { host.bytes ≡ Some result.bytes }
        ensures name { result.name ≡ (host.at, result.bytes) }
        ensures lent { result.lent ≡ [] }
        ensures len { length result.bytes ≡ host.len }
    {
        Region {
            cells: Cells::over(host),
            source: None,
            noted: Runs::new(),
        }
    }

    /// Hands the bytes back to the host. Nothing of them is lent.
    pub fn hand_back(self) -> HostBytes
        requires { self.lent ≡ [] }
        ensures bytes { result.bytes ≡ Some self.bytes }
        ensures at { result.at ≡ self.name.0 }
        ensures len { result.len ≡ length self.bytes }
    {
        let Region {
            cells,
            source: _,
            noted: _,
        } = self;
        cells.hand_back()
    }
}
