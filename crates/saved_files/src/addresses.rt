//! The addresses of a zone.

ghost use Rattle.std.specs.Prelude.{◌≡◌};
ghost use Rattle.mac_base.specs.ZoneSizes.{shape_of};
ghost use Rattle.saved_files.specs.Addresses.{has_address};

use mac_base::zone_spec::ZoneSpec;

/// Whether a zone has an address, once it has grown to its limit.
pub fn has_address(zone: ZoneSpec, address: u32) -> bool
    ensures { result ≡ has_address (shape_of zone) address }
{
    zone.base() <= address && address - zone.base() < zone.limit()
}
