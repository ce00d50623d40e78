//! The attributes of a resource.

ghost use Rattle.std.specs.Prelude.{◌≡◌};
ghost use Rattle.res_table.specs.Attributes.{unmarked};

use bitflags::Flags;
use mac_base::resource::ResAttrs;

/// The attributes without resChanged.
pub fn unmarked(attributes: ResAttrs) -> ResAttrs
    ensures { result ≡ unmarked attributes }
{
    let mut attributes = attributes;
    attributes.remove(ResAttrs::CHANGED);
    attributes
}
