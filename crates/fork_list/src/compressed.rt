//! Resources that System 7 keeps compressed.

ghost use Rattle.std.specs.Prelude.{◌≡◌};
ghost use Rattle.fork_list.specs.Compressed.{has_marked, is_plain, unpacked_length};

use bitflags::Flags;
use mac_base::resource::{ResAttrs, Resource};

/// Whether a resource of these attributes can't be compressed: bit 0 is clear.
fn is_plain(attributes: ResAttrs) -> bool
    ensures { result ≡ is_plain attributes.0 }
{
    attributes.bits() & 1 == 0
}

/// Whether one of these resources may be compressed: bit 0 of its attributes is set.
pub fn has_marked<D>(rows: &[Resource<D>]) -> bool
    ensures { result ≡ has_marked rows.now }
{
    rows.iter().any(|row| !is_plain(row.attributes))
}

/// How many bytes a compressed resource has once they are unpacked: bit 0 of its attributes is set, and its bytes begin
/// with the header of such resources, $A89F6572. None of another resource.
pub fn unpacked_length(attributes: ResAttrs, bytes: &[u8]) -> Option<usize>
    ensures { result ≡ unpacked_length attributes.0 bytes.now }
{
    if is_plain(attributes) || bytes.len() < 12 {
        return None;
    }
    let (signature, _) = bytes.split_at(4);
    if signature != b"\xA8\x9F\x65\x72".as_slice() {
        return None;
    }
    let high = bytes[8] as usize * 256 + bytes[9] as usize;
    let low = bytes[10] as usize * 256 + bytes[11] as usize;
    Some(high * 65536 + low)
}
