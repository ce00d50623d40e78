//! The keys by which rows are found.

ghost use Rattle.std.specs.Prelude.{◌≡◌, ◌<◌, ◌/◌, ◌%◌, ◌^◌, bytes_eq};
ghost use Rattle.std.specs.Int.{w16, w32, cast_signed, from_be_bytes, to_be_bytes};
ghost use Rattle.res_table.specs.Keyed.{key_of_handle, key_of_resource};

use mac_base::handle::Handle;
use mac_base::resource::ResType;

/// What handles are multiplied by: those of one zone, which are close, are then spread evenly.
const SPREAD: u32 = 2_654_435_761;

/// The key of a handle: the upper half spreads handles evenly, the lower one is the handle.
pub fn key_of_handle(handle: Handle) -> u64
    ensures { result ≡ key_of_handle handle }
{
    let number = handle.number();
    u64::from(number.wrapping_mul(SPREAD)) * 4_294_967_296 + u64::from(number)
}

/// The number that the bytes of a type are: they can be read from it again.
fn number_of(kind: ResType) -> u32
    ensures number { result ≡ from_be_bytes w32 kind }
    ensures bytes { to_be_bytes w32 result ≡ kind }
{
    u32::from_be_bytes(kind.bytes())
}

/// The key of a type and an id: the four bytes of the type, and after them the two of the id. Both can be read from it
/// again.
pub fn key_of_resource(kind: ResType, id: i16) -> u64
    ensures key { result ≡ key_of_resource kind id }
    ensures kind { to_be_bytes w32 (result / 65536) ≡ kind }
    ensures id { cast_signed w16 (result % 65536) ≡ id }
    ensures few { result < 2 ^ 48 }
{
    u64::from(number_of(kind)) * 65536 + u64::from(id.cast_unsigned())
}

/// Whether two types are the same, by their numbers, which takes less time than byte by byte.
pub fn is_same_kind(first: ResType, second: ResType) -> bool
    ensures { result ≡ bytes_eq first second }
{
    number_of(first) == number_of(second)
}
