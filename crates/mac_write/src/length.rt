//! The lengths that containers can hold.

ghost use Rattle.std.specs.Prelude.{◌≡◌, ◌≤◌, ◌<◌, ◌^◌, OnOk};
ghost use Rattle.std.specs.Result.{result_err};
ghost use Rattle.mac_write.specs.Apple.{length_refusal};
ghost use Rattle.mac_write.specs.Targets.{name_length_refusal};

use crate::refusal::Refusal;

/// The most bytes that four bytes count.
const MOST_BYTES: usize = 0xFFFF_FFFF;

/// Checks that four bytes count so many.
pub(crate) fn check_length(count: usize) -> Result<(), Refusal>
    ensures refusal { result_err result ≡ length_refusal count }
    ensures few { OnOk result (count < 2 ^ 32) }
{
    if count > MOST_BYTES {
        return Err(Refusal::TooLong {
            length: count,
            most: MOST_BYTES,
        });
    }
    Ok(())
}

/// The most characters of a name in MacBinary and BinHex.
pub(crate) const LONGEST_NAME: usize = 63;

/// Checks that a name has a length that MacBinary and BinHex can hold.
pub(crate) fn check_name_length(count: usize) -> Result<(), Refusal>
    ensures refusal { result_err result ≡ name_length_refusal count }
    ensures some { OnOk result (1 ≤ count) }
    ensures short { OnOk result (count ≤ 63) }
{
    if count < 1 {
        Err(Refusal::NoName)
    } else if count > LONGEST_NAME {
        Err(Refusal::NameTooLong(count))
    } else {
        Ok(())
    }
}
