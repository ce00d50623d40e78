//! Bytes are added to a file.

ghost use Rattle.std.specs.Prelude.{◌≡◌, ◌++◌, OnOk, replicate};
ghost use Rattle.byteorder.specs.Endian.{big_bytes};
ghost use Rattle.mac_write.specs.Bytes.{filled};

use byteorder::{BigEndian, ByteOrder};
use std::alloc::AllocError;

/// Adds a number of two bytes.
pub(crate) fn push_two(bytes: &mut Vec<u8>, number: u16) -> Result<(), AllocError>
    ensures { OnOk result (bytes.new.items ≡ bytes.old.items ++ big_bytes 2 number) }
{
    let mut two = [0; 2];
    BigEndian::write_u16(&mut two, number);
    bytes.extend_from_slice(&two)
}

/// Adds a number of four bytes.
pub(crate) fn push_four(bytes: &mut Vec<u8>, number: u32) -> Result<(), AllocError>
    ensures { OnOk result (bytes.new.items ≡ bytes.old.items ++ big_bytes 4 number) }
{
    let mut four = [0; 4];
    BigEndian::write_u32(&mut four, number);
    bytes.extend_from_slice(&four)
}

/// Adds so many zeros.
pub(crate) fn push_zeros(bytes: &mut Vec<u8>, count: usize) -> Result<(), AllocError>
    ensures { OnOk result (bytes.new.items ≡ bytes.old.items ++ replicate count 0) }
{
    for _ in 0..count {
        bytes.push(0)?;
    }
    Ok(())
}

/// Adds bytes, and zeros up to so many.
pub(crate) fn push_filled(bytes: &mut Vec<u8>, part: &[u8], count: usize) -> Result<(), AllocError>
    ensures { OnOk result (bytes.new.items ≡ bytes.old.items ++ filled count part.now) }
{
    bytes.extend_from_slice(part)?;
    push_zeros(bytes, count.saturating_sub(part.len()))
}
