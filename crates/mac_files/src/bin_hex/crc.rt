//! The CRC of a section.

ghost use Rattle.std.specs.Prelude.{◌≡◌};
ghost use Rattle.mac_files.specs.BinHex.{bin_hex_crc};

use crate::crc::crc_of;

/// The CRC of these bytes and of two zero bytes in its place.
pub fn crc(bytes: &[u8]) -> u16
    ensures { result ≡ bin_hex_crc bytes.now }
{
    crc_of(bytes)
}
