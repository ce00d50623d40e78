//! The checksum of MacBinary.

ghost use Rattle.std.specs.Prelude.{◌≡◌};
ghost use Rattle.mac_files.specs.Crc.{crc_of, with_bit, with_byte};

/// The polynomial x^16 + x^12 + x^5 + 1, without its highest bit.
const POLYNOMIAL: u16 = 0x1021;

/// The remainder after one more bit, which is zero.
#[tactic(auto, unfolding(crate::specs::Crc::with_bit))]
fn with_bit(crc: u16) -> u16
    ensures { result ≡ with_bit crc }
{
    if crc < 0x8000 {
        crc * 2
    } else {
        ((crc - 0x8000) * 2) ^ POLYNOMIAL
    }
}

/// The remainder after one more byte.
#[tactic(auto, using(crate::proofs::Steps::iterate_step), unfolding(crate::specs::Crc::with_byte))]
fn with_byte(crc: u16, byte: u8) -> u16
    ensures { result ≡ with_byte crc byte }
{
    let mut next = crc ^ ((byte as u16) << 8);
    for _bit in 0..u8::BITS {
        next = with_bit(next);
    }
    next
}

/// The checksum of bytes: CRC-16/XMODEM.
pub fn crc_of(bytes: &[u8]) -> u16
    ensures { result ≡ crc_of bytes.now }
{
    bytes.iter().fold(0, |crc, byte| with_byte(crc, *byte))
}
