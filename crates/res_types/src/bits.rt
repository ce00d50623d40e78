//! Numbers and bytes in bits.

ghost use Rattle.std.specs.Prelude.{◌≡◌, ◌≢◌, ◌^◌, ◌<◌, ◌≤◌, ◌++◌, List, ℕ, length, option_map, IfNone, IfOk, IfSome, OnOk};
ghost use Rattle.res_types.specs.Bits.{bits_of, byte_bits, bytes_at, ended_at, number_at, number_from};

use std::alloc::{AllocError, Global};

/// The most bits that a number has.
const MOST: usize = 32;

/// The number of bits, at most 32.
#[tactic(auto, using(crate::proofs::Numbers::fits_more, crate::proofs::Numbers::one_more))]
fn number_of(bits: &[bool]) -> u32
    requires { length bits.now ≤ 32 }
    ensures number { result ≡ number_from 0 bits.now }
    ensures within { result < 2 ^ length bits.now }
{
    let mut number = 0u32;
    for bit in bits {
        number = 2 * number + u32::from(*bit);
    }
    number
}

/// The number in so many bits, and the bits after it, if there are so many and at most 32.
#[tactic(auto, unfolding(crate::specs::Bits::number_at))]
pub(crate) fn number_at(width: u8, bits: &[bool]) -> Option<(u32, &[bool])>
    ensures number { option_map (λ x. (x.0, x.1.now)) result ≡ number_at width bits.now }
    ensures within { IfSome result (λ x. x.0 < 2 ^ width) }
{
    let width = width as usize;
    if width > MOST || bits.len() < width {
        return None;
    }
    let (front, rest) = bits.split_at(width);
    Some((number_of(front), rest))
}

/// A byte, and the bits after it.
pub(crate) fn byte_at(bits: &[bool]) -> Option<(u8, &[bool])>
    ensures { option_map (λ x. (x.0, x.1.now)) result ≡ number_at 8 bits.now }
{
    let (number, rest) = number_at(8, bits)?;
    Some((number as u8, rest))
}

/// So many bytes, and the bits after them, if there are so many. The only error is that the host has no memory.
pub(crate) fn bytes_at(
    alloc: Global,
    count: usize,
    bits: &[bool],
) -> Result<Option<(Vec<u8>, &[bool])>, AllocError>
    ensures { IfOk result (λ found. option_map (λ x. (x.0.items, x.1.now)) found ≡ bytes_at count bits.now) }
{
    let mut bytes = Vec::new(alloc);
    let mut rest = bits;
    for _turn in 0..count {
        let Some((byte, after)) = byte_at(rest) else {
            return Ok(None);
        };
        bytes.push(byte)?;
        rest = after;
    }
    Ok(Some((bytes, rest)))
}

/// The bytes up to a 0, and the bits after it, if there is a 0. The only error is that the host has no memory.
pub(crate) fn ended_at(
    alloc: Global,
    bits: &[bool],
) -> Result<Option<(Vec<u8>, &[bool])>, AllocError>
    ensures { IfOk result (λ found. option_map (λ x. (x.0.items, x.1.now)) found ≡ ended_at (length bits.now) bits.now) }
{
    let mut bytes = Vec::new(alloc);
    let mut rest = bits;
    for _turn in 0..bits.len() {
        let Some((byte, after)) = byte_at(rest) else {
            return Ok(None);
        };
        rest = after;
        if byte == 0 {
            return Ok(Some((bytes, rest)));
        }
        bytes.push(byte)?;
    }
    Ok(None)
}

/// Adds a number in so many bits.
#[tactic(auto, using(crate::proofs::Numbers::pushed_none, crate::proofs::Numbers::pushed_more))]
pub(crate) fn push_number(bits: &mut Vec<bool>, width: u8, number: u32) -> Result<(), AllocError>
    ensures { OnOk result (bits.new.items ≡ bits.old.items ++ bits_of width number) }
{
    if width == 0 {
        return Ok(());
    }
    push_number(bits, width - 1, number / 2)?;
    bits.push(number % 2 == 1)?;
    Ok(())
}

/// Adds bytes.
pub(crate) fn push_bytes(bits: &mut Vec<bool>, bytes: &[u8]) -> Result<(), AllocError>
    ensures { OnOk result (bits.new.items ≡ bits.old.items ++ byte_bits bytes.now) }
{
    for byte in bytes {
        push_number(bits, 8, u32::from(*byte))?;
    }
    Ok(())
}

/// The bits of bytes. The only error is that the host has no memory.
pub(crate) fn bits_of(alloc: Global, bytes: &[u8]) -> Result<Vec<bool>, AllocError>
    ensures { IfOk result (λ bits. bits.items ≡ byte_bits bytes.now) }
{
    let mut bits = Vec::new(alloc);
    push_bytes(&mut bits, bytes)?;
    Ok(bits)
}

/// The bytes of bits, if they are whole bytes. The only error is that the host has no memory.
pub(crate) fn bytes_of(alloc: Global, bits: &[bool]) -> Result<Option<Vec<u8>>, AllocError>
    ensures bytes { IfOk result (λ found. IfSome found (λ bytes. bits.now ≡ byte_bits bytes.items)) }
    ensures whole { IfOk result (λ found. IfNone found ((bytes : List ℕ) → bits.now ≢ byte_bits bytes)) }
{
    let mut bytes = Vec::new(alloc);
    let mut rest = bits;
    while let Some((byte, after)) = byte_at(rest) {
        bytes.push(byte)?;
        rest = after;
    }
    if rest.is_empty() {
        Ok(Some(bytes))
    } else {
        Ok(None)
    }
}
