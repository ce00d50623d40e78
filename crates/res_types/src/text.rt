//! Texts in bits.

ghost use Rattle.std.specs.Prelude.{◌≡◌, ◌<◌, ◌≤◌, ◌-◌, ◌==◌, ◌++◌, length, option_map, replicate, IfOk, IfSome, OnOk};
ghost use Rattle.std.specs.List.{position};
ghost use Rattle.res_types.specs.Bits.{byte_bits};
ghost use Rattle.res_types.specs.Texts.{Adds, are_zeros, bits_in, counted_within, ended_within, has_no_zero, text_at, width_of, greatest};

use crate::bits::{bytes_at, ended_at, number_at, push_bytes, push_number};
use crate::field::{CountSize, TextForm};
use std::alloc::{AllocError, Global};

impl CountSize {
    /// How many bits a count has.
    pub(crate) fn width(self) -> u8
        ensures { result ≡ width_of self }
    {
        match self {
            CountSize::Byte => 8,
            CountSize::Integer => 16,
            CountSize::Longint => 32,
        }
    }

    /// The greatest count of this size.
    pub(crate) fn greatest(self) -> u32
        ensures { result ≡ greatest self }
    {
        match self {
            CountSize::Byte => 255,
            CountSize::Integer => 65535,
            CountSize::Longint => 4294967295,
        }
    }
}

/// Whether each byte is 0.
fn are_zeros(bytes: &[u8]) -> bool
    ensures { result ≡ are_zeros bytes.now }
{
    bytes.iter().all(|byte| *byte == 0)
}

/// Whether no byte is 0.
fn has_no_zero(bytes: &[u8]) -> bool
    ensures { result ≡ has_no_zero bytes.now }
{
    bytes.iter().all(|byte| *byte != 0)
}

/// The text of a byte that counts, so many bytes, and zeros.
#[tactic(auto, unfolding(crate::specs::Texts::counted_within))]
fn counted_within(bytes: &[u8]) -> Option<&[u8]>
    ensures { option_map (λ text. text.now) result ≡ counted_within bytes.now }
{
    let (count, bytes) = bytes.split_first()?;
    let count = *count as usize;
    if count <= bytes.len() && are_zeros(&bytes[count..]) {
        Some(&bytes[..count])
    } else {
        None
    }
}

/// The place of the first 0.
fn zero_place(bytes: &[u8]) -> Option<usize>
    ensures place { result ≡ position (λ byte. byte == 0) bytes.now }
    ensures within { IfSome result (λ n. n < length bytes.now) }
{
    bytes.iter().position(|byte| *byte == 0)
}

/// The text of bytes that aren't 0, and then zeros, at least one.
#[tactic(auto, unfolding(crate::specs::Texts::ended_within))]
fn ended_within(bytes: &[u8]) -> Option<&[u8]>
    ensures { option_map (λ text. text.now) result ≡ ended_within bytes.now }
{
    let Some(count) = zero_place(bytes) else {
        return None;
    };
    if are_zeros(&bytes[count..]) {
        Some(&bytes[..count])
    } else {
        None
    }
}

/// The text in a form, and the bits after it, if there is one. The only error is that the host has no memory.
#[tactic(auto, unfolding(crate::specs::Texts::text_at))]
pub(crate) fn text_at(
    alloc: Global,
    form: TextForm,
    bits: &[bool],
) -> Result<Option<(Vec<u8>, &[bool])>, AllocError>
    ensures { IfOk result (λ found. option_map (λ x. (x.0.items, x.1.now)) found ≡ text_at form bits.now) }
{
    match form {
        TextForm::Fixed(count) => bytes_at(alloc, count as usize, bits),
        TextForm::Counted(size) => match number_at(size.width(), bits) {
            Some((count, rest)) => bytes_at(alloc, count as usize, rest),
            None => Ok(None),
        },
        TextForm::Ended => ended_at(alloc, bits),
        TextForm::CountedWithin(count) => {
            let Some((bytes, rest)) = bytes_at(alloc, count as usize + 1, bits)? else {
                return Ok(None);
            };
            match counted_within(&bytes) {
                Some(text) => Ok(Some((text.to_vec(alloc)?, rest))),
                None => Ok(None),
            }
        }
        TextForm::EndedWithin(count) => {
            let Some((bytes, rest)) = bytes_at(alloc, count as usize, bits)? else {
                return Ok(None);
            };
            match ended_within(&bytes) {
                Some(text) => Ok(Some((text.to_vec(alloc)?, rest))),
                None => Ok(None),
            }
        }
    }
}

/// Adds zeros, so many bytes.
#[tactic(auto, using(std::proofs::lemmas::List::replicate_more, crate::proofs::Bytes::byte_pushed))]
fn push_zeros(bits: &mut Vec<bool>, count: usize) -> Result<(), AllocError>
    ensures { OnOk result (bits.new.items ≡ bits.old.items ++ byte_bits (replicate count 0)) }
{
    for _turn in 0..count {
        push_number(bits, 8, 0)?;
    }
    Ok(())
}

/// Adds a count and a text, if the count can be so great.
#[tactic(auto, unfolding(crate::specs::Texts::bits_in))]
fn push_counted(bits: &mut Vec<bool>, size: CountSize, text: &[u8]) -> Result<bool, AllocError>
    ensures { IfOk result (λ fits. Adds bits.old.items bits.new.items fits (bits_in (TextForm.Counted size) text.now)) }
{
    if text.len() > size.greatest() as usize {
        return Ok(false);
    }
    push_number(bits, size.width(), text.len() as u32)?;
    push_bytes(bits, text)?;
    Ok(true)
}

/// Adds a text and zeros, so many bytes in all.
fn push_padded(bits: &mut Vec<bool>, count: usize, text: &[u8]) -> Result<(), AllocError>
    requires { length text.now ≤ count }
    ensures { OnOk result (bits.new.items ≡ bits.old.items ++ byte_bits (text.now ++ replicate (count - length text.now) 0)) }
{
    push_bytes(bits, text)?;
    push_zeros(bits, count - text.len())
}

/// Adds a text in a form, and answers whether it can be in it: where it can't, nothing is added. The only error is that
/// the host has no memory.
#[tactic(auto, unfolding(crate::specs::Texts::bits_in))]
pub(crate) fn push_text(
    bits: &mut Vec<bool>,
    form: TextForm,
    text: &[u8],
) -> Result<bool, AllocError>
    ensures { IfOk result (λ fits. Adds bits.old.items bits.new.items fits (bits_in form text.now)) }
{
    match form {
        TextForm::Fixed(count) if text.len() == count as usize => push_bytes(bits, text)?,
        TextForm::Counted(size) => return push_counted(bits, size, text),
        TextForm::Ended if has_no_zero(text) => push_padded(bits, text.len() + 1, text)?,
        TextForm::CountedWithin(most) if text.len() <= most as usize => {
            push_number(bits, 8, text.len() as u32)?;
            push_padded(bits, most as usize, text)?;
        }
        TextForm::EndedWithin(count) if has_no_zero(text) && text.len() < count as usize => {
            push_padded(bits, count as usize, text)?
        }
        _ => return Ok(false),
    }
    Ok(true)
}
