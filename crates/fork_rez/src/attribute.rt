//! The attributes of a resource in words.

ghost use Rattle.std.specs.Prelude.{◌≡◌, option_map};
ghost use Rattle.fork_rez.specs.Reading.{Gives, attribute_at, attributes_at, bits_at, word_among};
ghost use Rattle.fork_rez.specs.Text.{attributes, bit_of, word_of};

use crate::blanks::{after_blanks, after_word};
use crate::fault::{Expected, ReadError, refused};
use crate::quoted::byte_at;

/// An attribute that has a word.
#[derive(Clone, Copy)]
pub(crate) enum Attribute {
    SysHeap,
    Purgeable,
    Locked,
    Protected,
    Preload,
}

/// The attributes that have words.
pub(crate) const ATTRIBUTES: [Attribute; 5] = [
    Attribute::SysHeap,
    Attribute::Purgeable,
    Attribute::Locked,
    Attribute::Protected,
    Attribute::Preload,
];

impl Attribute {
    /// The bit.
    pub(crate) fn bit(self) -> u8
        ensures { result ≡ bit_of self }
    {
        match self {
            Attribute::SysHeap => 64,
            Attribute::Purgeable => 32,
            Attribute::Locked => 16,
            Attribute::Protected => 8,
            Attribute::Preload => 4,
        }
    }

    /// The word.
    pub(crate) fn word(self) -> &'static [u8]
        ensures { result.now ≡ word_of self }
    {
        match self {
            Attribute::SysHeap => b"sysheap",
            Attribute::Purgeable => b"purgeable",
            Attribute::Locked => b"locked",
            Attribute::Protected => b"protected",
            Attribute::Preload => b"preload",
        }
    }
}

/// The bit of the word that a text begins with, and the text after it.
fn word_bit(text: &[u8]) -> Option<(u8, &[u8])>
    ensures { option_map (λ x. (x.0, x.1.now)) result ≡ word_among attributes text.now }
{
    for attribute in ATTRIBUTES {
        if let Some(rest) = after_word(attribute.word(), text) {
            return Some((attribute.bit(), rest));
        }
    }
    None
}

/// The bits of a word, or of `$` and two digits.
#[tactic(auto, unfolding(crate::specs::Reading::bits_at))]
fn bits_at(text: &[u8]) -> Result<(u8, &[u8]), ReadError>
    ensures { Gives (λ x. (x.0, x.1.now)) result (bits_at text.now) }
{
    if let Some(digits) = after_word(b"$", text) {
        return byte_at(digits);
    }
    match word_bit(text) {
        Some(found) => Ok(found),
        None => Err(refused(text, Expected::AttributeWord)),
    }
}

/// The bits of an attribute after a comma, if there is one.
#[tactic(auto, unfolding(crate::specs::Reading::attribute_at))]
fn attribute_at(text: &[u8]) -> Result<(Option<u8>, &[u8]), ReadError>
    ensures { Gives (λ x. (x.0, x.1.now)) result (attribute_at text.now) }
{
    let start = after_blanks(text)?;
    match after_word(b",", start) {
        Some(more) => {
            let next = after_blanks(more)?;
            let (bits, rest) = bits_at(next)?;
            Ok((Some(bits), rest))
        }
        None => Ok((None, start)),
    }
}

/// The bits of all attributes.
#[tactic(auto, unfolding(crate::specs::Reading::attributes_at))]
pub(crate) fn attributes_at(text: &[u8]) -> Result<(u8, &[u8]), ReadError>
    ensures { Gives (λ x. (x.0, x.1.now)) result (attributes_at text.now) }
{
    let mut bits = 0;
    let mut rest = text;
    for _turn in 0..text.len() + 1 {
        let (found, after) = attribute_at(rest)?;
        rest = after;
        match found {
            Some(more) => bits |= more,
            None => return Ok((bits, rest)),
        }
    }
    Ok((bits, rest))
}
