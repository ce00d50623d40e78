//! Statements.

ghost use Rattle.std.specs.Prelude.{option_map};
ghost use Rattle.fork_bytes.specs.Written.{plain_row};
ghost use Rattle.fork_rez.specs.Reading.{Gives, data_at, kind_at, kind_in, name_at, name_in, resource_at, row_at, string_at};

use crate::attribute::attributes_at;
use crate::blanks::{after_blanks, after_word, word_at};
use crate::fault::{Expected, ReadError, refused};
use crate::number::id_at;
use crate::quoted::{Quotes, quoted_at};
use bitflags::Flags;
use mac_base::name::Name;
use mac_base::resource::{ResAttrs, ResType, Resource};
use std::alloc::Global;

/// Four bytes up to a single quote.
#[tactic(auto, unfolding(crate::specs::Reading::kind_in))]
fn kind_in(alloc: Global, text: &[u8]) -> Result<([u8; 4], &[u8]), ReadError>
    ensures { Gives (λ x. (x.0, x.1.now)) result (kind_in text.now) }
{
    let (kind, rest) = quoted_at(alloc, Quotes::Single, text)?;
    if kind.len() != 4 {
        return Err(refused(text, Expected::Kind));
    }
    let mut four = [b' '; 4];
    four.copy_from_slice(kind.as_slice());
    Ok((four, rest))
}

/// A type.
#[tactic(auto, unfolding(crate::specs::Reading::kind_at))]
fn kind_at(alloc: Global, text: &[u8]) -> Result<([u8; 4], &[u8]), ReadError>
    ensures { Gives (λ x. (x.0, x.1.now)) result (kind_at text.now) }
{
    let start = word_at(b"'", Expected::Kind, text)?;
    kind_in(alloc, start)
}

/// A name up to a double quote.
#[tactic(auto, unfolding(crate::specs::Reading::name_in))]
fn name_in(alloc: Global, text: &[u8]) -> Result<(Option<Name>, &[u8]), ReadError>
    ensures { Gives (λ x. (x.0, x.1.now)) result (name_in text.now) }
{
    let (bytes, rest) = quoted_at(alloc, Quotes::Double, text)?;
    match Name::new(alloc, bytes.as_slice())? {
        Some(name) => Ok((Some(name), rest)),
        None => Err(refused(text, Expected::NameInQuotes)),
    }
}

/// A name after a comma, if there is one.
#[tactic(auto, unfolding(crate::specs::Reading::name_at))]
fn name_at(alloc: Global, text: &[u8]) -> Result<(Option<Name>, &[u8]), ReadError>
    ensures { Gives (λ x. (x.0, x.1.now)) result (name_at text.now) }
{
    let start = after_blanks(text)?;
    let Some(more) = after_word(b",", start) else {
        return Ok((None, start));
    };
    let next = after_blanks(more)?;
    match after_word(b"\"", next) {
        Some(inner) => name_in(alloc, inner),
        None => Ok((None, start)),
    }
}

/// A string of bytes, in digits or in letters, if there is one.
#[tactic(auto, unfolding(crate::specs::Reading::string_at))]
fn string_at(alloc: Global, text: &[u8]) -> Result<(Option<Vec<u8>>, &[u8]), ReadError>
    ensures { Gives (λ x. (option_map (λ v. v.items) x.0, x.1.now)) result (string_at text.now) }
{
    let start = after_blanks(text)?;
    if let Some(inner) = after_word(b"$\"", start) {
        let (bytes, rest) = quoted_at(alloc, Quotes::Hexadecimal, inner)?;
        return Ok((Some(bytes), rest));
    }
    match after_word(b"\"", start) {
        Some(inner) => {
            let (bytes, rest) = quoted_at(alloc, Quotes::Double, inner)?;
            Ok((Some(bytes), rest))
        }
        None => Ok((None, start)),
    }
}

/// The bytes of all strings.
#[tactic(auto, unfolding(crate::specs::Reading::data_at))]
pub(crate) fn data_at(alloc: Global, text: &[u8]) -> Result<(Vec<u8>, &[u8]), ReadError>
    ensures { Gives (λ x. (x.0.items, x.1.now)) result (data_at text.now) }
{
    let mut bytes = Vec::new(alloc);
    let mut rest = text;
    for _turn in 0..text.len() + 1 {
        let (found, after) = string_at(alloc, rest)?;
        rest = after;
        match found {
            Some(more) => bytes.extend_from_slice(more.as_slice())?,
            None => return Ok((bytes, rest)),
        }
    }
    Ok((bytes, rest))
}

/// A resource after the word `data`.
#[tactic(auto, unfolding(crate::specs::Reading::resource_at))]
fn resource_at(alloc: Global, text: &[u8]) -> Result<(Resource<Vec<u8>>, &[u8]), ReadError>
    ensures { Gives (λ x. (plain_row (λ v. v.items) x.0, x.1.now)) result (resource_at text.now) }
{
    let (kind, rest) = kind_at(alloc, text)?;
    let opened = word_at(b"(", Expected::Mark(b'('), rest)?;
    let (id, rest) = id_at(opened)?;
    let (name, rest) = match name_at(alloc, rest) {
        Ok(found) => found,
        Err(error) => return Err(error),
    };
    let (attributes, rest) = attributes_at(rest)?;
    let closed = word_at(b")", Expected::Mark(b')'), rest)?;
    let inside = word_at(b"{", Expected::Mark(b'{'), closed)?;
    let (datum, rest) = data_at(alloc, inside)?;
    let outside = word_at(b"}", Expected::Mark(b'}'), rest)?;
    let rest = word_at(b";", Expected::Mark(b';'), outside)?;
    let attributes = ResAttrs::from_bits_retain(attributes);
    let row = Resource {
        kind: ResType::new(kind),
        id,
        name,
        attributes,
        datum,
    };
    Ok((row, rest))
}

/// A statement, if there is one.
#[tactic(auto, unfolding(crate::specs::Reading::row_at))]
pub(crate) fn row_at(
    alloc: Global,
    text: &[u8],
) -> Result<(Option<Resource<Vec<u8>>>, &[u8]), ReadError>
    ensures { Gives (λ x. (option_map (plain_row (λ v. v.items)) x.0, x.1.now)) result (row_at text.now) }
{
    let start = after_blanks(text)?;
    match after_word(b"data", start) {
        Some(more) => match resource_at(alloc, more) {
            Ok((row, rest)) => Ok((Some(row), rest)),
            Err(error) => Err(error),
        },
        None => Ok((None, start)),
    }
}
