//! Fields of bits that are 0.

ghost use Rattle.std.specs.Prelude.{◌≡◌, ◌∷◌, IfOk, IfSome, codes};
ghost use Rattle.type_source.specs.Spelling.{SpellsUnits, SpellsZeros, StartsWord, bits_of_unit, word_of_unit};

use crate::fault::{Expected, ReadError, refused};
use crate::token::{Mark, Token};
use crate::words::{after_word, bracketed, mark_at};
use res_types::field::Zeros;

/// What a fill is counted in.
#[derive(Clone, Copy)]
pub(crate) enum FillUnit {
    Bit,
    Nibble,
    Byte,
    Word,
    Long,
}

const UNITS: &[FillUnit] = &[
    FillUnit::Bit,
    FillUnit::Nibble,
    FillUnit::Byte,
    FillUnit::Word,
    FillUnit::Long,
];

impl FillUnit {
    fn word(self) -> &'static [u8]
        ensures { result.now ≡ word_of_unit self }
    {
        match self {
            FillUnit::Bit => b"bit",
            FillUnit::Nibble => b"nibble",
            FillUnit::Byte => b"byte",
            FillUnit::Word => b"word",
            FillUnit::Long => b"long",
        }
    }

    fn bits(self) -> u32
        ensures { result ≡ bits_of_unit self }
    {
        match self {
            FillUnit::Bit => 1,
            FillUnit::Nibble => 4,
            FillUnit::Byte => 8,
            FillUnit::Word => 16,
            FillUnit::Long => 32,
        }
    }
}

/// The unit that tokens begin with.
fn unit_at<'s, 'a>(tokens: &'s [Token<'a>]) -> Result<(FillUnit, &'s [Token<'a>]), ReadError>
    ensures { IfOk result (λ x. StartsWord (word_of_unit x.0) tokens.now x.1.now) }
{
    for unit in UNITS {
        if let Some(rest) = after_word(unit.word(), tokens) {
            return Ok((*unit, rest));
        }
    }
    Err(refused(tokens, Expected::Unit))
}

/// How many units there are.
fn units_at<'s, 'a>(tokens: &'s [Token<'a>]) -> Result<(u32, &'s [Token<'a>]), ReadError>
    ensures { IfOk result (λ x. SpellsUnits x.0 tokens.now x.1.now) }
{
    match bracketed(tokens)? {
        Some((count, rest)) => Ok((count, rest)),
        None => Ok((1, tokens)),
    }
}

/// Zeros after the word `fill`.
fn fill_at<'s, 'a>(
    tokens: &'s [Token<'a>],
    start: &'s [Token<'a>],
) -> Result<(Zeros, &'s [Token<'a>]), ReadError>
    requires { StartsWord (codes "fill") tokens.now start.now }
    ensures { IfOk result (λ x. SpellsZeros x.0 tokens.now x.1.now) }
{
    let (unit, mid) = unit_at(start)?;
    let (count, rest) = units_at(mid)?;
    let rest = mark_at(Mark::Semicolon, rest)?;
    match count.checked_mul(unit.bits()) {
        Some(bits) => Ok((Zeros::Fill(bits), rest)),
        None => Err(refused(mid, Expected::Length)),
    }
}

/// Zeros after the word `align`.
fn align_at<'s, 'a>(
    tokens: &'s [Token<'a>],
    start: &'s [Token<'a>],
) -> Result<(Zeros, &'s [Token<'a>]), ReadError>
    requires { StartsWord (codes "align") tokens.now start.now }
    ensures { IfOk result (λ x. SpellsZeros x.0 tokens.now x.1.now) }
{
    let (unit, rest) = unit_at(start)?;
    let rest = mark_at(Mark::Semicolon, rest)?;
    match unit {
        FillUnit::Byte => Ok((Zeros::AlignByte, rest)),
        FillUnit::Word => Ok((Zeros::AlignWord, rest)),
        FillUnit::Long => Ok((Zeros::AlignLong, rest)),
        FillUnit::Bit | FillUnit::Nibble => Err(refused(start, Expected::AlignUnit)),
    }
}

/// Zeros, if the tokens begin with `fill` or `align`.
pub(crate) fn zeros_at<'s, 'a>(
    tokens: &'s [Token<'a>],
) -> Result<Option<(Zeros, &'s [Token<'a>])>, ReadError>
    ensures { IfOk result (λ found. IfSome found (λ x. SpellsZeros x.0 tokens.now x.1.now)) }
{
    if let Some(start) = after_word(b"fill", tokens) {
        let (zeros, rest) = fill_at(tokens, start)?;
        return Ok(Some((zeros, rest)));
    }
    if let Some(start) = after_word(b"align", tokens) {
        let (zeros, rest) = align_at(tokens, start)?;
        return Ok(Some((zeros, rest)));
    }
    Ok(None)
}
