//! Operands: numbers, names, bytes, ids and types.

ghost use Rattle.std.specs.Prelude.{◌≡◌, ℕ, ◌<◌, ◌≤◌, ◌^◌, IfOk, IfSome, IfNone, SomeIff, ◌∷◌};
ghost use Rattle.std.specs.Char.{digit_value};
ghost use Rattle.std.specs.List.{list_all};
ghost use Rattle.std.specs.Option.{option_copied};
ghost use Rattle.script_text.specs.Found.{Finds};
ghost use Rattle.script_text.specs.Tokens.{Single, Double, Hexadecimal};
ghost use Rattle.script_text.specs.Front.{view};
ghost use Rattle.script_text.specs.Operands.{IsNumeral, IsNumber, IsByte, AreDigitsOf, is_name, is_name_byte, is_printable, IsPositiveId, IsNegativeId, IsId, IsVariable, IsNumberOperand, IsBytesOperand, IsIdOperand, IsTypeOfBytes, IsTypeOperand};

use crate::names::Names;
use crate::token::Token;
use bumpalo::Bump;
use bumpalo::collections::into_bump_slice;
use mac_base::Span;
use mac_base::error::HostFull;
use mac_base::resource::ResType;
use script_lang::{IdOperand, Name, NumberOperand};

/// The number of digits in a base, if it has at most 32 bits.
fn numeral(word: &[u8], base: u32) -> Option<u32>
    requires at_least { 2 ≤ base }
    requires at_most { base ≤ 36 }
    ensures found { IfSome result (λ n. IsNumeral base word.now n) }
    ensures none { IfNone result ((n : ℕ) → n < 2 ^ 32 → IsNumeral base word.now n → ⊥) }
{
    if word.is_empty() {
        return None;
    }
    let mut number: u32 = 0;
    for byte in word {
        let digit = char::from(*byte).to_digit(base)?;
        number = number.checked_mul(base)?.checked_add(digit)?;
    }
    Some(number)
}

/// The number of a word: decimal, or `$` and one to eight hexadecimal digits.
fn number(word: &[u8]) -> Option<u32>
    ensures { Finds result (IsNumber word.now) }
{
    match word {
        [b'$', digits @ ..] if digits.len() <= 8 => numeral(digits, 16),
        _ => numeral(word, 10),
    }
}

/// The id that decimal digits are.
fn positive_id(digits: &[u8]) -> Option<i16>
    ensures { Finds result (IsPositiveId digits.now) }
{
    match numeral(digits, 10) {
        Some(number) if number < 0x8000 => Some(number as i16),
        _ => None,
    }
}

/// The id that decimal digits after a `-` are.
fn id_below_zero(digits: &[u8]) -> Option<i16>
    ensures { Finds result (IsNegativeId (45 ∷ digits.now)) }
{
    match numeral(digits, 10) {
        Some(number) if number <= 0x8000 => Some(-(number as i32) as i16),
        _ => None,
    }
}

/// The id that `-` and decimal digits are.
fn negative_id(word: &[u8]) -> Option<i16>
    ensures { Finds result (IsNegativeId word.now) }
{
    match word {
        [b'-', digits @ ..] => id_below_zero(digits),
        _ => None,
    }
}

/// The id that a word is: decimal, with or without `-`.
fn id(word: &[u8]) -> Option<i16>
    ensures { Finds result (IsId word.now) }
{
    match positive_id(word) {
        Some(id) => Some(id),
        None => negative_id(word),
    }
}

/// Whether a byte may be in a name, after its first letter.
fn is_name_byte(byte: u8) -> bool
    ensures { result ≡ is_name_byte byte }
{
    byte.is_ascii_alphanumeric() || byte == b'_'
}

/// Whether all bytes may be in a name, after its first letter.
fn are_name_bytes(bytes: &[u8]) -> bool
    ensures { result ≡ list_all is_name_byte bytes.now }
{
    bytes.iter().all(|byte| is_name_byte(*byte))
}

/// Whether a word may be the name of a variable.
pub fn is_name(word: &[u8]) -> bool
    ensures { result ≡ is_name word.now }
{
    match word {
        [first, others @ ..] if first.is_ascii_alphabetic() => {
            are_name_bytes(others) && others.len() <= 30
        }
        _ => false,
    }
}

/// Whether a byte may be in quotes.
fn is_printable(byte: u8) -> bool
    ensures { result ≡ is_printable byte }
{
    matches!(byte, b' '..=b'~')
}

/// Whether all bytes may be in quotes.
pub(crate) fn are_printable(bytes: &[u8]) -> bool
    ensures { result ≡ list_all is_printable bytes.now }
{
    let mut all = true;
    for byte in bytes {
        all &= is_printable(*byte);
    }
    all
}

/// The variable of this name, if it has been assigned.
fn variable(word: &[u8], names: &Names<'_>) -> Option<Name>
    ensures { Finds result (IsVariable names.now word.now) }
{
    if !is_name(word) {
        return None;
    }
    names.find(word)
}

/// The number or the variable that a token is.
pub(crate) fn number_or_variable(token: Token<'_>, names: &Names<'_>) -> Option<NumberOperand>
    ensures { Finds result (IsNumberOperand names.now (view token.entry)) }
{
    let Token::Word(word) = token else {
        return None;
    };
    if let Some(number) = number(word) {
        return Some(NumberOperand::Number(number));
    }
    Some(NumberOperand::Variable(variable(word, names)?))
}

/// The id or the variable that a token is.
pub(crate) fn id_or_variable(token: Token<'_>, names: &Names<'_>) -> Option<IdOperand>
    ensures { Finds result (IsIdOperand names.now (view token.entry)) }
{
    let Token::Word(word) = token else {
        return None;
    };
    if let Some(id) = id(word) {
        return Some(IdOperand::Id(id));
    }
    Some(IdOperand::Variable(variable(word, names)?))
}

/// The value of each byte as a hexadecimal digit of either case, and 255 where it is none.
static DIGIT_VALUES: [u8; 256] = [
    255, 255, 255, 255, 255, 255, 255, 255, 255, 255, 255, 255, 255, 255, 255, 255, 255, 255, 255,
    255, 255, 255, 255, 255, 255, 255, 255, 255, 255, 255, 255, 255, 255, 255, 255, 255, 255, 255,
    255, 255, 255, 255, 255, 255, 255, 255, 255, 255, 0, 1, 2, 3, 4, 5, 6, 7, 8, 9, 255, 255, 255,
    255, 255, 255, 255, 10, 11, 12, 13, 14, 15, 255, 255, 255, 255, 255, 255, 255, 255, 255, 255,
    255, 255, 255, 255, 255, 255, 255, 255, 255, 255, 255, 255, 255, 255, 255, 255, 10, 11, 12, 13,
    14, 15, 255, 255, 255, 255, 255, 255, 255, 255, 255, 255, 255, 255, 255, 255, 255, 255, 255,
    255, 255, 255, 255, 255, 255, 255, 255, 255, 255, 255, 255, 255, 255, 255, 255, 255, 255, 255,
    255, 255, 255, 255, 255, 255, 255, 255, 255, 255, 255, 255, 255, 255, 255, 255, 255, 255, 255,
    255, 255, 255, 255, 255, 255, 255, 255, 255, 255, 255, 255, 255, 255, 255, 255, 255, 255, 255,
    255, 255, 255, 255, 255, 255, 255, 255, 255, 255, 255, 255, 255, 255, 255, 255, 255, 255, 255,
    255, 255, 255, 255, 255, 255, 255, 255, 255, 255, 255, 255, 255, 255, 255, 255, 255, 255, 255,
    255, 255, 255, 255, 255, 255, 255, 255, 255, 255, 255, 255, 255, 255, 255, 255, 255, 255, 255,
    255, 255, 255, 255, 255, 255, 255, 255, 255, 255, 255, 255, 255, 255, 255, 255, 255, 255, 255,
    255, 255, 255,
];

/// The value of a hexadecimal digit of either case.
pub(crate) fn hexadecimal_digit(digit: u8) -> Option<u8>
    ensures { SomeIff result (digit_value digit < 16) (digit_value digit) }
{
    let value = DIGIT_VALUES[digit as usize];
    if value < 16 { Some(value) } else { None }
}

/// The byte of two hexadecimal digits.
fn byte_of_digits(high: u8, low: u8) -> Option<u8>
    ensures { Finds result (IsByte high low) }
{
    Some(16 * hexadecimal_digit(high)? + hexadecimal_digit(low)?)
}

/// The bytes of hexadecimal digits, two for each.
fn bytes_of_digits<'a>(arena: &'a Bump, digits: &[u8]) -> Result<Option<&'a [u8]>, HostFull>
    ensures { IfOk result (λ found. Finds (option_copied found) (AreDigitsOf digits.now)) }
{
    let mut bytes = Vec::with_capacity(arena, digits.len() / 2)?;
    let mut rest = digits;
    while let [high, low, after @ ..] = rest {
        let Some(byte) = byte_of_digits(*high, *low) else {
            return Ok(None);
        };
        bytes.push(byte)?;
        rest = after;
    }
    if !rest.is_empty() {
        return Ok(None);
    }
    Ok(Some(into_bump_slice(bytes)))
}

/// The bytes that a token is.
pub fn bytes_of<'a>(arena: &'a Bump, token: Token<'a>) -> Result<Option<Span<'a>>, HostFull>
    ensures { IfOk result (λ found. Finds found (IsBytesOperand (view token.entry))) }
{
    match token {
        Token::Double(inner) => Ok(quoted_bytes(inner)),
        Token::Hexadecimal(digits) => hexadecimal_bytes(arena, digits),
        _ => Ok(None),
    }
}

/// The bytes of a text in double quotes.
fn quoted_bytes<'a>(inner: &'a [u8]) -> Option<Span<'a>>
    ensures { Finds result (IsBytesOperand (Double inner.now)) }
{
    if !are_printable(inner) {
        return None;
    }
    Some(Span::new(inner))
}

/// The bytes of a text in quotes after `$`.
fn hexadecimal_bytes<'a>(arena: &'a Bump, digits: &[u8]) -> Result<Option<Span<'a>>, HostFull>
    ensures { IfOk result (λ found. Finds found (IsBytesOperand (Hexadecimal digits.now))) }
{
    match bytes_of_digits(arena, digits)? {
        Some(bytes) => Ok(Some(Span::new(bytes))),
        None => Ok(None),
    }
}

/// The type that a token is.
pub fn type_of(arena: &Bump, token: Token<'_>) -> Result<Option<ResType>, HostFull>
    ensures { IfOk result (λ found. Finds found (IsTypeOperand (view token.entry))) }
{
    match token {
        Token::Single(inner) => Ok(quoted_type(inner)),
        Token::Hexadecimal(digits) => hexadecimal_type(arena, digits),
        _ => Ok(None),
    }
}

/// The type that four bytes are.
fn type_of_bytes(bytes: &[u8]) -> Option<ResType>
    ensures { Finds result (IsTypeOfBytes bytes.now) }
{
    match bytes {
        [first, second, third, fourth] => Some(ResType::new([*first, *second, *third, *fourth])),
        _ => None,
    }
}

/// The type that a text in single quotes is.
fn quoted_type(inner: &[u8]) -> Option<ResType>
    ensures { Finds result (IsTypeOperand (Single inner.now)) }
{
    if !are_printable(inner) {
        return None;
    }
    type_of_bytes(inner)
}

/// The type that a text in quotes after `$` is.
fn hexadecimal_type(arena: &Bump, digits: &[u8]) -> Result<Option<ResType>, HostFull>
    ensures { IfOk result (λ found. Finds found (IsTypeOperand (Hexadecimal digits.now))) }
{
    match bytes_of_digits(arena, digits)? {
        Some(bytes) => Ok(type_of_bytes(bytes)),
        None => Ok(None),
    }
}
