//! A text is read as tokens.

ghost use Rattle.std.specs.Prelude.{◌≡◌, ◌≤◌, ◌∷◌, length, IfOk};
ghost use Rattle.type_source.specs.Tokens.{IsText, TakesNumber, TakesQuoted, TakesToken, TakesWord, next_number, number, numeral, zero_numeral};

use crate::fault::{Expected, ReadError, refused};
use crate::gap::{after_byte, after_gap};
use crate::run::{Run, is_digit, is_letter};
use crate::token::{Mark, Token};
use std::alloc::Global;

/// The number whose higher digits are this number, and whose lowest is this digit of a base.
#[tactic(auto, unfolding(crate::specs::Tokens::next_number))]
fn next_number(base: u32, high: u32, digit: u8) -> Option<u32>
    requires least { 2 ≤ base }
    requires most { base ≤ 16 }
    ensures { result ≡ next_number base high digit }
{
    let digit = char::from(digit).to_digit(base)?;
    high.checked_mul(base)?.checked_add(digit)
}

/// The number that digits of a base have.
#[tactic(auto, unfolding(crate::specs::Tokens::number))]
fn number(base: u32, digits: &[u8]) -> Option<u32>
    requires least { 2 ≤ base }
    requires most { base ≤ 16 }
    ensures { result ≡ number base digits.now }
{
    if digits.is_empty() {
        return None;
    }
    let mut number = 0;
    let mut rest = digits;
    while let Some((digit, after)) = rest.split_first() {
        let Some(next) = next_number(base, number, *digit) else {
            return None;
        };
        number = next;
        rest = after;
    }
    Some(number)
}

/// The number of a run that begins with a 0, after it.
fn zero_numeral(run: &[u8]) -> Option<u32>
    ensures { result ≡ zero_numeral run.now }
{
    let Some((byte, digits)) = run.split_first() else {
        return Some(0);
    };
    match *byte {
        b'x' | b'X' => number(16, digits),
        b'b' | b'B' => number(2, digits),
        _ => number(8, run),
    }
}

/// The number of a run that begins with a digit.
fn numeral(run: &[u8]) -> Option<u32>
    ensures { result ≡ numeral run.now }
{
    match run.split_first() {
        Some((byte, digits)) if *byte == b'0' => zero_numeral(digits),
        Some(_) => number(10, run),
        None => None,
    }
}

/// A word.
fn word_at(text: &[u8]) -> Result<(&[u8], &[u8]), ReadError>
    ensures { IfOk result (λ x. TakesWord x.0.now text.now x.1.now) }
{
    match text.split_first() {
        Some((first, _)) if is_letter(*first) => Ok(Run::Word.split(text)),
        _ => Err(refused(text, Expected::Word)),
    }
}

/// A number in hexadecimal digits, after a `$`.
fn hexadecimal_at(text: &[u8]) -> Result<(u32, &[u8]), ReadError>
    ensures { IfOk result (λ x. TakesNumber x.0 (number 16) text.now x.1.now) }
{
    let (digits, rest) = Run::Word.split(text);
    match number(16, digits) {
        Some(number) => Ok((number, rest)),
        None => Err(refused(text, Expected::Digits)),
    }
}

/// A number that begins with a digit.
fn numeral_at(text: &[u8]) -> Result<(u32, &[u8]), ReadError>
    ensures { IfOk result (λ x. TakesNumber x.0 numeral text.now x.1.now) }
{
    let (digits, rest) = Run::Word.split(text);
    match numeral(digits) {
        Some(number) => Ok((number, rest)),
        None => Err(refused(text, Expected::Digits)),
    }
}

/// The bytes up to a quote, and the text after it.
fn quoted_at(quote: u8, text: &[u8]) -> Result<(&[u8], &[u8]), ReadError>
    ensures { IfOk result (λ x. TakesQuoted quote x.0.now text.now x.1.now) }
{
    let (inner, rest) = Run::Quoted(quote).split(text);
    match rest.split_first() {
        Some((byte, rest)) if *byte == quote => Ok((inner, rest)),
        _ => Err(refused(rest, Expected::Quote(quote))),
    }
}

/// A function, or a number in hexadecimal digits, after a `$`.
fn after_dollar(text: &[u8]) -> Result<(Token<'_>, &[u8]), ReadError>
    ensures { IfOk result (λ x. TakesToken x.0 (36 ∷ text.now) x.1.now) }
{
    if let Some(inner) = after_byte(b'$', text) {
        let (name, rest) = word_at(inner)?;
        return Ok((Token::Function(name), rest));
    }
    let (number, rest) = hexadecimal_at(text)?;
    Ok((Token::Number(number), rest))
}

/// A number, a word, or a mark.
fn plain_at(text: &[u8]) -> Result<(Token<'_>, &[u8]), ReadError>
    ensures { IfOk result (λ x. TakesToken x.0 text.now x.1.now) }
{
    let Some((first, rest)) = text.split_first() else {
        return Err(refused(text, Expected::Token));
    };
    if is_digit(*first) {
        let (number, rest) = numeral_at(text)?;
        return Ok((Token::Number(number), rest));
    }
    if is_letter(*first) {
        let (name, rest) = word_at(text)?;
        return Ok((Token::Word(name), rest));
    }
    match Mark::of(*first) {
        Some(mark) => Ok((Token::Mark(mark), rest)),
        None => Err(refused(text, Expected::Token)),
    }
}

/// The token that a text begins with, and the text after it.
fn token_at(text: &[u8]) -> Result<(Token<'_>, &[u8]), ReadError>
    ensures { IfOk result (λ x. TakesToken x.0 text.now x.1.now) }
{
    if let Some(inner) = after_byte(b'$', text) {
        let (token, rest) = after_dollar(inner)?;
        return Ok((token, rest));
    }
    if let Some(inner) = after_byte(b'\'', text) {
        let (bytes, rest) = quoted_at(b'\'', inner)?;
        return Ok((Token::Single(bytes), rest));
    }
    if let Some(inner) = after_byte(b'"', text) {
        let (bytes, rest) = quoted_at(b'"', inner)?;
        return Ok((Token::Double(bytes), rest));
    }
    plain_at(text)
}

/// The tokens of a text, and where each begins: how many bytes are left there.
#[derive(Drop)]
pub struct Lexed<'a> {
    pub tokens: Vec<Token<'a>>,
    pub lefts: Vec<usize>,
}

/// All tokens of a text.
pub fn tokens_of(alloc: Global, text: &[u8]) -> Result<Lexed<'_>, ReadError>
    ensures tokens { IfOk result (λ all. IsText all.tokens.items text.now) }
    ensures lefts { IfOk result (λ all. length all.lefts.items ≡ length all.tokens.items) }
{
    let mut tokens = Vec::new(alloc);
    let mut lefts = Vec::new(alloc);
    let mut rest = text;
    for _turn in 0..text.len() + 1 {
        let start = after_gap(rest)?;
        if start.is_empty() {
            return Ok(Lexed { tokens, lefts });
        }
        let (token, after) = token_at(start)?;
        tokens.push(token)?;
        lefts.push(start.len())?;
        rest = after;
    }
    Err(refused(rest, Expected::Token))
}
