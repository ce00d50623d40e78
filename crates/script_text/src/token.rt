//! The words, marks and texts in quotes of a line.

ghost use Rattle.std.specs.Prelude.{◌≡◌, List, [], ◌<◌, length, map, position, MatchBool, IfOk, IfSome, IfNone, OnErr};
ghost use Rattle.script_text.specs.Tokens as tokens;
ghost use Rattle.script_text.specs.Front.{view, front, after, is_no_blank, is_no_word_byte, is_quote, closed_at, Taken, Fault, Shows, token_front, single_front, double_front, hexadecimal_front, word_front, hexadecimal_or_word_front};

use mac_base::error::HostFull;
use memchr::memchr;

/// A part of a line.
#[derive(Clone, Copy)]
pub enum Token<'a> {
    Equals,
    Semicolon,
    /// A word without quotes.
    Word(&'a [u8]),
    /// What is in '..', in ".." and in $"..".
    Single(&'a [u8]),
    Double(&'a [u8]),
    Hexadecimal(&'a [u8]),
}

fn is_blank(byte: u8) -> bool
    ensures { result ≡ tokens.is_blank byte }
{
    matches!(byte, b' ' | b'\t')
}

fn is_boundary(byte: u8) -> bool
    ensures { result ≡ tokens.is_boundary byte }
{
    is_blank(byte) || matches!(byte, b'=' | b';' | b'#')
}

fn is_word_byte(byte: u8) -> bool
    ensures { result ≡ tokens.is_word_byte byte }
{
    !is_boundary(byte) && !matches!(byte, b'\'' | b'"')
}

fn is_at_boundary(rest: &[u8]) -> bool
    ensures { result ≡ tokens.is_at_boundary rest.now }
{
    match rest {
        [] => true,
        [byte, ..] => is_boundary(*byte),
    }
}

/// The line has bytes that are no token.
#[derive(Clone, Copy)]
pub struct NotAToken;

fn first_no_blank(line: &[u8]) -> Option<usize>
    ensures { result ≡ position is_no_blank line.now }
{
    line.iter().position(|byte| !is_blank(*byte))
}

fn first_no_word_byte(line: &[u8]) -> Option<usize>
    ensures { result ≡ position is_no_word_byte line.now }
{
    line.iter().position(|byte| !is_word_byte(*byte))
}

fn first_quote(line: &[u8], quote: u8) -> Option<usize>
    ensures { result ≡ position (is_quote quote) line.now }
{
    memchr(quote, line)
}

/// What is left of a line when the blanks at its front are skipped.
fn skip_blanks(line: &[u8]) -> &[u8]
    ensures { result.now ≡ after is_no_blank line.now }
{
    line.split_at(first_no_blank(line).unwrap_or(line.len())).1
}

fn after_blanks(line: &[u8]) -> &[u8]
    ensures { result.now ≡ after is_no_blank line.now }
{
    match line {
        // Most tokens have no blank in front.
        [first, ..] if *first > b' ' => line,
        _ => skip_blanks(line),
    }
}

fn split_word(line: &[u8]) -> (&[u8], &[u8])
    ensures word { result.0.now ≡ front is_no_word_byte line.now }
    ensures rest { result.1.now ≡ after is_no_word_byte line.now }
{
    line.split_at(first_no_word_byte(line).unwrap_or(line.len()))
}

fn split_quote(line: &[u8], quote: u8) -> (&[u8], &[u8])
    ensures inner { result.0.now ≡ front (is_quote quote) line.now }
    ensures rest { result.1.now ≡ after (is_quote quote) line.now }
{
    line.split_at(first_quote(line, quote).unwrap_or(line.len()))
}

/// The text up to its quote, and what follows the quote, where a boundary does.
fn closed(line: &[u8], quote: u8) -> Option<(&[u8], &[u8])>
    ensures inner { IfSome result (λ parts. parts.0.now ≡ front (is_quote quote) line.now) }
    ensures rest { IfSome result (λ parts.
        (token : tokens.Token) →
        closed_at token (after (is_quote quote) line.now) ≡ Taken token parts.1.now) }
    ensures fault { IfNone result ((token : tokens.Token) →
        closed_at token (after (is_quote quote) line.now) ≡ Fault) }
{
    match split_quote(line, quote) {
        (inner, [_, rest @ ..]) if is_at_boundary(rest) => Some((inner, rest)),
        _ => None,
    }
}

/// The text in single quotes from after its first quote, and what follows it.
fn single(line: &[u8]) -> Result<Option<(Token<'_>, &[u8])>, NotAToken>
    ensures { Shows result (single_front line.now) }
{
    let (inner, rest) = closed(line, b'\'').ok_or(NotAToken)?;
    Ok(Some((Token::Single(inner), rest)))
}

/// The text in double quotes from after its first quote, and what follows it.
fn double(line: &[u8]) -> Result<Option<(Token<'_>, &[u8])>, NotAToken>
    ensures { Shows result (double_front line.now) }
{
    let (inner, rest) = closed(line, b'"').ok_or(NotAToken)?;
    Ok(Some((Token::Double(inner), rest)))
}

/// The hexadecimal digits in quotes from after the first quote, and what follows them.
fn hexadecimal(line: &[u8]) -> Result<Option<(Token<'_>, &[u8])>, NotAToken>
    ensures { Shows result (hexadecimal_front line.now) }
{
    let (inner, rest) = closed(line, b'"').ok_or(NotAToken)?;
    Ok(Some((Token::Hexadecimal(inner), rest)))
}

/// The word that a line begins with, and what follows it.
fn word(line: &[u8]) -> Result<Option<(Token<'_>, &[u8])>, NotAToken>
    ensures { Shows result (word_front line.now) }
{
    let (word, rest) = split_word(line);
    if !is_at_boundary(rest) {
        return Err(NotAToken);
    }
    Ok(Some((Token::Word(word), rest)))
}

/// The hexadecimal digits in quotes or the word that a line begins with, and what follows.
fn hexadecimal_or_word(line: &[u8]) -> Result<Option<(Token<'_>, &[u8])>, NotAToken>
    ensures { Shows result (hexadecimal_or_word_front line.now) }
{
    match line {
        [b'$', b'"', rest @ ..] => hexadecimal(rest),
        _ => word(line),
    }
}

/// The first token of a line that begins with no blank, and what follows it.
fn token_at(line: &[u8]) -> Result<Option<(Token<'_>, &[u8])>, NotAToken>
    ensures { Shows result (token_front line.now) }
{
    let [first, rest @ ..] = line else {
        return Ok(None);
    };
    match first {
        b'#' => Ok(None),
        b'=' => Ok(Some((Token::Equals, rest))),
        b';' => Ok(Some((Token::Semicolon, rest))),
        b'\'' => single(rest),
        b'"' => double(rest),
        _ => hexadecimal_or_word(line),
    }
}

/// The first token of a line, and what follows it.
fn first_token(line: &[u8]) -> Result<Option<(Token<'_>, &[u8])>, NotAToken>
    ensures token { IfOk result (λ found.
        IfSome found (λ pair. tokens.TakesToken line.now (view pair.0) pair.1.now)) }
    ensures end { IfOk result (λ found. IfNone found (tokens.AreTokens line.now [])) }
    ensures none { OnErr result (tokens.HasNoTokens line.now) }
    ensures shorter { IfOk result (λ found.
        IfSome found (λ pair. length pair.1.now < length line.now)) }
{
    token_at(after_blanks(line))
}

/// No line that makes a call or queues an answer has more tokens: `gz`, a value, and eight calls, each with a name, an
/// operand and a mark.
pub(crate) const MAX_TOKENS: usize = 26;

/// Puts the tokens of a line in place of other tokens, and says whether the line has no bytes that are none, and no
/// more tokens than a line that says something. So the longest line takes no more memory than any other.
pub fn read_tokens<'a>(line: &'a [u8], read: &mut Vec<Token<'a>>) -> Result<bool, HostFull>
    ensures { IfOk result (λ is_read. MatchBool is_read
        (tokens.AreTokens line.now (map view read.new.items)) (tokens.HasNoFewTokens line.now)) }
{
    read.clear();
    let mut rest = line;
    loop {
        let Ok(first) = first_token(rest) else {
            return Ok(false);
        };
        let Some((token, after)) = first else {
            return Ok(true);
        };
        if read.len() >= MAX_TOKENS {
            return Ok(false);
        }
        read.push(token)?;
        rest = after;
    }
}
