//! What tokens begin with.

ghost use Rattle.std.specs.Prelude.{◌≡◌, ◌∷◌, ◌+◌, IfSome, IfOk};
ghost use Rattle.type_source.specs.Spelling.{Bracketed, StartsName, StartsWord};
ghost use Rattle.type_source.specs.declared.token.Token.TheVariants as kinds;

use crate::fault::{Expected, ReadError, refused};
use crate::token::{Mark, Token};

/// How many fields and braces may be in one another and one after the other, and how many names and types.
pub(crate) const MOST_PARTS: u32 = 300;

/// One less of so many parts, if there is one.
pub(crate) fn deeper(depth: u32, tokens: &[Token]) -> Result<u32, ReadError>
    ensures { IfOk result (λ less. less + 1 ≡ depth) }
{
    match depth.checked_sub(1) {
        Some(less) => Ok(less),
        None => Err(refused(tokens, Expected::Less)),
    }
}

/// The tokens after this mark, if they begin with it.
pub(crate) fn after_mark<'s, 'a>(mark: Mark, tokens: &'s [Token<'a>]) -> Option<&'s [Token<'a>]>
    ensures { IfSome result (λ rest. tokens.now ≡ kinds.Mark mark ∷ rest.now) }
{
    match tokens.split_first() {
        Some((Token::Mark(first), rest)) if *first == mark => Some(rest),
        _ => None,
    }
}

/// The tokens after this mark, without which something else is expected.
pub(crate) fn mark_at<'s, 'a>(
    mark: Mark,
    tokens: &'s [Token<'a>],
) -> Result<&'s [Token<'a>], ReadError>
    ensures { IfOk result (λ rest. tokens.now ≡ kinds.Mark mark ∷ rest.now) }
{
    match after_mark(mark, tokens) {
        Some(rest) => Ok(rest),
        None => Err(refused(tokens, Expected::Mark(mark.byte()))),
    }
}

/// The tokens after this word of the language, in letters of either case, if they begin with it.
pub(crate) fn after_word<'s, 'a>(word: &[u8], tokens: &'s [Token<'a>]) -> Option<&'s [Token<'a>]>
    ensures { IfSome result (λ rest. StartsWord word.now tokens.now rest.now) }
{
    match tokens.split_first() {
        Some((Token::Word(name), rest)) if name.eq_ignore_ascii_case(word) => Some(rest),
        _ => None,
    }
}

/// A name, and the tokens after it, if they begin with one.
pub(crate) fn after_name<'s, 'a>(tokens: &'s [Token<'a>]) -> Option<(&'a [u8], &'s [Token<'a>])>
    ensures { IfSome result (λ x. StartsName x.0.now tokens.now x.1.now) }
{
    match tokens.split_first() {
        Some((Token::Word(name), rest)) => Some((*name, rest)),
        _ => None,
    }
}

/// A name, and the tokens after it.
pub(crate) fn name_at<'s, 'a>(
    tokens: &'s [Token<'a>],
) -> Result<(&'a [u8], &'s [Token<'a>]), ReadError>
    ensures { IfOk result (λ x. StartsName x.0.now tokens.now x.1.now) }
{
    match after_name(tokens) {
        Some(found) => Ok(found),
        None => Err(refused(tokens, Expected::Name)),
    }
}

/// A number, and the tokens after it.
pub(crate) fn number_at<'s, 'a>(
    tokens: &'s [Token<'a>],
) -> Result<(u32, &'s [Token<'a>]), ReadError>
    ensures { IfOk result (λ x. tokens.now ≡ kinds.Number x.0 ∷ x.1.now) }
{
    match tokens.split_first() {
        Some((Token::Number(number), rest)) => Ok((*number, rest)),
        _ => Err(refused(tokens, Expected::Number)),
    }
}

/// A number between brackets, if the tokens begin with a bracket.
pub(crate) fn bracketed<'s, 'a>(
    tokens: &'s [Token<'a>],
) -> Result<Option<(u32, &'s [Token<'a>])>, ReadError>
    ensures { IfOk result (λ found. IfSome found (λ x. Bracketed x.0 tokens.now x.1.now)) }
{
    let Some(inside) = after_mark(Mark::OpenBracket, tokens) else {
        return Ok(None);
    };
    let (number, rest) = number_at(inside)?;
    let rest = mark_at(Mark::CloseBracket, rest)?;
    Ok(Some((number, rest)))
}
