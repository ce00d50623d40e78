//! What a line says that queues an answer of the grow-zone procedure, from its tokens.

ghost use Rattle.std.specs.Prelude.{◌≡◌, ◌≢◌, List, [], ◌∷◌, map, codes, IfOk, IfSome, IfNone, MatchBool};
ghost use Rattle.script_text.specs.Answers.{IsAnswer, AreCalls, AreFewCalls, IsNamed, IsWrittenCall, MayFollow, releasing_text};
ghost use Rattle.script_lang.specs.declared.line.WrittenCall.{WrittenCall};
ghost use Rattle.script_text.specs.Found.{Finds};
ghost use Rattle.script_text.specs.Front.{view};
ghost use Rattle.script_text.specs.Tokens as tokens;

use crate::names::Names;
use crate::operand::number_or_variable;
use crate::statement::first_word;
use crate::token::Token;
use bumpalo::Bump;
use bumpalo::collections::into_bump_slice;
use mac_base::error::HostFull;
use script_lang::{AnswerLine, MAX_CALLS, ReleasingName, WrittenAnswer, WrittenCall, WrittenCalls};

/// The call of an answer that has this name.
fn releasing_name(word: &[u8]) -> Option<ReleasingName>
    ensures { Finds result (λ name. releasing_text name ≡ word.now) }
{
    if word == b"DisposeHandle".as_slice() {
        Some(ReleasingName::DisposeHandle)
    } else if word == b"DisposePtr".as_slice() {
        Some(ReleasingName::DisposePtr)
    } else if word == b"EmptyHandle".as_slice() {
        Some(ReleasingName::EmptyHandle)
    } else {
        None
    }
}

/// The call of an answer whose name a token is.
fn name_of_token(token: Token<'_>) -> Option<ReleasingName>
    ensures { Finds result (IsNamed (view token.entry)) }
{
    match token {
        Token::Word(word) => releasing_name(word),
        _ => None,
    }
}

/// The call that two tokens are: a name and an operand.
fn written_call(name: Token<'_>, operand: Token<'_>, names: &Names<'_>) -> Option<WrittenCall>
    ensures { Finds result (IsWrittenCall names.now (view name.entry) (view operand.entry)) }
{
    let call = name_of_token(name)?;
    let operand = number_or_variable(operand, names)?;
    Some(WrittenCall { call, operand })
}

/// Whether tokens may be after a call: none, or a `;` and then others.
fn may_follow(after: &[Token<'_>]) -> bool
    ensures { MatchBool result (MayFollow (map view after.now)) (¬ MayFollow (map view after.now)) }
{
    match after {
        [] => true,
        [Token::Semicolon, _, ..] => true,
        _ => false,
    }
}

/// Puts the calls that tokens are, parted by semicolons, into an empty list, and says whether the tokens are such.
fn read_calls<'a>(
    tokens: &[Token<'_>],
    names: &Names<'_>,
    calls: &mut Vec<WrittenCall, &'a Bump>,
) -> Result<bool, HostFull>
    requires { calls.old.items ≡ [] }
    ensures { IfOk result (λ are. MatchBool are
        (AreCalls names.now (map view tokens.now) calls.new.items)
        ((calls : List WrittenCall) → ¬ AreCalls names.now (map view tokens.now) calls)) }
{
    let mut rest = tokens;
    while let [name, operand, after @ ..] = rest {
        if !may_follow(after) {
            return Ok(false);
        }
        // The call is taken apart so that its operand's type, of another crate, is named here.
        let Some(WrittenCall { call, operand }) = written_call(*name, *operand, names) else {
            return Ok(false);
        };
        calls.push(WrittenCall { call, operand })?;
        rest = &after[after.len().min(1)..];
    }
    Ok(rest.is_empty())
}

/// The calls that tokens are, parted by semicolons, if they aren't more than an answer may have.
fn written_calls<'a>(
    arena: &'a Bump,
    tokens: &[Token<'_>],
    names: &Names<'_>,
) -> Result<Option<WrittenCalls<'a>>, HostFull>
    ensures { IfOk result (λ found. Finds found (AreFewCalls names.now (map view tokens.now))) }
{
    let mut calls = Vec::with_capacity(arena, tokens.len().div_ceil(3))?;
    if !read_calls(tokens, names, &mut calls)? || calls.len() > MAX_CALLS {
        return Ok(None);
    }
    Ok(Some(WrittenCalls::new(into_bump_slice(calls))))
}

/// The token of the value and those after it, if a line queues an answer.
fn value_and_calls<'a, 'b>(line: &'b [Token<'a>]) -> Option<(Token<'a>, &'b [Token<'a>])>
    ensures found { IfSome result (λ parts.
        map view line.now ≡ tokens.Word (codes "gz") ∷ view parts.0 ∷ map view parts.1.now) }
    ensures none { IfNone result ((value : tokens.Token) (calls : List tokens.Token) →
        map view line.now ≢ tokens.Word (codes "gz") ∷ value ∷ calls) }
{
    let (word, rest) = first_word(line)?;
    if word != b"gz".as_slice() {
        return None;
    }
    match rest {
        [value, calls @ ..] => Some((*value, calls)),
        [] => None,
    }
}

/// The answer that the tokens of a line queue, where these names have been assigned.
pub fn answer_line<'a>(
    arena: &'a Bump,
    line: &[Token<'_>],
    names: &Names<'_>,
) -> Result<Option<AnswerLine<'a>>, HostFull>
    ensures { IfOk result (λ found. Finds found (IsAnswer names.now (map view line.now))) }
{
    let Some((value, calls)) = value_and_calls(line) else {
        return Ok(None);
    };
    let Some(value) = number_or_variable(value, names) else {
        return Ok(None);
    };
    let Some(calls) = written_calls(arena, calls, names)? else {
        return Ok(None);
    };
    Ok(Some(AnswerLine::new(WrittenAnswer { value, calls })))
}
