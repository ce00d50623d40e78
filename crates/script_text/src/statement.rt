//! What a line says, from its tokens.

ghost use Rattle.std.specs.Prelude.{◌≡◌, ◌<◌, List, ℕ, length, ◌++◌, ◌∷◌, map, option_map, IfOk, IfSome, IfNone, OnOk, MatchBool};
ghost use Rattle.std.specs.Option.{option_copied};
ghost use Rattle.script_lang.specs.Names.{most_names};
ghost use Rattle.script_text.specs.Found.{Finds};
ghost use Rattle.script_text.specs.Tokens as tokens;
ghost use Rattle.script_text.specs.Front.{view};
ghost use Rattle.script_text.specs.Names.{place_for};
ghost use Rattle.script_text.specs.Script.{assignment, assigned_by, HasNoFirstWord, HasNoCall, MayAssign, IsCall, IsStatement, with_assigned, names_after};
ghost use Rattle.script_lang.specs.Table.{signature};

use crate::answer::answer_line;
use crate::call::call_of_tokens;
use crate::names::Names;
use crate::operand::is_name;
use crate::token::Token;
use bumpalo::Bump;
use mac_base::error::HostFull;
use script_lang::{CallLine, CallName, Name, Statement};

/// The name that a line assigns, if it begins so, and the tokens after `name =`.
pub(crate) fn assigned_name<'a, 'b>(line: &'b [Token<'a>]) -> (Option<&'a [u8]>, &'b [Token<'a>])
    ensures parts { map view line.now
        ≡ assignment (option_copied result.0) ++ map view result.1.now }
    ensures name { option_copied result.0 ≡ assigned_by (map view line.now) }
{
    match line {
        [Token::Word(name), Token::Equals, rest @ ..] => (Some(*name), rest),
        _ => (None, line),
    }
}

/// The word that the tokens begin with, and those after it.
pub(crate) fn first_word<'a, 'b>(line: &'b [Token<'a>]) -> Option<(&'a [u8], &'b [Token<'a>])>
    ensures found { IfSome result (λ parts.
        map view line.now ≡ tokens.Word parts.0.now ∷ map view parts.1.now) }
    ensures none { IfNone result (HasNoFirstWord (map view line.now)) }
{
    match line {
        [Token::Word(word), rest @ ..] => Some((*word, rest)),
        _ => None,
    }
}

/// The name that a line assigns, which is added to the names.
fn add_assigned<'a>(names: &mut Names<'a>, word: Option<&'a [u8]>) -> Result<Option<Name>, HostFull>
    requires { length names.old < most_names }
    ensures name { IfOk result (λ name. name ≡ option_map (place_for names.old) (option_copied word.entry)) }
    ensures names { OnOk result (names.new ≡ with_assigned names.old (option_copied word.entry)) }
{
    match word {
        Some(word) => Ok(Some(names.add(word)?)),
        None => Ok(None),
    }
}

/// The call whose name the tokens begin with, and those after it.
fn named_call<'a, 'b>(line: &'b [Token<'a>]) -> Option<(CallName, &'b [Token<'a>])>
    ensures found { IfSome result (λ parts.
        map view line.now ≡ tokens.Word (signature parts.0).name ∷ map view parts.1.now) }
    ensures none { IfNone result (HasNoCall (map view line.now)) }
{
    let (word, rest) = first_word(line)?;
    Some((CallName::named(word)?, rest))
}

/// Whether a line may assign this name, if it assigns one, to the first result of this call.
fn may_assign(name: Option<&[u8]>, call: CallName) -> bool
    ensures { MatchBool result (MayAssign (signature call).is_assignable (option_copied name.entry)) (¬ MayAssign (signature call).is_assignable (option_copied name.entry)) }
{
    match name {
        Some(name) => call.signature().is_assignable && is_name(name),
        None => true,
    }
}

/// The call that the tokens of a line make, where these names have been assigned.
fn call_line<'a>(
    arena: &'a Bump,
    line: &[Token<'a>],
    names: &mut Names<'a>,
) -> Result<Option<CallLine<'a>>, HostFull>
    requires { length names.old < most_names }
    ensures line { IfOk result (λ found. Finds found (IsCall names.old (map view line.now))) }
    ensures names { IfOk result (λ found. IfSome found (λ _.
        names.new ≡ names_after names.old (map view line.now))) }
    ensures kept { IfOk result (λ found. IfNone found (names.new ≡ names.old)) }
{
    let (assigned, line) = assigned_name(line);
    let Some((call, line)) = named_call(line) else {
        return Ok(None);
    };
    if !may_assign(assigned, call) {
        return Ok(None);
    }
    let Some(call) = call_of_tokens(arena, call, line, names)? else {
        return Ok(None);
    };
    let assigned = add_assigned(names, assigned)?;
    Ok(Some(CallLine { assigned, call }))
}

/// What the tokens of a line say, where these names have been assigned: a call or an answer.
pub fn statement<'a>(
    arena: &'a Bump,
    line: &[Token<'a>],
    names: &mut Names<'a>,
) -> Result<Option<Statement<'a>>, HostFull>
    requires { length names.old < most_names }
    ensures line { IfOk result (λ found. Finds found (IsStatement names.old (map view line.now))) }
    ensures names { IfOk result (λ found. IfSome found (λ _.
        names.new ≡ names_after names.old (map view line.now))) }
{
    if let Some(call) = call_line(arena, line, names)? {
        return Ok(Some(Statement::Call(call)));
    }
    match answer_line(arena, line, names)? {
        Some(answer) => Ok(Some(Statement::Answer(answer))),
        None => Ok(None),
    }
}
