//! Calls, from their names and the tokens of their operands.

ghost use Rattle.std.specs.Prelude.{◌≡◌, map, option_to_list, IfOk};
ghost use Rattle.script_lang.specs.declared.table.CallName.TheVariants as name;
ghost use Rattle.script_text.specs.Found.{Finds};
ghost use Rattle.script_text.specs.Front.{view};
ghost use Rattle.script_text.specs.Operands.{Bytes, AreOperands, AreTwoNumbers, AreTypeAndId, IsNamedCall};

use crate::names::Names;
use crate::operand::{bytes_of, id_or_variable, number_or_variable, type_of};
use crate::token::Token;
use bumpalo::Bump;
use mac_base::Span;
use mac_base::error::HostFull;
use mac_base::resource::ResType;
use script_lang::{
    BytesName, CallName, FileName, IdOperand, KindName, NamedCall, NumberName, NumberOperand,
    PlainName, ResourceName, ThreeNumbersName, TwoNumbersName,
};

fn plain_call<'a>(call: PlainName, tokens: &[Token<'_>], names: &Names<'_>) -> Option<NamedCall<'a>>
    ensures { Finds result (IsNamedCall names.now (name.Plain call) (map view tokens.now)) }
{
    match tokens {
        [] => Some(NamedCall::Plain(call)),
        _ => None,
    }
}

fn number_call<'a>(
    call: NumberName,
    tokens: &[Token<'_>],
    names: &Names<'_>,
) -> Option<NamedCall<'a>>
    ensures { Finds result (IsNamedCall names.now (name.Number call) (map view tokens.now)) }
{
    let [one] = tokens else {
        return None;
    };
    Some(NamedCall::Number(call, number_or_variable(*one, names)?))
}

/// The numbers or variables that two tokens are.
fn two_numbers(
    first: Token<'_>,
    second: Token<'_>,
    names: &Names<'_>,
) -> Option<(NumberOperand, NumberOperand)>
    ensures { Finds result (AreTwoNumbers names.now (view first.entry) (view second.entry)) }
{
    let first = number_or_variable(first, names)?;
    let second = number_or_variable(second, names)?;
    Some((first, second))
}

fn two_numbers_call<'a>(
    call: TwoNumbersName,
    tokens: &[Token<'_>],
    names: &Names<'_>,
) -> Option<NamedCall<'a>>
    ensures { Finds result (IsNamedCall names.now (name.TwoNumbers call) (map view tokens.now)) }
{
    let [first, second] = tokens else {
        return None;
    };
    let (first, second) = two_numbers(*first, *second, names)?;
    Some(NamedCall::TwoNumbers(call, first, second))
}

fn three_numbers_call<'a>(
    call: ThreeNumbersName,
    tokens: &[Token<'_>],
    names: &Names<'_>,
) -> Option<NamedCall<'a>>
    ensures { Finds result (IsNamedCall names.now (name.ThreeNumbers call) (map view tokens.now)) }
{
    let [first, second, third] = tokens else {
        return None;
    };
    let (first, second) = two_numbers(*first, *second, names)?;
    let third = number_or_variable(*third, names)?;
    Some(NamedCall::ThreeNumbers(call, first, second, third))
}

fn block_move<'a>(tokens: &[Token<'_>], names: &Names<'_>) -> Option<NamedCall<'a>>
    ensures { Finds result (IsNamedCall names.now name.BlockMove (map view tokens.now)) }
{
    let [from, start, to, offset, count] = tokens else {
        return None;
    };
    let (from, start) = two_numbers(*from, *start, names)?;
    let (to, offset) = two_numbers(*to, *offset, names)?;
    let count = number_or_variable(*count, names)?;
    Some(NamedCall::BlockMove(from, start, to, offset, count))
}

fn bytes_call<'a>(
    arena: &'a Bump,
    call: BytesName,
    tokens: &[Token<'a>],
    names: &Names<'_>,
) -> Result<Option<NamedCall<'a>>, HostFull>
    ensures { IfOk result (λ found. Finds found (IsNamedCall names.now (name.Bytes call) (map view tokens.now))) }
{
    let [block, offset, bytes] = tokens else {
        return Ok(None);
    };
    let Some((block, offset)) = two_numbers(*block, *offset, names) else {
        return Ok(None);
    };
    let Some(bytes) = bytes_of(arena, *bytes)? else {
        return Ok(None);
    };
    Ok(Some(NamedCall::Bytes(call, block, offset, bytes)))
}

/// The type, and the id or variable, that two tokens are.
fn type_and_id(
    arena: &Bump,
    kind: Token<'_>,
    id: Token<'_>,
    names: &Names<'_>,
) -> Result<Option<(ResType, IdOperand)>, HostFull>
    ensures { IfOk result (λ found. Finds found (AreTypeAndId names.now (view kind.entry) (view id.entry))) }
{
    let Some(kind) = type_of(arena, kind)? else {
        return Ok(None);
    };
    match id_or_variable(id, names) {
        Some(id) => Ok(Some((kind, id))),
        None => Ok(None),
    }
}

fn resource_call<'a>(
    arena: &Bump,
    call: ResourceName,
    tokens: &[Token<'_>],
    names: &Names<'_>,
) -> Result<Option<NamedCall<'a>>, HostFull>
    ensures { IfOk result (λ found. Finds found (IsNamedCall names.now (name.Resource call) (map view tokens.now))) }
{
    let [kind, id] = tokens else {
        return Ok(None);
    };
    match type_and_id(arena, *kind, *id, names)? {
        Some((kind, id)) => Ok(Some(NamedCall::Resource(call, kind, id))),
        None => Ok(None),
    }
}

fn get_ind_resource<'a>(
    arena: &Bump,
    tokens: &[Token<'_>],
    names: &Names<'_>,
) -> Result<Option<NamedCall<'a>>, HostFull>
    ensures { IfOk result (λ found. Finds found (IsNamedCall names.now name.GetIndResource (map view tokens.now))) }
{
    let [kind, index] = tokens else {
        return Ok(None);
    };
    let Some(kind) = type_of(arena, *kind)? else {
        return Ok(None);
    };
    match number_or_variable(*index, names) {
        Some(index) => Ok(Some(NamedCall::GetIndResource(kind, index))),
        None => Ok(None),
    }
}

fn kind_call<'a>(
    arena: &Bump,
    call: KindName,
    tokens: &[Token<'_>],
    names: &Names<'_>,
) -> Result<Option<NamedCall<'a>>, HostFull>
    ensures { IfOk result (λ found. Finds found (IsNamedCall names.now (name.Kind call) (map view tokens.now))) }
{
    let [kind] = tokens else {
        return Ok(None);
    };
    match type_of(arena, *kind)? {
        Some(kind) => Ok(Some(NamedCall::Kind(call, kind))),
        None => Ok(None),
    }
}

/// The bytes that the last tokens of a call are, which may be left out.
fn optional_bytes<'a>(
    arena: &'a Bump,
    tokens: &[Token<'a>],
    names: &Names<'_>,
) -> Result<Option<Option<Span<'a>>>, HostFull>
    ensures { IfOk result (λ found. Finds found (λ bytes. AreOperands names.now (map view tokens.now) (map Bytes (option_to_list bytes)))) }
{
    match tokens {
        [] => Ok(Some(None)),
        [bytes] => match bytes_of(arena, *bytes)? {
            Some(bytes) => Ok(Some(Some(bytes))),
            None => Ok(None),
        },
        _ => Ok(None),
    }
}

fn add_resource<'a>(
    arena: &'a Bump,
    tokens: &[Token<'a>],
    names: &Names<'_>,
) -> Result<Option<NamedCall<'a>>, HostFull>
    ensures { IfOk result (λ found. Finds found (IsNamedCall names.now name.AddResource (map view tokens.now))) }
{
    let [handle, kind, id, rest @ ..] = tokens else {
        return Ok(None);
    };
    let Some(handle) = number_or_variable(*handle, names) else {
        return Ok(None);
    };
    let Some((kind, id)) = type_and_id(arena, *kind, *id, names)? else {
        return Ok(None);
    };
    let Some(name) = optional_bytes(arena, rest, names)? else {
        return Ok(None);
    };
    Ok(Some(NamedCall::AddResource(handle, kind, id, name)))
}

fn file_call<'a>(call: FileName, tokens: &[Token<'_>], names: &Names<'_>) -> Option<NamedCall<'a>>
    ensures { Finds result (IsNamedCall names.now (name.File call) (map view tokens.now)) }
{
    match tokens {
        [] => Some(NamedCall::File(call, None)),
        [file] => Some(NamedCall::File(call, Some(number_or_variable(*file, names)?))),
        _ => None,
    }
}

/// The call of this name whose operands the tokens are.
pub fn call_of_tokens<'a>(
    arena: &'a Bump,
    call: CallName,
    tokens: &[Token<'a>],
    names: &Names<'_>,
) -> Result<Option<NamedCall<'a>>, HostFull>
    ensures { IfOk result (λ found. Finds found (IsNamedCall names.now call (map view tokens.now))) }
{
    match call {
        CallName::Plain(call) => Ok(plain_call(call, tokens, names)),
        CallName::Number(call) => Ok(number_call(call, tokens, names)),
        CallName::TwoNumbers(call) => Ok(two_numbers_call(call, tokens, names)),
        CallName::ThreeNumbers(call) => Ok(three_numbers_call(call, tokens, names)),
        CallName::BlockMove => Ok(block_move(tokens, names)),
        CallName::Bytes(call) => bytes_call(arena, call, tokens, names),
        CallName::Resource(call) => resource_call(arena, call, tokens, names),
        CallName::GetIndResource => get_ind_resource(arena, tokens, names),
        CallName::Kind(call) => kind_call(arena, call, tokens, names),
        CallName::AddResource => add_resource(arena, tokens, names),
        CallName::File(call) => Ok(file_call(call, tokens, names)),
    }
}
