//! What a run prints.

ghost use Rattle.std.specs.Prelude.{◌≡◌, IfOk};
ghost use Rattle.std.specs.List.{flat_map};
ghost use Rattle.std.specs.Option.{option_copied};
ghost use Rattle.script_lang.specs.Adding.{Adds};
ghost use Rattle.script_lang.specs.Text as texts;

use crate::literal::{push_address, push_bytes, push_number, push_type};
use crate::table::CallName;
use mac_base::block::{Block, Flags, Kind};
use mac_base::error::{HostFull, NO_ERR, OsErr};
use mac_base::name::Name;
use mac_base::{Asked, Reply, ResourceInfo, Results};
use std::alloc::Global;

/// The last line of a run for which the host had no memory.
pub const NO_MEMORY: &[u8] = b"no memory\n";

/// The number of the code of a call, which is noErr where it wasn't refused.
fn code_number(refused: Option<OsErr>) -> i16
    ensures { result ≡ texts.number_of refused }
{
    match refused {
        Some(error) => error.code(),
        None => NO_ERR,
    }
}

/// Adds the name of a resource: its bytes, or `none`.
fn push_name(text: &mut Vec<u8>, name: Option<&Name>) -> Result<(), HostFull>
    ensures { Adds text.old text.new result (texts.name_text (option_copied name.entry)) }
{
    match name {
        Some(name) => push_bytes(text, name.as_slice()),
        None => {
            text.extend_from_slice(b"none")?;
            Ok(())
        }
    }
}

/// Adds what a resource is called: its id, its type and its name.
fn push_info(text: &mut Vec<u8>, info: &ResourceInfo) -> Result<(), HostFull>
    ensures { Adds text.old text.new result (texts.info_text info.now) }
{
    push_number(text, info.id)?;
    text.push(b' ')?;
    push_type(text, info.kind)?;
    text.push(b' ')?;
    push_name(text, info.name.as_ref())
}

/// Adds a space and what a call gave, if it gave something.
fn push_results(text: &mut Vec<u8>, results: &Results) -> Result<(), HostFull>
    ensures { Adds text.old text.new result (texts.results_text results.now) }
{
    if let Results::Nothing = results {
        return Ok(());
    }
    text.push(b' ')?;
    match results {
        Results::Nothing => Ok(()),
        Results::Handle(handle) => push_address(text, handle.number()),
        Results::Pointer(pointer) => push_address(text, pointer.number()),
        Results::Address(address) => push_address(text, *address),
        Results::Number(number) => push_number(text, *number),
        Results::TwoNumbers(one, other) => {
            push_number(text, *one)?;
            text.push(b' ')?;
            push_number(text, *other)
        }
        Results::Code(refused) => push_number(text, code_number(*refused)),
        Results::Bytes(bytes) => push_bytes(text, bytes.as_slice()),
        Results::Blocks(blocks) => push_number(text, blocks.as_slice().len()),
        Results::Kind(kind) => push_type(text, *kind),
        Results::Info(info) => push_info(text, info),
    }
}

/// Adds a reply's results and its code.
fn push_outcome(text: &mut Vec<u8>, reply: &Reply) -> Result<(), HostFull>
    ensures { Adds text.old text.new result (texts.outcome_text reply.now.outcome) }
{
    match &reply.outcome {
        Ok(results) => {
            push_results(text, results)?;
            text.extend_from_slice(b" 0")?;
        }
        Err(error) => {
            text.push(b' ')?;
            push_number(text, error.code())?;
        }
    }
    Ok(())
}

/// The letters of the flags that are set, and `-` for each other.
fn flag_letters(flags: Flags) -> [u8; 3]
    ensures { result ≡ texts.flags_text flags }
{
    [
        if flags.lock { b'L' } else { b'-' },
        if flags.purge { b'P' } else { b'-' },
        if flags.resource { b'R' } else { b'-' },
    ]
}

/// Adds what is in a block, whose owner has so many bytes and these flags.
fn push_kind(text: &mut Vec<u8>, kind: Kind, length: u32, flags: Flags) -> Result<(), HostFull>
    ensures { Adds text.old text.new result (texts.kind_text kind length flags) }
{
    match kind {
        Kind::Free => text.extend_from_slice(b" free")?,
        Kind::Master => text.extend_from_slice(b" master")?,
        Kind::Ptr(_) => {
            text.extend_from_slice(b" ptr ")?;
            push_number(text, length)?;
        }
        Kind::Rel(handle) => {
            text.extend_from_slice(b" rel ")?;
            push_address(text, handle.number())?;
            text.push(b' ')?;
            push_number(text, length)?;
            text.push(b' ')?;
            text.extend_from_slice(&flag_letters(flags))?;
        }
    }
    Ok(())
}

/// Adds the line of a block.
fn push_block(text: &mut Vec<u8>, block: Block) -> Result<(), HostFull>
    ensures { Adds text.old text.new result (texts.block_text block) }
{
    text.extend_from_slice(b"  ")?;
    push_address(text, block.address)?;
    text.push(b' ')?;
    push_number(text, block.entry.size)?;
    push_kind(text, block.entry.kind, block.length, block.flags)?;
    text.push(b'\n')?;
    Ok(())
}

/// Adds the lines of blocks.
fn push_blocks(text: &mut Vec<u8>, blocks: &[Block]) -> Result<(), HostFull>
    ensures { Adds text.old text.new result (flat_map texts.block_text blocks.now) }
{
    for block in blocks {
        push_block(text, *block)?;
    }
    Ok(())
}

/// Adds the lines of the blocks that a reply shows.
fn push_shown(text: &mut Vec<u8>, reply: &Reply) -> Result<(), HostFull>
    ensures { Adds text.old text.new result (texts.blocks_text reply.now.outcome) }
{
    match &reply.outcome {
        Ok(Results::Blocks(blocks)) => push_blocks(text, blocks.as_slice()),
        Ok(_) | Err(_) => Ok(()),
    }
}

/// Adds the line of an ask.
fn push_ask(text: &mut Vec<u8>, asked: Asked) -> Result<(), HostFull>
    ensures { Adds text.old text.new result (texts.asked_text asked) }
{
    text.extend_from_slice(b"  gz ")?;
    push_number(text, asked.needed)?;
    text.push(b' ')?;
    push_number(text, asked.value)?;
    text.push(b'\n')?;
    Ok(())
}

/// Adds the lines of asks.
fn push_asked(text: &mut Vec<u8>, asked: &[Asked]) -> Result<(), HostFull>
    ensures { Adds text.old text.new result (flat_map texts.asked_text asked.now) }
{
    for ask in asked {
        push_ask(text, *ask)?;
    }
    Ok(())
}

/// Adds what the reply to a line's call prints: the line's number, the call's name, its results and its code, a line
/// for each block that the call shows, and a line for each time that it asked the grow-zone procedure and had an
/// answer.
pub(crate) fn render(
    text: &mut Vec<u8>,
    number: u32,
    call: CallName,
    reply: &Reply,
    asked: &[Asked],
) -> Result<(), HostFull>
    ensures { Adds text.old text.new result (texts.reply_text number call reply.now asked.now) }
{
    push_number(text, number)?;
    text.push(b' ')?;
    text.extend_from_slice(call.signature().name)?;
    push_outcome(text, reply)?;
    text.push(b'\n')?;
    push_shown(text, reply)?;
    push_asked(text, asked)
}

/// The one line that is printed for a script that is none; `line` is the first line that is none.
pub fn fault_line(alloc: Global, line: u32) -> Result<Vec<u8>, HostFull>
    ensures { IfOk result (λ text. text.items ≡ texts.fault_text line) }
{
    let mut text = Vec::from_slice(alloc, b"script fault at line ")?;
    push_number(&mut text, line)?;
    text.push(b'\n')?;
    Ok(text)
}
