//! The lines of a script.

ghost use Rattle.std.specs.Prelude.{◌≡◌, [], ◌∷◌, ◌<◌, ◌≤◌, ◌==◌, length, position, IfOk, IfErr, IfSome, OnOk, MatchOption};
ghost use Rattle.std.specs.Str.Lines.{lines, strip_carriage_return};
ghost use Rattle.script_text.specs.Script as spec;
ghost use Rattle.script_text.specs.declared.script.Fault.TheVariants.{HostFull};
ghost use Rattle.script_text.specs.Reading.{Reads, Fails, Adds};

use crate::names::Names;
use crate::statement::statement;
use crate::token::{Token, read_tokens};
use crate::wrong::{Wrong, what_is_unread, what_is_wrong};
use bumpalo::Bump;
use mac_base::error::HostFull;
use memchr::memchr;
use script_lang::Line;
use std::alloc::{AllocFailed, Global};
use thiserror::Error;

/// A script has at most this many bytes.
pub const MAX_SCRIPT: usize = 0x10_0000;

/// A script has at most this many lines.
pub const MAX_LINES: u32 = 65536;

/// Why a text gives no lines.
#[derive(Clone, Copy, Debug, Error)]
pub enum Fault {
    /// The first line that is none. It is 0 where the text has too many bytes, and one more than the largest
    /// number of lines where it has too many of those. And what is wrong with it.
    #[error("script fault at line {0}: {1}")]
    Line(u32, Wrong),
    /// The host refused memory.
    #[error("the host has no memory")]
    HostFull,
}

impl From<HostFull> for Fault {
    ghost from_gives = { λ _ fault. fault ≡ HostFull };

    fn from(_: HostFull) -> Fault {
        Fault::HostFull
    }
}

impl<T: Drop> From<AllocFailed<T>> for Fault {
    ghost from_gives = { λ _ fault. fault ≡ HostFull };

    fn from(_: AllocFailed<T>) -> Fault {
        Fault::HostFull
    }
}

/// A line that a newline ends, without the carriage return before it.
fn without_carriage_return(line: &[u8]) -> &[u8]
    ensures { result.now ≡ strip_carriage_return line.now }
{
    match line {
        [front @ .., b'\r'] => front,
        _ => line,
    }
}

/// Where the first newline is.
fn first_newline(text: &[u8]) -> Option<usize>
    ensures { result ≡ position (λ byte. byte == 10) text.now }
{
    memchr(b'\n', text)
}

/// The first line of a text, and the text after it.
fn first_line(text: &[u8]) -> Option<(&[u8], &[u8])>
    ensures lines { MatchOption result (lines text.now ≡ []) (λ parts.
        lines text.now ≡ parts.0.now ∷ lines parts.1.now) }
    ensures shorter { IfSome result (λ parts. length parts.1.now < length text.now) }
{
    if text.is_empty() {
        return None;
    }
    match first_newline(text) {
        Some(end) => Some((without_carriage_return(&text[..end]), &text[end + 1..])),
        None => Some((text, &[])),
    }
}

/// Adds the line of this number to those before it, where these names have been assigned: none, if its text says
/// nothing. The tokens are memory to be used again.
#[inline(always)]
fn add_line<'a>(
    arena: &'a Bump,
    number: u32,
    text: &'a [u8],
    tokens: &mut Vec<Token<'a>>,
    names: &mut Names<'a>,
    script: &mut Vec<Line<'a>>,
) -> Result<(), Fault>
    requires few { length names.old < number }
    ensures few { OnOk result (length names.new ≤ number) }
    ensures line { OnOk result (Adds number names.old text.now script.old.items names.new script.new.items) }
    ensures fault { IfErr result (Fails number names.old text.now) }
{
    if number > MAX_LINES || !read_tokens(text, tokens)? {
        return Err(Fault::Line(number, what_is_unread(number, text, tokens)));
    }
    if tokens.is_empty() {
        return Ok(());
    }
    let Some(statement) = statement(arena, tokens, names)? else {
        return Err(Fault::Line(number, what_is_wrong(tokens, names)));
    };
    script.push(Line { number, statement })?;
    Ok(())
}

/// The lines of a script that say something. The text is a script exactly where each of its lines makes a call, queues
/// an answer or says nothing; a fault names the first that does none of them. The lines show bytes of the text; others
/// are in the arena.
pub fn parse_script<'a>(
    alloc: Global,
    arena: &'a Bump,
    text: &'a [u8],
) -> Result<Vec<Line<'a>>, Fault>
    ensures script { IfOk result (λ lines. spec.IsScript text.now lines.items) }
    ensures fault { IfErr result (spec.IsFault text.now) }
{
    if text.len() > MAX_SCRIPT {
        return Err(Fault::Line(0, Wrong::TooLong));
    }
    let mut script = Vec::new(alloc);
    let mut names = Names::new(alloc, text);
    let mut tokens = Vec::new(alloc);
    let mut rest = text;
    let mut number = 0;
    while let Some((line, after)) = first_line(rest) {
        number += 1;
        add_line(arena, number, line, &mut tokens, &mut names, &mut script)?;
        rest = after;
    }
    Ok(script)
}

/// Any bytes are the script of one list of lines at most, and else they have one first line that is none.
pub fn one_reading()
    ensures script { spec.OneReading }
    ensures fault { spec.OneFault }
    ensures not_both { spec.NoFault }
{}
