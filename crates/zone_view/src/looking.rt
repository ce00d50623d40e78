//! What a look does with its words, the host's files and its output.

ghost use Rattle.std.specs.Prelude.{◌≡◌, List, IfOk, drop, map};
ghost use Rattle.zone_look.specs.Look.{IsLook};
ghost use Rattle.zone_view.specs.Looking.{HelpEnds, LookEnds, Refuses, ShowsZone, Viewed, status_of};

use crate::asked::{NotAsked, Request, asked_by};
use crate::reading::{Acts, NotRead, read_path};
use crate::shown::write_look;
use crate::writing::{NotWritten, write};
use mac_base::block::{Block, Entry, Flags, Kind};
use std::alloc::{AllocError, Global};
use std::convert::AsStr;
use std::fmt::Display;
use std::io::Write;
use thiserror::Error;
use zone_look::{Dump, Found, look, look_laws};

/// The exit statuses: all is as it should be, the file isn't read or what is found isn't written, the words are bad, or
/// something is wrong with the zone.
const SOUND: u8 = 0;

const FAILED: u8 = 1;

const BAD_WORDS: u8 = 2;

const WRONG: u8 = 3;

/// A block of no bytes, for the rows that blocks are put in.
const NO_BLOCK: Block = Block {
    address: 0,
    entry: Entry {
        size: 0,
        kind: Kind::Free,
    },
    length: 0,
    flags: Flags::NONE,
};

/// What is found in memory, and all its blocks.
#[derive(Drop)]
struct Seen {
    found: Found,
    blocks: Vec<Block>,
}

/// A file that isn't read, and why.
#[derive(Debug, Drop, Error)]
#[error("error: {path:?} isn't looked at: {why}")]
struct Unread<'a> {
    path: &'a str,
    why: NotRead,
}

/// The exit status after a look.
fn status_of(found: Found) -> u8
    ensures { result ≡ status_of found }
{
    if found.fault.is_none() { SOUND } else { WRONG }
}

/// The bytes from a place on.
fn bytes_from(bytes: &[u8], at: u32) -> &[u8]
    ensures { result.now ≡ drop at bytes.now }
{
    match bytes.get(at as usize..) {
        Some(rest) => rest,
        None => &[],
    }
}

/// What is found in memory.
fn all_seen(alloc: Global, dump: &Dump) -> Result<Seen, AllocError>
    ensures seen { IfOk result (λ seen. IsLook dump.now seen.found seen.blocks.items) }
    ensures some { (found : Found) × (blocks : List Block) × IsLook dump.now found blocks }
{
    look_laws();
    let counted = look::<Block>(dump, &mut []);
    let mut blocks = vec![in alloc; NO_BLOCK; counted.blocks]?;
    let found = look(dump, &mut blocks);
    Ok(Seen { found, blocks })
}

/// Shows the zone in the bytes of a file, and gives the exit status.
fn show<W: Write>(
    alloc: Global,
    request: &Request<'_>,
    bytes: &[u8],
    output: &mut W,
) -> Result<u8, NotWritten>
    ensures { ShowsZone request.now bytes.now (W.contents output.old) (W.contents output.new) result }
{
    let dump = Dump::new(
        request.heads,
        request.base,
        bytes_from(bytes, request.skipped),
    );
    let seen = all_seen(alloc, &dump)?;
    write_look(
        alloc,
        request.is_json,
        seen.blocks.as_slice(),
        seen.found,
        output,
    )?;
    Ok(status_of(seen.found))
}

/// Writes a message.
fn say<D: Display + Drop, M: Write>(text: D, messages: &mut M) {
    let _ = write!(messages, "{text}\n");
}

/// Looks at the file that was asked for, and gives the exit status. Why that can't be is written to `messages`.
fn look_at<W: Write, M: Write>(
    rt: &HostRuntime,
    request: &Request<'_>,
    output: &mut W,
    messages: &mut M,
    acts: &mut Acts,
) -> u8
    ensures { Viewed request.now acts.old acts.new (W.contents output.old) (W.contents output.new) (messages.new ≡ messages.old) result }
{
    let path = request.path;
    let bytes = match read_path(rt, path, acts) {
        Ok(bytes) => bytes,
        Err(why) => {
            say(Unread { path, why }, messages);
            return FAILED;
        }
    };
    match show(rt.alloc(), request, bytes.as_slice(), output) {
        Ok(status) => status,
        Err(why) => {
            say(why, messages);
            FAILED
        }
    }
}

/// Writes the help text, and gives the exit status.
fn show_help<W: Write, M: Write>(
    alloc: Global,
    text: &clap::Error,
    output: &mut W,
    messages: &mut M,
) -> u8
    ensures { HelpEnds (W.contents output.old) (W.contents output.new) (messages.new ≡ messages.old) result }
{
    let Ok(text) = format!(in alloc; "{text}\n") else {
        say(NotWritten::HostFull, messages);
        return FAILED;
    };
    match write(text.as_bytes(), output) {
        Ok(()) => SOUND,
        Err(why) => {
            say(why, messages);
            FAILED
        }
    }
}

/// Says why nothing is looked at, and gives the exit status. Help is written to the output.
fn refuse<W: Write, M: Write>(
    alloc: Global,
    error: &NotAsked,
    output: &mut W,
    messages: &mut M,
) -> u8
    ensures { Refuses error.now (W.contents output.old) (W.contents output.new) (messages.new ≡ messages.old) result }
{
    match error {
        NotAsked::Help(text) => show_help(alloc, text, output, messages),
        NotAsked::HostFull => {
            say(error, messages);
            FAILED
        }
        _ => {
            say(error, messages);
            BAD_WORDS
        }
    }
}

/// Looks as the words ask, of which the first is the program's name, and gives the exit status: 0 where nothing is wrong
/// with the zone, 3 where something is, 2 where the words are bad, and 1 where the file isn't read or what is found isn't
/// written, and `messages` says why. What is found is written to `output`.
pub fn looked<S: AsStr, W: Write, M: Write>(
    rt: &HostRuntime,
    words: &[S],
    output: &mut W,
    messages: &mut M,
    acts: &mut Acts,
) -> u8
    ensures { LookEnds (map S.text words.now) acts.old acts.new (W.contents output.old) (W.contents output.new) (messages.new ≡ messages.old) result }
{
    match asked_by(rt.alloc(), words) {
        Ok(request) => look_at(rt, &request, output, messages, acts),
        Err(error) => refuse(rt.alloc(), &error, output, messages),
    }
}
