//! Files that are resource forks and nothing else: of them only what is shown is read.

ghost use Rattle.std.specs.Prelude.{◌≡◌, ◌≢◌, [], Err, IfErr, IfNone, IfSome, Some};
ghost use Rattle.fork_bytes.specs.declared.fault.ForkFault.{ForkFault};
ghost use Rattle.fork_answer.specs.Answer.{IsQuiet};
ghost use Rattle.file_acts.specs.Acts.{ReadsOnly};

use crate::acts::{Acts, look_at, note_parts};
use crate::host::Host;
use fork_answer::request::Request;
use fork_answer::{Failure, answer_in_parts, rows_in_parts};
use fork_disk::store::PlainStore;
use fork_disk::{FileDisk, HostFile, World};
use fork_list::has_marked;
use fork_report::fork_line;
use fork_words::INPUT;
use mac_base::resource::ResType;
use std::alloc::AllocError;
use std::fs;
use std::io::Write;

/// Opens a file to be read in parts, of which nothing was asked so far.
fn open_parts<W: World>(host: &Host<'_>, name: &str) -> Option<PlainStore<FileDisk<W>>>
    ensures { IfSome result (λ store. store.disk.log.events ≡ []) }
{
    let file = fs::open(host.rt, name).ok()?;
    Some(PlainStore {
        disk: FileDisk::new(HostFile::new(file), 0),
    })
}

/// The file of this name, if it can be read in parts.
fn file_of<W: World>(
    host: &Host<'_>,
    name: &str,
    acts: &mut Acts,
) -> Option<PlainStore<FileDisk<W>>>
    ensures quiet { ReadsOnly name.now acts.old.events acts.new.events }
    ensures fresh { IfSome result (λ store. store.disk.log.events ≡ []) }
{
    if name == INPUT {
        return None;
    }
    match look_at(host, name, acts) {
        Ok(Some(found)) if found.is_regular() => open_parts(host, name),
        _ => None,
    }
}

/// Writes what is asked for of the file of this name. None where it isn't a resource fork and nothing else, where it is
/// damaged, where a resource of a list may be compressed, and where something is in the way: all of it has to be read
/// then.
pub fn answer_by_parts<W: World, O: Write>(
    host: &Host<'_>,
    request: &Request,
    name: &str,
    output: &mut O,
    acts: &mut Acts,
) -> Option<Result<(), Failure>>
    ensures none { IfNone result (output.new ≡ output.old) }
    ensures quiet { IfSome result (λ shown. IfErr shown (λ failure. IsQuiet failure → output.new ≡ output.old)) }
    ensures whole { (fault : ForkFault) → result ≢ Some (Err (Failure.Fork fault)) }
    ensures reads { ReadsOnly name.now acts.old.events acts.new.events }
{
    let mut store = file_of::<W>(host, name, acts)?;
    let answered = answer_in_parts(host.alloc(), request, &mut store, output);
    note_parts(acts, name, &store);
    match answered? {
        Err(Failure::Fork(_)) => None,
        shown => Some(shown),
    }
}

/// The list of the resources of the file of this name, as JSON. None where all of the file has to be read, as where a
/// resource may be compressed.
pub fn list_by_parts<W: World>(
    host: &Host<'_>,
    name: &str,
    kinds: &[ResType],
    acts: &mut Acts,
) -> Option<Result<String, AllocError>>
    ensures reads { ReadsOnly name.now acts.old.events acts.new.events }
{
    let mut store = file_of::<W>(host, name, acts)?;
    let rows = rows_in_parts(host.alloc(), &mut store);
    note_parts(acts, name, &store);
    let rows = rows?.ok()?;
    if has_marked(rows.as_slice()) {
        return None;
    }
    Some(fork_line(host.alloc(), name, kinds, rows.as_slice()))
}
