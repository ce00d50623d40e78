//! What is shown of files: their lists, and their resources' bytes.

ghost use Rattle.image_acts.specs.Words.{ReadsWord, ReadsWords};
ghost use Rattle.std.specs.Prelude.{◌≡◌, ◌≤◌, IfOk, is_none, true};
ghost use Rattle.fork_answer.specs.Answer.{is_get};
ghost use Rattle.fork_shows.specs.Written.{WritesLast};

use crate::images::print_images;
use crate::output::write_to;
use crate::several::{higher, note_archive, write_lines};
use file_acts::acts::Acts;
use file_acts::found::refused_as;
use file_acts::host::Host;
use file_acts::message::{CANT_GO_ON, DONE, Problem, finish};
use file_acts::parts::answer_by_parts;
use fork_answer::Failure;
use fork_answer::answer::answer;
use fork_answer::request::Request;
use fork_disk::World;
use fork_report::archive_inside;
use fork_words::asked::Showing;
use image_acts::read;
use std::io::IsTerminal;

/// Shows something of each of these files, and says why some aren't shown. The result is the highest status of them.
pub fn show_all<W: World>(host: &Host<'_>, asked: &Showing<'_>, acts: &mut Acts) -> u8
    ensures few { result ≤ CANT_GO_ON }
    ensures quiet { is_none asked.now.output ≡ true → ReadsWords asked.now.files.items acts.old.events acts.new.events }
{
    let files = asked.files.as_slice();
    let mut status = DONE;
    for file in files {
        let shown = show_file::<W>(host, asked, file, acts);
        status = higher(status, finish(host, file, shown));
    }
    status
}

/// Shows something of the file of this name. The result is the exit status.
fn show_file<W: World>(
    host: &Host<'_>,
    asked: &Showing<'_>,
    file: &str,
    acts: &mut Acts,
) -> Result<u8, Problem>
    ensures done { IfOk result (λ status. status ≡ DONE) }
    ensures quiet { is_none asked.now.output ≡ true → ReadsWord file.now acts.old.events acts.new.events }
    ensures written { is_get asked.now.request ≡ true → IfOk result (λ _. WritesLast asked.now.output acts.new.events) }
{
    match show::<W>(host, asked, file, acts) {
        Ok(()) => Ok(DONE),
        Err(problem) => Err(problem),
    }
}

/// Shows something of the file of this name, on the standard output or in a file.
fn show<W: World>(
    host: &Host<'_>,
    asked: &Showing<'_>,
    file: &str,
    acts: &mut Acts,
) -> Result<(), Problem>
    ensures quiet { is_none asked.now.output ≡ true → ReadsWord file.now acts.old.events acts.new.events }
    ensures written { is_get asked.now.request ≡ true → IfOk result (λ _. WritesLast asked.now.output acts.new.events) }
{
    match asked.output {
        None if !asked.request.is_for_files() => print_list::<W>(host, asked, file, acts),
        None if host.rt.stdout().is_terminal() => Err(Problem::Terminal),
        output => write_answer::<W>(host, &asked.request, file, output, acts),
    }
}

/// Writes a list of what the file of this name has, after its name where there are several files. Where there is
/// nothing to list, its name isn't written, and what is in its data fork is noted.
fn print_list<W: World>(
    host: &Host<'_>,
    asked: &Showing<'_>,
    file: &str,
    acts: &mut Acts,
) -> Result<(), Problem>
    ensures quiet { ReadsWord file.now acts.old.events acts.new.events }
{
    if print_images::<W>(host, asked, file, acts)? {
        return Ok(());
    }
    let answered = answer_file::<W>(host, &asked.request, file, acts)?;
    if answered.text.is_empty() {
        note_inside(host, file, &answered);
    }
    let several = asked.files.len() > 1;
    write_lines(host, asked.titles, several, file, &answered.text, acts)
}

/// Notes the archive in a file without resources whose bytes were all read, if there is one.
fn note_inside(host: &Host<'_>, file: &str, answered: &Answered) {
    if let Some(bytes) = &answered.bytes {
        note_archive(host, file, archive_inside(host.alloc(), bytes));
    }
}

/// Writes what is asked for of the file of this name, to another or to the standard output.
fn write_answer<W: World>(
    host: &Host<'_>,
    request: &Request,
    file: &str,
    output: Option<&str>,
    acts: &mut Acts,
) -> Result<(), Problem>
    ensures quiet { is_none output.entry ≡ true → ReadsWord file.now acts.old.events acts.new.events }
    ensures written { IfOk result (λ _. WritesLast output.entry acts.new.events) }
{
    let answered = answer_file::<W>(host, request, file, acts)?;
    write_to(host, output, &answered.text, acts)
}

/// What is asked for of a file, and the file's bytes, where all of them were read.
#[derive(Drop)]
struct Answered {
    text: Vec<u8>,
    bytes: Option<Vec<u8>>,
}

/// What is asked for of the file of this name.
fn answer_file<W: World>(
    host: &Host<'_>,
    request: &Request,
    file: &str,
    acts: &mut Acts,
) -> Result<Answered, Problem>
    ensures quiet { ReadsWord file.now acts.old.events acts.new.events }
{
    let mut text = Vec::new(host.alloc());
    match answer_by_parts::<W, Vec<u8>>(host, request, file, &mut text, acts) {
        Some(Ok(())) => Ok(Answered { text, bytes: None }),
        Some(Err(failure)) => Err(unanswered(host, request, failure, &[])),
        None => answer_whole::<W>(host, request, file, acts),
    }
}

/// The same of a file of which all bytes are read.
fn answer_whole<W: World>(
    host: &Host<'_>,
    request: &Request,
    file: &str,
    acts: &mut Acts,
) -> Result<Answered, Problem>
    ensures quiet { ReadsWord file.now acts.old.events acts.new.events }
{
    let bytes = read::<W>(host, file, acts)?;
    let mut text = Vec::new(host.alloc());
    match answer(host.alloc(), request, &bytes, &mut text) {
        Ok(()) => Ok(Answered {
            text,
            bytes: Some(bytes),
        }),
        Err(failure) => Err(unanswered(host, request, failure, &bytes)),
    }
}

/// Why what is asked for isn't shown of a file with these bytes. A resource that isn't there is named.
fn unanswered(host: &Host<'_>, request: &Request, failure: Failure, bytes: &[u8]) -> Problem {
    match (request, failure) {
        (Request::Get(wanted), Failure::NotFound) => Problem::of_missing(host.alloc(), wanted),
        (_, failure) => refused_as(host.alloc(), failure, bytes),
    }
}
