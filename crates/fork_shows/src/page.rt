//! A page of HTML that shows what files have.

ghost use Rattle.std.specs.Prelude.{◌≡◌, ◌++◌, ◌≤◌, ℕ, IfOk, List, is_none, true};
ghost use Rattle.file_acts.specs.Acts.{ReadsNothing};
ghost use Rattle.image_acts.specs.Words.{ReadsWord, ReadsWords};
ghost use Rattle.fork_shows.specs.Pages.{AddsFiles, AddsNamed, HasFiles};
ghost use Rattle.fork_shows.specs.Written.{IsWritten};

use crate::output::write_to;
use crate::several::higher;
use file_acts::acts::Acts;
use file_acts::found::{fork_found, table_found};
use file_acts::host::{Host, OUTPUT};
use file_acts::message::{CANT_GO_ON, DONE, Problem, finish};
use fork_bytes::table::Row;
use fork_disk::Unknown;
use fork_page::{PageFile, end_page, new_page, push_file};
use fork_report::{Digests, Form, Report, report_on};
use fork_words::asked::Paging;
use image_acts::read;
use path_text::FileName;
use std::alloc::Global;

/// Writes a page of these files, and says why some aren't on it. The result is the highest status of them.
pub fn write_page(host: &Host<'_>, asked: &Paging<'_>, acts: &mut Acts) -> u8
    ensures few { result ≤ CANT_GO_ON }
    ensures quiet { is_none asked.now.output ≡ true → ReadsWords asked.now.files.items acts.old.events acts.new.events }
    ensures all { result ≡ DONE → (page : List ℕ) × HasFiles asked.now.files.items page × IsWritten asked.now.output page acts.new.events }
{
    let output = asked.output.unwrap_or(OUTPUT);
    let mut page = match new_page(host.alloc()) {
        Ok(page) => page,
        Err(_) => return finish(host, output, Err(Problem::HostFull)),
    };
    let status = add_files(host, asked.files.as_slice(), &mut page, acts);
    let written = put_page(host, asked.output, &mut page, acts);
    higher(status, finish(host, output, written))
}

/// Adds files to a page, and says why some aren't on it. The result is the highest status of them.
fn add_files(host: &Host<'_>, files: &[&str], page: &mut Vec<u8>, acts: &mut Acts) -> u8
    ensures few { result ≤ CANT_GO_ON }
    ensures quiet { ReadsWords files.now acts.old.events acts.new.events }
    ensures all { result ≡ DONE → AddsFiles files.now page.old.items page.new.items }
{
    let mut status = DONE;
    for file in files {
        let added = add_file(host, file, page, acts);
        status = higher(status, finish(host, file, added));
    }
    status
}

/// Adds the file of this name to a page.
fn add_file(host: &Host<'_>, file: &str, page: &mut Vec<u8>, acts: &mut Acts) -> Result<u8, Problem>
    ensures done { IfOk result (λ status. status ≡ DONE) }
    ensures quiet { ReadsWord file.now acts.old.events acts.new.events }
    ensures added { IfOk result (λ _. AddsNamed file.now page.old.items page.new.items) }
{
    let bytes = read::<Unknown>(host, file, acts)?;
    let found = fork_found(host.alloc(), &bytes)?;
    let table = table_found(host.alloc(), &found, &bytes)?;
    add_rows(host.alloc(), file, &bytes, table.rows.as_slice(), page)?;
    Ok(DONE)
}

/// Adds the resources of a file with these bytes to a page, after what the file is.
fn add_rows(
    alloc: Global,
    file: &str,
    bytes: &[u8],
    rows: &[Row<'_>],
    page: &mut Vec<u8>,
) -> Result<(), Problem>
    ensures { IfOk result (λ _. AddsNamed file.now page.old.items page.new.items) }
{
    let shown = FileName(file);
    let name = format!(in alloc; "{shown}")?;
    let report = Report::Info {
        form: Form::Text,
        digests: Digests::Hidden,
    };
    let told = match report_on(alloc, &report, file, bytes) {
        Ok(told) => told,
        Err(refusal) => return Err(Problem::of_refusal(alloc, refusal, bytes)),
    };
    let file = PageFile {
        name: &name,
        facts: &told.text,
        rows,
    };
    push_file(alloc, page, &file)?;
    Ok(())
}

/// Ends a page, and writes it to the file of this name or to the standard output.
fn put_page(
    host: &Host<'_>,
    output: Option<&str>,
    page: &mut Vec<u8>,
    acts: &mut Acts,
) -> Result<u8, Problem>
    ensures done { IfOk result (λ status. status ≡ DONE) }
    ensures quiet { is_none output.entry ≡ true → ReadsNothing acts.old.events acts.new.events }
    ensures written { IfOk result (λ _. (foot : List ℕ) × IsWritten output.entry (page.old.items ++ foot) acts.new.events) }
{
    end_page(page)?;
    write_to(host, output, page, acts)?;
    Ok(DONE)
}
