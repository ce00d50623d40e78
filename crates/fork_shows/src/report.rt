//! Reports on files: their resources, their faults, and what is known of them.

ghost use Rattle.file_acts.specs.Acts.{ReadsNothing};
ghost use Rattle.image_acts.specs.Words.{ReadsWord, ReadsWords};
ghost use Rattle.std.specs.Prelude.{◌≡◌, ◌≤◌, if◌then◌else◌, IfOk};

use crate::images::described;
use crate::several::{higher, note_archive, write_lines};
use file_acts::acts::{Acts, write_text};
use file_acts::host::Host;
use file_acts::message::{CANT_GO_ON, DONE, NO_FORK, Problem, finish};
use file_acts::parts::list_by_parts;
use fork_disk::World;
use fork_report::{
    Bytes, Digests, Form, InsideNote, Refusal, Report, Told, refused_line, report_on,
};
use fork_words::asked::Reporting;
use image_acts::read;
use std::alloc::AllocError;

/// Reports on each of these files, and says why of some nothing is reported. The result is the highest status of them.
pub fn report_all<W: World>(host: &Host<'_>, asked: &Reporting<'_>, acts: &mut Acts) -> u8
    ensures few { result ≤ CANT_GO_ON }
    ensures quiet { ReadsWords asked.now.files.items acts.old.events acts.new.events }
{
    let files = asked.files.as_slice();
    let mut status = DONE;
    for file in files {
        let reported = report_one::<W>(host, asked, file, acts);
        status = higher(status, finish(host, file, reported));
    }
    status
}

/// Reports on the file of this name. The result is its status, or why nothing is reported.
fn report_one<W: World>(
    host: &Host<'_>,
    asked: &Reporting<'_>,
    file: &str,
    acts: &mut Acts,
) -> Result<u8, Problem>
    ensures few { IfOk result (λ status. status ≤ NO_FORK) }
    ensures quiet { ReadsWord file.now acts.old.events acts.new.events }
{
    match report_file::<W>(host, &asked.report, file, acts) {
        Ok(told) => print_told(host, asked, file, &told, acts),
        Err(problem) if is_json(&asked.report) => Err(refused(host, file, problem, acts)),
        Err(problem) => Err(problem),
    }
}

/// Whether a report is one of lines of JSON, in which each file is named.
fn is_json(report: &Report) -> bool {
    matches!(report.form(), Form::Json)
}

/// What is reported of the file of this name.
fn report_file<W: World>(
    host: &Host<'_>,
    report: &Report,
    file: &str,
    acts: &mut Acts,
) -> Result<Told, Problem>
    ensures quiet { ReadsWord file.now acts.old.events acts.new.events }
{
    if let Report::List {
        kinds,
        shown: Bytes::Hidden,
        digests: Digests::Hidden,
    } = report
    {
        return match list_by_parts::<W>(host, file, kinds.as_slice(), acts) {
            Some(Ok(line)) => Ok(Told::whole(line)),
            Some(Err(_)) => Err(Problem::HostFull),
            None => report_whole::<W>(host, report, file, acts),
        };
    }
    if let Some(told) = described::<W>(host, report, file, acts)? {
        return Ok(told);
    }
    report_whole::<W>(host, report, file, acts)
}

/// The same of a file of which all bytes are read.
fn report_whole<W: World>(
    host: &Host<'_>,
    report: &Report,
    file: &str,
    acts: &mut Acts,
) -> Result<Told, Problem>
    ensures quiet { ReadsWord file.now acts.old.events acts.new.events }
{
    let bytes = read::<W>(host, file, acts)?;
    match report_on(host.alloc(), report, file, &bytes) {
        Ok(told) => Ok(told),
        Err(refusal) => Err(Problem::of_refusal(host.alloc(), refusal, &bytes)),
    }
}

/// Writes what is reported of the file of this name, and notes the archive in it. The result is its status.
fn print_told(
    host: &Host<'_>,
    asked: &Reporting<'_>,
    file: &str,
    told: &Told,
    acts: &mut Acts,
) -> Result<u8, Problem>
    ensures status { IfOk result (λ status. status ≡ (if told.now.is_damaged then NO_FORK else DONE)) }
    ensures quiet { ReadsNothing acts.old.events acts.new.events }
{
    write_told(host, asked, file, told, acts)?;
    note_archive(host, file, told.archive);
    Ok(if told.is_damaged { NO_FORK } else { DONE })
}

/// Writes what is reported of the file of this name.
fn write_told(
    host: &Host<'_>,
    asked: &Reporting<'_>,
    file: &str,
    told: &Told,
    acts: &mut Acts,
) -> Result<(), Problem>
    ensures quiet { ReadsNothing acts.old.events acts.new.events }
{
    if is_json(&asked.report) {
        write_text(host, &told.text, acts)
    } else {
        let several = asked.files.len() > 1;
        write_lines(
            host,
            asked.titles,
            several,
            file,
            told.text.as_bytes(),
            acts,
        )
    }
}

/// Writes as JSON why nothing is reported of a file, which is what is in the way then, unless the line isn't written.
fn refused(host: &Host<'_>, file: &str, problem: Problem, acts: &mut Acts) -> Problem
    ensures quiet { ReadsNothing acts.old.events acts.new.events }
{
    let Ok(line) = refusal_line(host, file, &problem) else {
        return problem;
    };
    match write_text(host, &line, acts) {
        Ok(()) => problem,
        Err(unprinted) => unprinted,
    }
}

/// The line of JSON for a file that isn't shown.
fn refusal_line(host: &Host<'_>, file: &str, problem: &Problem) -> Result<String, AllocError> {
    let alloc = host.alloc();
    let told = match problem {
        Problem::Refused(Refusal::Inside(archive)) => {
            let note = InsideNote {
                archive: *archive,
                file,
            };
            format!(in alloc; "{note}")?
        }
        problem => format!(in alloc; "{problem}")?,
    };
    refused_line(alloc, file, problem.status(), told.as_str())
}
