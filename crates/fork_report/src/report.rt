//! What the commands do that report on files: what each is, and its faults.

ghost use Rattle.std.specs.Prelude.{◌≡◌, ◌≢◌, ◌↔◌, ℕ, List, [], IfErr, IfOk, IsTrue, Ok, false, string_bytes};
ghost use Rattle.mac_files.specs.Kinds.{kind_of};
ghost use Rattle.mac_files.specs.OldFiles.{fork_of, kind_by, old_file, said_by};
ghost use Rattle.fork_answer.specs.Source.{IsForkIn};
ghost use Rattle.fork_report.specs.Damage.{IsDamaged};
ghost use Rattle.fork_report.specs.Refused.{IsForkCause, IsRefused};
ghost use Rattle.fork_bytes.specs.declared.table.Table.{Table};
ghost use Rattle.fork_answer.specs.Answer.{IsTableOf};
ghost use Rattle.fork_report.specs.Digests.{digest_listing};
ghost use Rattle.fork_report.specs.Inside.{HasArchive, archive_inside};
ghost use Rattle.fork_report.specs.Reported.{HasTable, Tells, TellsOfFork};

use crate::digest::digest_listing;
use crate::info::{info_text, opened};
use crate::inside::archive_in;
use crate::json::{check_line, info_line, list_line};
use crate::json_row::{Bytes, Digests};
use crate::refusal::{Refusal, other_than_fork};
use crate::request::{Form, Report};
use fork_answer::request::Choice;
use fork_answer::warning::{Warning, warnings};
use fork_answer::{Failure, read_table, resource_fork};
use fork_salvage::{Fault, all_faults};
use mac_base::resource::ResType;
use mac_files::OldFile;
use mac_files::archive::Archive;
use std::alloc::{AllocError, Global};

/// What is reported of a file: a text, and whether its fork is damaged.
#[derive(Drop)]
pub struct Told {
    pub text: String,
    pub is_damaged: bool,
    /// The archive or the image of a disk that its data fork is known as, where it has no resources.
    pub archive: Option<Archive>,
}

impl Told {
    /// What is reported of a file that is a fork, which is whole.
    pub fn whole(text: String) -> Told
        ensures { result ≡ record { text = text; is_damaged = false; archive = None } }
    {
        Told {
            text,
            is_damaged: false,
            archive: None,
        }
    }

    /// What is reported of a file whose fork is whole or isn't read, with the archive in it.
    fn of_file(text: String, found: &OldFile<'_>) -> Told
        ensures { result ≡ record { text = text; is_damaged = false; archive = archive_inside (said_by found.now) } }
    {
        Told {
            text,
            is_damaged: false,
            archive: archive_in(found),
        }
    }
}

/// What is reported of a file.
pub fn report_on(alloc: Global, report: &Report, name: &str, bytes: &[u8]) -> Result<Told, Refusal>
    ensures told { IfOk result (Tells report.now bytes.now) }
    ensures refused { IfErr result (IsRefused bytes.now) }
{
    match report {
        Report::Info { form, digests } => info(alloc, *form, *digests, name, bytes),
        Report::Check(form) => check(alloc, *form, name, bytes),
        Report::List {
            kinds,
            shown,
            digests,
        } => list_json(alloc, name, kinds.as_slice(), *shown, *digests, bytes),
        Report::DigestList(choice) => list_digests(alloc, choice, bytes),
    }
}

/// The list of a file's resources as JSON.
#[tactic(auto, using(crate::proofs::Refusing::fork_cause))]
fn list_json(
    alloc: Global,
    name: &str,
    kinds: &[ResType],
    shown: Bytes,
    digests: Digests,
    bytes: &[u8],
) -> Result<Told, Refusal>
    ensures told { IfOk result (λ told. HasTable bytes.now × (told.is_damaged ≡ false)) }
    ensures archive { IfOk result (λ told. HasArchive bytes.now told.archive) }
    ensures refused { IfErr result (IsRefused bytes.now) }
{
    let found = fork_in(alloc, bytes)?;
    match list_line(alloc, name, kinds, (shown, digests), &found) {
        Ok(line) => Ok(Told::of_file(line, &found)),
        Err(failure) => Err(Refusal::of_failure(alloc, failure, bytes)),
    }
}

/// The list of a file's resources, with the digest of each.
#[tactic(auto, using(crate::proofs::Refusing::fork_cause))]
fn list_digests(alloc: Global, choice: &Choice, bytes: &[u8]) -> Result<Told, Refusal>
    ensures told { IfOk result (TellsOfFork (Report.DigestList choice.now) bytes.now) }
    ensures archive { IfOk result (λ told. HasArchive bytes.now told.archive) }
    ensures refused { IfErr result (IsRefused bytes.now) }
{
    let found = fork_in(alloc, bytes)?;
    match digest_text_of(alloc, choice, found.fork()) {
        Ok(text) => Ok(Told::of_file(text, &found)),
        Err(failure) => Err(Refusal::of_failure(alloc, failure, bytes)),
    }
}

/// The list of a fork's resources, with the digest of each.
fn digest_text_of(alloc: Global, choice: &Choice, fork: &[u8]) -> Result<String, Failure>
    ensures list { IfOk result (λ text. (table : Table) × IsTableOf fork.now table
        × (string_bytes text ≡ digest_listing choice.now.letters choice.now.kinds.items table.rows)) }
    ensures refused { IfErr result (IsForkCause fork.now) }
{
    let table = match read_table(alloc, fork) {
        Ok(table) => table,
        Err(fault) => return Err(Failure::Fork(fault)),
    };
    let rows = table.rows.as_slice();
    Ok(digest_listing(alloc, choice.letters, choice.kinds.as_slice(), rows)?)
}

/// What is reported of what a file is, in this form.
fn info_of(
    alloc: Global,
    form: Form,
    digests: Digests,
    name: &str,
    found: &OldFile<'_>,
) -> Result<String, Failure>
    ensures { IfErr result (IsForkCause (fork_of found.now)) }
{
    match form {
        Form::Text => info_text(alloc, digests, found),
        Form::Json => info_line(alloc, name, digests, found),
    }
}

/// What a file is.
#[tactic(auto, using(crate::proofs::Refusing::opened_cause))]
fn info(
    alloc: Global,
    form: Form,
    digests: Digests,
    name: &str,
    bytes: &[u8],
) -> Result<Told, Refusal>
    ensures told { IfOk result (λ told. told.is_damaged ≡ false) }
    ensures archive { IfOk result (λ told. HasArchive bytes.now told.archive) }
    ensures refused { IfErr result (IsRefused bytes.now) }
{
    let found = file_in(alloc, bytes)?;
    match info_of(alloc, form, digests, name, &found) {
        Ok(text) => Ok(Told::of_file(text, &found)),
        Err(failure) => Err(Refusal::of_failure(alloc, failure, bytes)),
    }
}

/// The file that bytes hold, or why they hold none.
fn file_in<'a>(alloc: Global, bytes: &'a [u8]) -> Result<OldFile<'a>, Refusal>
    ensures file { IfOk result (λ found. old_file bytes.now ≡ Ok (said_by found)) }
    ensures refused { IfErr result (IsRefused bytes.now) }
{
    match opened(alloc, bytes) {
        Ok(found) => Ok(found),
        Err(failure) => Err(Refusal::of_failure(alloc, failure, bytes)),
    }
}

/// The file that bytes hold, or why it has no resource fork.
fn fork_in<'a>(alloc: Global, bytes: &'a [u8]) -> Result<OldFile<'a>, Refusal>
    ensures fork { IfOk result (λ found. IsForkIn bytes.now (fork_of found)) }
    ensures file { IfOk result (λ found. old_file bytes.now ≡ Ok (said_by found)) }
    ensures kind { IfOk result (λ found. kind_by found ≡ kind_of bytes.now) }
    ensures refused { IfErr result (IsRefused bytes.now) }
{
    match resource_fork(alloc, bytes) {
        Ok(found) => Ok(found),
        Err(fault) => Err(Refusal::of_failure(alloc, Failure::NoFork(fault), bytes)),
    }
}

/// All faults of a file's fork, and what is odd about it.
#[tactic(auto, using(crate::proofs::Salvaging::refused_as))]
fn check(alloc: Global, form: Form, name: &str, bytes: &[u8]) -> Result<Told, Refusal>
    ensures told { IfOk result (TellsOfFork (Report.Check form) bytes.now) }
    ensures archive { IfOk result (λ told. HasArchive bytes.now told.archive) }
    ensures refused { IfErr result (IsRefused bytes.now) }
{
    let found = fork_in(alloc, bytes)?;
    if let Some(refusal) = other_than_fork(alloc, found.kind(), bytes) {
        return Err(refusal);
    }
    match check_fork(alloc, form, name, &found) {
        Ok(told) => Ok(told),
        Err(_) => Err(Refusal::Show(Failure::HostFull)),
    }
}

/// All faults of a fork. One without bytes has none.
fn faults_of(alloc: Global, fork: &[u8]) -> Result<Vec<Fault>, AllocError>
    ensures damaged { IfOk result (λ faults. faults.items ≢ [] → IsDamaged fork.now) }
    ensures whole { IfOk result (λ faults. faults.items ≡ [] → ¬ IsDamaged fork.now) }
{
    if fork.is_empty() {
        return Ok(Vec::new(alloc));
    }
    all_faults(alloc, fork)
}

/// All faults of a fork, and what is odd about it.
fn check_fork(
    alloc: Global,
    form: Form,
    name: &str,
    found: &OldFile<'_>,
) -> Result<Told, AllocError>
    ensures damaged { IfOk result (λ told. IsTrue told.is_damaged ↔ IsDamaged (fork_of found.now)) }
    ensures archive { IfOk result (λ told. told.archive ≡ archive_inside (said_by found.now)) }
{
    let fork = found.fork();
    let faults = faults_of(alloc, fork)?;
    let warnings = warnings(alloc, fork)?;
    let text = match form {
        Form::Text => check_text(alloc, faults.as_slice(), warnings.as_slice())?,
        Form::Json => check_line(alloc, name, found, faults.as_slice(), warnings.as_slice())?,
    };
    Ok(Told {
        text,
        is_damaged: !faults.as_slice().is_empty(),
        archive: archive_in(found),
    })
}

/// A line for each fault of a fork, and for each thing that is odd about it.
fn check_text(alloc: Global, faults: &[Fault], warnings: &[Warning]) -> Result<String, AllocError> {
    let mut text = String::new(alloc);
    for fault in faults {
        writeln!(text, "fault: {fault}")?;
    }
    for warning in warnings {
        writeln!(text, "warning: {warning}")?;
    }
    if text.as_str().is_empty() {
        writeln!(text, "no fault")?;
    }
    Ok(text)
}
