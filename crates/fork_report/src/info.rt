//! What a file is.

ghost use Rattle.std.specs.Prelude.{◌≡◌, IfErr, IfOk, Ok};
ghost use Rattle.mac_files.specs.OldFiles.{fork_of, old_file, said_by};
ghost use Rattle.fork_report.specs.Refused.{IsCause, IsForkCause};

use crate::digest::digest_text;
use crate::json_row::Digests;
use file_facts::{FileDate, color_of, date_of, flags_of};
use fork_answer::{Failure, NoFork, read_table};
use fork_bytes::table::Table;
use fork_list::letters::Letters;
use fork_list::{KindText, Quoted, types_listing};
use mac_base::resource::ResType;
use mac_files::OldFile;
use mac_files::contents::{Dates, FinderInfo};
use mac_files::kind::FileKind;
use std::alloc::{AllocError, Global};

/// Adds the lines of a name, and of a type and a creator.
fn push_name(text: &mut String, name: &[u8], finder: FinderInfo) -> Result<(), AllocError> {
    let name = Quoted::double(Letters::Roman, name);
    let kind = KindText::new(Letters::Roman, ResType::new(finder.kind));
    let creator = KindText::new(Letters::Roman, ResType::new(finder.creator));
    write!(text, "name: {name}\ntype: {kind}\ncreator: {creator}\n")
}

/// Adds a line of the Finder flags that are set, if some are, with commas between them.
fn push_flags(alloc: Global, text: &mut String, flags: u16) -> Result<(), AllocError> {
    let mut separator = "flags: ";
    for flag in &flags_of(alloc, flags)? {
        write!(text, "{separator}{flag}")?;
        separator = ",";
    }
    let color = color_of(flags);
    if color != 0 {
        write!(text, "{separator}color:{color}")?;
        separator = ",";
    }
    if separator == "," {
        text.push('\n')?;
    }
    Ok(())
}

/// When a file was made and last changed, as far as it says so.
pub(crate) fn dates_of(
    kind: FileKind,
    dates: Option<Dates>,
) -> (Option<FileDate>, Option<FileDate>) {
    match dates {
        Some(dates) => (date_of(kind, dates.created), date_of(kind, dates.modified)),
        None => (None, None),
    }
}

/// Adds lines of the dates of a file, as far as it says some, and of its comment, if it has one.
fn push_dates(text: &mut String, found: &OldFile<'_>) -> Result<(), AllocError> {
    let view = found.view();
    let (created, modified) = dates_of(found.kind(), view.dates);
    if let Some(date) = created {
        writeln!(text, "created: {date}")?;
    }
    if let Some(date) = modified {
        writeln!(text, "modified: {date}")?;
    }
    if view.comment.is_empty() {
        return Ok(());
    }
    let comment = Quoted::double(Letters::Roman, view.comment);
    writeln!(text, "comment: {comment}")
}

/// Adds the line of a fork, and the digest of its bytes where digests are shown.
fn push_length(
    alloc: Global,
    text: &mut String,
    fork: &str,
    digests: Digests,
    bytes: &[u8],
) -> Result<(), AllocError> {
    let length = bytes.len();
    write!(text, "{fork}: {length} bytes")?;
    if digests == Digests::Sha256 {
        let digest = digest_text(alloc, bytes)?;
        write!(text, " {digest}")?;
    }
    text.push('\n')
}

/// Adds what is said of a file, in lines, unless it is only taken for a resource fork.
fn push_told(
    alloc: Global,
    text: &mut String,
    digests: Digests,
    found: &OldFile<'_>,
) -> Result<(), AllocError> {
    let kind = found.kind();
    if !kind.is_known() {
        return Ok(());
    }
    let view = found.view();
    let kept_as = kind.name();
    writeln!(text, "kept as: {kept_as}")?;
    if let Some(finder) = view.finder {
        push_name(text, view.name, finder)?;
        push_flags(alloc, text, finder.flags)?;
    }
    push_dates(text, found)?;
    push_length(alloc, text, "data fork", digests, view.data_fork)
}

/// The file that bytes hold, or why they hold none.
pub(crate) fn opened<'a>(alloc: Global, bytes: &'a [u8]) -> Result<OldFile<'a>, Failure>
    ensures file { IfOk result (λ found. old_file bytes.now ≡ Ok (said_by found)) }
    ensures none { IfErr result (IsCause bytes.now) }
{
    match OldFile::open(alloc, bytes) {
        Ok(found) => Ok(found),
        Err(fault) => Err(Failure::NoFork(NoFork::File(fault))),
    }
}

/// Adds what a fork holds, in lines.
fn push_fork(alloc: Global, text: &mut String, digests: Digests, fork: &[u8]) -> Result<(), Failure>
    ensures { IfErr result (IsForkCause fork.now) }
{
    let table = read_table(alloc, fork).map_err(Failure::Fork)?;
    push_length(alloc, text, "resource fork", digests, fork)?;
    Ok(push_table(alloc, text, &table)?)
}

/// Adds what a fork holds, in lines.
fn push_table(alloc: Global, text: &mut String, table: &Table<'_>) -> Result<(), AllocError> {
    let attributes = table.map_attributes;
    let rows = table.rows.as_slice();
    let count = rows.len();
    let types = types_listing(alloc, Letters::Roman, &[], rows)?;
    write!(
        text,
        "map attributes: {attributes}\nresources: {count}\n{types}"
    )
}

/// What a file is, in lines: what is said of it, and what its resource fork holds.
pub(crate) fn info_text(
    alloc: Global,
    digests: Digests,
    found: &OldFile<'_>,
) -> Result<String, Failure>
    ensures { IfErr result (IsForkCause (fork_of found.now)) }
{
    let mut text = String::new(alloc);
    push_told(alloc, &mut text, digests, found)?;
    push_fork(alloc, &mut text, digests, found.fork())?;
    Ok(text)
}
