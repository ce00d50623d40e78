//! Lines of JSON, one for each file.

ghost use Rattle.std.specs.Prelude.{◌≡◌, IfErr, IfOk, string_bytes};
ghost use Rattle.fork_report.specs.Json.{line_of, refused_data};
ghost use Rattle.fork_bytes.specs.declared.table.Table.{Table};
ghost use Rattle.mac_files.specs.OldFiles.{fork_of};
ghost use Rattle.fork_answer.specs.Answer.{IsTableOf};
ghost use Rattle.fork_report.specs.Refused.{IsForkCause};

use crate::info::dates_of;
use crate::inside::{InsideNote, archive_in};
use crate::json_object::{Object, place_value};
use crate::json_row::{Bytes, Digests, full_rows_value, rows_value, with_digest};
use crate::json_text::{roman_value, text_value};
use file_facts::{FileDate, color_of, flags_of};
use fork_answer::warning::Warning;
use fork_answer::{Failure, read_table};
use fork_list::HasSize;
use fork_salvage::Fault;
use mac_base::resource::{ResType, Resource};
use mac_files::OldFile;
use mac_files::archive::Archive;
use mac_files::container::Container;
use mac_files::contents::FinderInfo;
use mac_files::kind::FileKind;
use serde_json::Value;
use std::alloc::{AllocError, Global};

/// The line of a file that isn't shown, and why.
pub fn refused_line(alloc: Global, file: &str, status: u8, told: &str) -> Result<String, AllocError>
    ensures { IfOk result (λ line. string_bytes line ≡ line_of (refused_data file.now status told.now)) }
{
    Object::of_file(alloc, file)
        .with("status", Ok(Value::from(status)))
        .with("error", text_value(alloc, told))
        .line()
}

/// The line of the resources of a file, those of these types or all where none are named.
pub(crate) fn list_line(
    alloc: Global,
    file: &str,
    kinds: &[ResType],
    details: (Bytes, Digests),
    found: &OldFile<'_>,
) -> Result<String, Failure>
    ensures table { IfOk result (λ _. (table : Table) × IsTableOf (fork_of found.now) table) }
    ensures refused { IfErr result (IsForkCause (fork_of found.now)) }
{
    let table = match read_table(alloc, found.fork()) {
        Ok(table) => table,
        Err(fault) => return Err(Failure::Fork(fault)),
    };
    let rows = table.rows.as_slice();
    let values = match details {
        (Bytes::Hidden, Digests::Hidden) => rows_value(alloc, kinds, rows),
        details => full_rows_value(alloc, kinds, details, rows),
    };
    let archive = archive_in(found);
    Ok(resources_line(alloc, file, found.kind(), archive, values)?)
}

/// The line of these resources of a file that is a resource fork, those of these types or all where none are named.
pub fn fork_line<D: HasSize>(
    alloc: Global,
    file: &str,
    kinds: &[ResType],
    rows: &[Resource<D>],
) -> Result<String, AllocError> {
    let values = rows_value(alloc, kinds, rows);
    let kind = FileKind::Container(Container::Raw);
    resources_line(alloc, file, kind, None, values)
}

/// What is noted of a file without resources, in whose data fork this archive is.
fn note_value(alloc: Global, file: &str, archive: Archive) -> Result<Value, AllocError> {
    let note = InsideNote { archive, file };
    Ok(Value::String(format!(in alloc; "{note}")?))
}

/// With a note, where there is an archive in the data fork of a file without resources.
fn with_note(alloc: Global, object: Object, file: &str, archive: Option<Archive>) -> Object {
    match archive {
        Some(archive) => object.with("note", note_value(alloc, file, archive)),
        None => object,
    }
}

/// The line of resources of a file that is kept so.
fn resources_line(
    alloc: Global,
    file: &str,
    kind: FileKind,
    archive: Option<Archive>,
    resources: Result<Value, AllocError>,
) -> Result<String, AllocError> {
    let object = Object::of_file(alloc, file)
        .with("container", text_value(alloc, kind.name()))
        .with("resources", resources);
    with_note(alloc, object, file, archive).line()
}

/// A fault of a fork, or what is odd about it: what is reported of it, and its place.
fn told_value(alloc: Global, told: String, place: Option<usize>) -> Result<Value, AllocError> {
    Object::new(alloc)
        .with("message", Ok(Value::String(told)))
        .with("place", Ok(place_value(place)))
        .value()
}

/// Where in the fork a fault is, if it is at one place.
fn place_of(fault: &Fault) -> Option<usize> {
    match fault {
        Fault::Header(gap)
        | Fault::Data(gap)
        | Fault::Map(gap)
        | Fault::MapHeader(gap)
        | Fault::TypeCount(gap)
        | Fault::TypeList(gap) => Some(gap.place),
        Fault::SameType(same) => Some(same.second),
        Fault::References(list) => Some(list.gap.place),
        Fault::Name(row) | Fault::Length(row) | Fault::Bytes(row) | Fault::ByteCount(row) => {
            Some(row.gap.place)
        }
        Fault::TooLong(_) | Fault::RowCount(_) => None,
    }
}

/// The faults of a fork.
fn faults_value(alloc: Global, faults: &[Fault]) -> Result<Value, AllocError> {
    let mut values = Vec::new(alloc);
    for fault in faults {
        let told = format!(in alloc; "{fault}")?;
        serde_json::push(&mut values, told_value(alloc, told, place_of(fault))?)?;
    }
    Ok(Value::Array(values))
}

/// What is odd about a fork.
fn warnings_value(alloc: Global, warnings: &[Warning]) -> Result<Value, AllocError> {
    let mut values = Vec::new(alloc);
    for warning in warnings {
        let told = format!(in alloc; "{warning}")?;
        serde_json::push(&mut values, told_value(alloc, told, Some(warning.place()))?)?;
    }
    Ok(Value::Array(values))
}

/// The line of the faults of a file's fork, and of what is odd about it.
pub fn check_line(
    alloc: Global,
    file: &str,
    found: &OldFile<'_>,
    faults: &[Fault],
    warnings: &[Warning],
) -> Result<String, AllocError> {
    let object = Object::of_file(alloc, file)
        .with("container", text_value(alloc, found.kind().name()))
        .with("faults", faults_value(alloc, faults))
        .with("warnings", warnings_value(alloc, warnings));
    with_note(alloc, object, file, archive_in(found)).line()
}

/// With the name, the type, the creator and the Finder flags of a file.
fn with_finder(alloc: Global, object: Object, name: &[u8], finder: FinderInfo) -> Object {
    object
        .with("name", roman_value(alloc, name))
        .with("type", roman_value(alloc, &finder.kind))
        .with("creator", roman_value(alloc, &finder.creator))
        .with("flags", flags_value(alloc, finder.flags))
}

/// The words for the Finder flags that are set.
fn flags_value(alloc: Global, flags: u16) -> Result<Value, AllocError> {
    let mut values = Vec::new(alloc);
    for flag in &flags_of(alloc, flags)? {
        serde_json::push(&mut values, text_value(alloc, flag.word())?)?;
    }
    let color = color_of(flags);
    if color != 0 {
        let word = format!(in alloc; "color:{color}")?;
        serde_json::push(&mut values, Value::String(word))?;
    }
    Ok(Value::Array(values))
}

/// A date as text, or null where there is none.
fn date_value(alloc: Global, date: Option<FileDate>) -> Result<Value, AllocError> {
    match date {
        Some(date) => Ok(Value::String(format!(in alloc; "{date}")?)),
        None => Ok(Value::Null),
    }
}

/// With the dates and the comment of a file.
fn with_dates(alloc: Global, object: Object, found: &OldFile<'_>) -> Object {
    let view = found.view();
    let (created, modified) = dates_of(found.kind(), view.dates);
    object
        .with("created", date_value(alloc, created))
        .with("modified", date_value(alloc, modified))
        .with("comment", roman_value(alloc, view.comment))
}

/// With how many bytes a fork has, its attributes, and how many resources.
fn with_fork(alloc: Global, object: Object, fork: &[u8]) -> Result<Object, Failure>
    ensures { IfErr result (IsForkCause fork.now) }
{
    let table = read_table(alloc, fork).map_err(Failure::Fork)?;
    let count = table.rows.as_slice().len();
    Ok(
        object
            .with("resourceFork", Ok(Value::from(fork.len())))
            .with("mapAttributes", Ok(Value::from(table.map_attributes)))
            .with("resources", Ok(Value::from(count))),
    )
}

/// With what is said of a file, unless it is only taken for a resource fork.
fn with_told(alloc: Global, object: Object, digests: Digests, found: &OldFile<'_>) -> Object {
    if !found.kind().is_known() {
        return object;
    }
    let view = found.view();
    let object = match view.finder {
        Some(finder) => with_finder(alloc, object, view.name, finder),
        None => object,
    };
    let object = if found.kind().is_alone() {
        object
    } else {
        with_dates(alloc, object, found)
    };
    let object = object.with("dataFork", Ok(Value::from(view.data_fork.len())));
    with_digest(alloc, object, "dataForkSha256", digests, view.data_fork)
}

/// The line of what a file is.
pub(crate) fn info_line(
    alloc: Global,
    file: &str,
    digests: Digests,
    found: &OldFile<'_>,
) -> Result<String, Failure>
    ensures { IfErr result (IsForkCause (fork_of found.now)) }
{
    let object = Object::of_file(alloc, file).with(
        "container",
        text_value(alloc, found.kind().name()),
    );
    let object = with_told(alloc, object, digests, found);
    let object = with_fork(alloc, object, found.fork())?;
    let object = with_digest(alloc, object, "resourceForkSha256", digests, found.fork());
    let object = with_note(alloc, object, file, archive_in(found));
    Ok(object.line()?)
}
