//! What differs between two files.

ghost use Rattle.std.specs.Prelude.{◌≡◌, ◌≢◌, ◌≤◌, IfOk};
ghost use Rattle.file_acts.specs.Acts.{ReadsNothing};
ghost use Rattle.image_acts.specs.Words.{ReadsBothWords, ReadsWord};

use crate::failed::{Failed, of_file};
use file_acts::acts::{Acts, write_text};
use file_acts::found::{fork_found, table_found};
use file_acts::host::Host;
use file_acts::message::{DONE, NOT_FOUND, Problem};
use fork_bytes::table::Table;
use fork_change::Differences;
use fork_disk::Unknown;
use fork_edit::difference::text_of;
use fork_report::{Form, difference_line};
use fork_words::work::Comparison;
use image_acts::read;
use mac_base::error::HostFull;
use std::alloc::Global;

/// Writes what differs between two files. The result says whether something does.
pub fn compare<'a>(
    host: &Host<'_>,
    asked: Comparison<'a>,
    acts: &mut Acts,
) -> Result<u8, Failed<'a>>
    ensures few { IfOk result (λ status. status ≤ NOT_FOUND) }
    ensures quiet { ReadsBothWords asked.entry.a.now asked.entry.b.now acts.old.events acts.new.events }
{
    let a = asked.a;
    let bytes = of_file(a, read::<Unknown>(host, a, acts))?;
    let found = of_file(a, fork_found(host.alloc(), &bytes))?;
    let table = of_file(a, table_found(host.alloc(), &found, &bytes))?;
    of_file(asked.b, compare_with(host, asked, &table, acts))
}

/// Writes what differs between the first file's table and the second file. The result says whether something does.
fn compare_with(
    host: &Host<'_>,
    asked: Comparison<'_>,
    old: &Table<'_>,
    acts: &mut Acts,
) -> Result<u8, Problem>
    ensures few { IfOk result (λ status. status ≤ NOT_FOUND) }
    ensures quiet { ReadsWord asked.entry.b.now acts.old.events acts.new.events }
{
    let bytes = read::<Unknown>(host, asked.b, acts)?;
    let found = fork_found(host.alloc(), &bytes)?;
    let new = table_found(host.alloc(), &found, &bytes)?;
    write_differences(host, asked, old, &new, acts)
}

/// Writes what differs between two tables. The result says whether something does.
fn write_differences(
    host: &Host<'_>,
    asked: Comparison<'_>,
    old: &Table<'_>,
    new: &Table<'_>,
    acts: &mut Acts,
) -> Result<u8, Problem>
    ensures same { IfOk result (λ status. old.now ≡ new.now → status ≡ DONE) }
    ensures differs { IfOk result (λ status. old.now ≢ new.now → status ≡ NOT_FOUND) }
    ensures few { IfOk result (λ status. status ≤ NOT_FOUND) }
    ensures quiet { ReadsNothing acts.old.events acts.new.events }
{
    let differences = fork_change::compare(host.alloc(), old, new)?;
    let text = difference_text(host.alloc(), asked, &differences)?;
    write_text(host, &text, acts)?;
    Ok(if differences.is_empty() {
        DONE
    } else {
        NOT_FOUND
    })
}

/// What differs between two files, in the form that is asked for.
fn difference_text(
    alloc: Global,
    asked: Comparison<'_>,
    differences: &Differences<'_, '_>,
) -> Result<String, HostFull> {
    match asked.form {
        Form::Text => text_of(alloc, differences),
        Form::Json => Ok(difference_line(alloc, asked.a, asked.b, differences)?),
    }
}
