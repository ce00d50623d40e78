//! What is shown of the resource fork of a file.

ghost use Rattle.std.specs.Prelude.{◌≡◌, IfErr, IfOk, None};
ghost use Rattle.fork_list.specs.Listing.{listing};
ghost use Rattle.fork_list.specs.Types.{type_lines};
ghost use Rattle.fork_answer.specs.Answer.{Answers, AnswersFork, IsQuiet, IsReadOf, Shows, Writes, empty_table};

use crate::request::{Choice, Request};
use crate::source::{NoFork, resource_fork};
use fork_bytes::fault::ForkFault;
use fork_bytes::layout::Limits;
use fork_bytes::read_fork_within;
use fork_bytes::table::{Rows, Table};
use fork_list::find::{Wanted, find_row};
use fork_list::{HasSize, listing, types_listing};
use mac_base::resource::Resource;
use std::alloc::{AllocError, Global};
use std::io;
use std::io::{ErrorKind, Write};
use thiserror::Error;

/// Why nothing is shown, or not all of it.
#[derive(Debug, Drop, Error)]
pub enum Failure {
    /// The file has no resource fork.
    #[error("{0}")]
    NoFork(NoFork),
    /// Its resource fork is damaged.
    #[error("{0}")]
    Fork(ForkFault),
    /// The fork has no such resource.
    #[error("the fork has no such resource")]
    NotFound,
    /// The host has no memory.
    #[error("the host has no memory")]
    HostFull,
    /// The output takes no more.
    #[error("the output can't be written: {0}")]
    Write(io::Error),
}

impl From<AllocError> for Failure {
    ghost use Rattle.std.specs.Prelude.{◌≡◌};
    ghost use Rattle.fork_answer.specs.declared.answer.Failure.TheVariants.{HostFull};

    ghost from_gives = { λ _ e. e ≡ HostFull };

    fn from(_: AllocError) -> Failure {
        Failure::HostFull
    }
}

/// The table of a fork. A fork without bytes is that of a file without resources.
pub fn read_table<'a>(alloc: Global, fork: &'a [u8]) -> Result<Table<'a>, ForkFault>
    ensures { IsReadOf fork.now result }
{
    if fork.is_empty() {
        return Ok(no_resources(alloc));
    }
    read_fork_within(alloc, fork, Limits::FORMAT)
}

/// The table of a file without resources.
fn no_resources<'a>(alloc: Global) -> Table<'a>
    ensures { result ≡ empty_table }
{
    Table {
        rows: Rows::new(Vec::new(alloc)),
        extra: [0; 240],
        map_attributes: 0,
    }
}

/// Writes what is asked for of the resource fork in a file.
pub fn answer<W: Write>(
    alloc: Global,
    request: &Request,
    file: &[u8],
    output: &mut W,
) -> Result<(), Failure>
    ensures answer { Answers request.now file.now (W.contents output.old) (W.contents output.new) result }
    ensures quiet { IfErr result (λ failure. IsQuiet failure → output.new ≡ output.old) }
{
    match resource_fork(alloc, file) {
        Ok(found) => answer_of_fork(alloc, request, found.fork(), output),
        Err(fault) => Err(Failure::NoFork(fault)),
    }
}

/// Writes what is asked for of a fork.
fn answer_of_fork<W: Write>(
    alloc: Global,
    request: &Request,
    fork: &[u8],
    output: &mut W,
) -> Result<(), Failure>
    ensures answer { AnswersFork request.now fork.now (W.contents output.old) (W.contents output.new) result }
    ensures quiet { IfErr result (λ failure. IsQuiet failure → output.new ≡ output.old) }
{
    match read_table(alloc, fork) {
        Ok(table) => answer_of(alloc, request, &table, output),
        Err(fault) => Err(Failure::Fork(fault)),
    }
}

/// Writes what is asked for of a table.
fn answer_of<W: Write>(
    alloc: Global,
    request: &Request,
    table: &Table,
    output: &mut W,
) -> Result<(), Failure>
    ensures shows { Shows request.now table.now (W.contents output.old) (W.contents output.new) result }
    ensures quiet { IfErr result (λ failure. IsQuiet failure → output.new ≡ output.old) }
{
    let rows = table.rows.as_slice();
    match request {
        Request::List(choice) => list(alloc, choice, rows, output),
        Request::Types(choice) => list_types(alloc, choice, rows, output),
        Request::Get(wanted) => get(wanted, table, output),
    }
}

/// Writes these bytes, or a proper front of them where the output fails. A write that is interrupted is tried again.
pub(crate) fn write<W: Write>(bytes: &[u8], output: &mut W) -> Result<(), Failure>
    ensures writes { Writes bytes.now (W.contents output.old) (W.contents output.new) result }
    ensures quiet { IfErr result (λ failure. IsQuiet failure → output.new ≡ output.old) }
{
    let mut rest = bytes;
    let mut retries = u64::MAX; // no run uses these up
    while !rest.is_empty() {
        match output.write(rest) {
            Ok(0) => return Err(Failure::Write(ErrorKind::WriteZero.into())),
            Ok(count) => rest = &rest[count..],
            Err(error) if error.kind() == ErrorKind::Interrupted && retries > 0 => retries -= 1,
            Err(error) => return Err(Failure::Write(error)),
        }
    }
    Ok(())
}

/// Writes a list of resources.
pub(crate) fn list<D: HasSize, W: Write>(
    alloc: Global,
    choice: &Choice,
    rows: &[Resource<D>],
    output: &mut W,
) -> Result<(), Failure>
    ensures writes { Writes (listing D.size D.unpacked choice.now.letters choice.now.kinds.items rows.now) (W.contents output.old) (W.contents output.new) result }
    ensures quiet { IfErr result (λ failure. IsQuiet failure → output.new ≡ output.old) }
{
    let kinds = choice.kinds.as_slice();
    let text = listing(alloc, choice.letters, kinds, rows)?;
    write(text.as_bytes(), output)
}

/// Writes a list of types.
pub(crate) fn list_types<D, W: Write>(
    alloc: Global,
    choice: &Choice,
    rows: &[Resource<D>],
    output: &mut W,
) -> Result<(), Failure>
    ensures writes { Writes (type_lines choice.now.letters choice.now.kinds.items rows.now None rows.now) (W.contents output.old) (W.contents output.new) result }
    ensures quiet { IfErr result (λ failure. IsQuiet failure → output.new ≡ output.old) }
{
    let kinds = choice.kinds.as_slice();
    let text = types_listing(alloc, choice.letters, kinds, rows)?;
    write(text.as_bytes(), output)
}

/// Writes the bytes of a resource.
fn get<W: Write>(wanted: &Wanted, table: &Table, output: &mut W) -> Result<(), Failure>
    ensures shows { Shows (Request.Get wanted.now) table.now (W.contents output.old) (W.contents output.new) result }
    ensures quiet { IfErr result (λ failure. IsQuiet failure → output.new ≡ output.old) }
{
    match find_row(table.rows.as_slice(), wanted) {
        Some(row) => write(row.datum.as_slice(), output),
        None => Err(Failure::NotFound),
    }
}
