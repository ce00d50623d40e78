//! What is done with the table of a file's resource fork.

ghost use Rattle.file_acts.specs.Acts.{ReadsNothing};
ghost use Rattle.image_acts.specs.Words.{ReadsWord};
ghost use Rattle.fork_list.specs.Listing.{absent_kind};
ghost use Rattle.fork_shows.specs.Faults.{IsToldOfKinds};
ghost use Rattle.std.specs.Prelude.{◌≡◌, IfOk};

use file_acts::acts::Acts;
use file_acts::found::{fork_found, table_found};
use file_acts::host::Host;
use file_acts::message::{DONE, Problem};
use fork_bytes::table::{Row, Table};
use fork_disk::Unknown;
use fork_list::absent_kind;
use image_acts::read;
use mac_base::resource::ResType;

/// Something that is done with the table of a file's resource fork.
pub trait TableUse {
    /// It writes and makes nothing but to the standard output.
    ghost only_reads: { Self → Type 0 };

    /// Does it. The result is the exit status.
    fn apply(
        &self,
        host: &Host<'_>,
        bytes: &[u8],
        table: &Table<'_>,
        acts: &mut Acts,
    ) -> Result<u8, Problem>
        ensures done { IfOk result (λ status. status ≡ DONE) }
        ensures quiet { only_reads self.now → ReadsNothing acts.old.events acts.new.events };
}

/// Does something with the table of the file of this name.
pub fn use_table<U: TableUse>(
    host: &Host<'_>,
    file: &str,
    table_use: &U,
    acts: &mut Acts,
) -> Result<u8, Problem>
    ensures done { IfOk result (λ status. status ≡ DONE) }
    ensures quiet { U.only_reads table_use.now → ReadsWord file.now acts.old.events acts.new.events }
{
    let bytes = read::<Unknown>(host, file, acts)?;
    use_table_in(host, &bytes, table_use, acts)
}

/// Does something with the table of the resource fork in these bytes.
fn use_table_in<U: TableUse>(
    host: &Host<'_>,
    bytes: &[u8],
    table_use: &U,
    acts: &mut Acts,
) -> Result<u8, Problem>
    ensures done { IfOk result (λ status. status ≡ DONE) }
    ensures quiet { U.only_reads table_use.now → ReadsNothing acts.old.events acts.new.events }
{
    let found = fork_found(host.alloc(), bytes)?;
    let table = table_found(host.alloc(), &found, bytes)?;
    table_use.apply(host, bytes, &table, acts)
}

/// Whether there is a resource of each of these types.
pub fn check_kinds(kinds: &[ResType], rows: &[Row<'_>]) -> Result<(), Problem>
    ensures { IsToldOfKinds (absent_kind kinds.now rows.now) result }
{
    match absent_kind(kinds, rows) {
        Some(kind) => Err(Problem::NoKind(kind)),
        None => Ok(()),
    }
}
