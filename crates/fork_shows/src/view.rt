//! Resources as people see them, and resources that are written to a folder.

ghost use Rattle.file_acts.specs.Acts.{ReadsNothing};
ghost use Rattle.std.specs.Prelude.{◌≡◌, IfOk, is_none, true};
ghost use Rattle.fork_shows.specs.Written.{IsWritten};

use crate::output::write_to;
use crate::table_use::{TableUse, check_kinds};
use file_acts::acts::{Acts, note_unpacked};
use file_acts::host::Host;
use file_acts::message::{DONE, Problem, tell};
use fork_bytes::table::{Row, Table};
use fork_view::unpack::unpack;
use fork_view::{Chosen, NotShown, Sight, Unpacking, sight_of};
use fork_words::asked::Viewing;
use new_folder::FolderCalls;
use path_text::FileName;
use std::io::IsTerminal;

impl TableUse for Viewing<'_> {
    ghost use Rattle.std.specs.Prelude.{◌≡◌, is_none, true};

    ghost only_reads = { λ asked. is_none asked.output ≡ true };

    /// The resources are shown to people. Those of several that can't be shown so are a problem after the others.
    fn apply(
        &self,
        host: &Host<'_>,
        _bytes: &[u8],
        table: &Table<'_>,
        acts: &mut Acts,
    ) -> Result<u8, Problem> {
        let rows = table.rows.as_slice();
        check_kind(&self.view.chosen, rows)?;
        match sight_of(host.alloc(), &self.view, rows) {
            Ok(sight) => show_sight(host, self.file, sight, self.output, acts),
            Err(fault) => Err(unseen(host, &self.view.chosen, fault)),
        }
    }
}

/// Says what of a picture of the file of this name isn't drawn, if something isn't.
fn note_undrawn(host: &Host<'_>, file: &str, sight: &Sight) {
    if let Some(undrawn) = sight.undrawn {
        let file_name = FileName(file);
        let line = format!(in host.alloc();
            "{file_name}: drawn without {undrawn}: only the bit maps and pixel maps of a picture are drawn\n"
        );
        tell(host, file, line);
    }
}

/// Writes what is shown, and says what of a picture isn't drawn. Those of several resources that can't be shown so are a
/// problem after the others.
fn show_sight(
    host: &Host<'_>,
    file: &str,
    sight: Sight,
    output: Option<&str>,
    acts: &mut Acts,
) -> Result<u8, Problem>
    ensures done { IfOk result (λ status. status ≡ DONE) }
    ensures quiet { is_none output.entry ≡ true → ReadsNothing acts.old.events acts.new.events }
    ensures written { IfOk result (λ _. IsWritten output.entry sight.bytes.items acts.new.events) }
{
    write_sight(host, &sight, output, acts)?;
    note_undrawn(host, file, &sight);
    if sight.untold.is_empty() {
        return Ok(DONE);
    }
    Err(Problem::Untold(sight.untold))
}

/// Whether there is a resource of the type of which all are asked for.
fn check_kind(chosen: &Chosen, rows: &[Row<'_>]) -> Result<(), Problem> {
    match chosen {
        Chosen::Kind(kind) => check_kinds(&[*kind], rows),
        _ => check_kinds(&[], rows),
    }
}

/// Why nothing is shown of what was chosen. A resource that isn't there is named.
fn unseen(host: &Host<'_>, chosen: &Chosen, fault: NotShown) -> Problem {
    match (chosen, fault) {
        (Chosen::One(wanted), NotShown::NotFound) => Problem::of_missing(host.alloc(), wanted),
        (_, fault) => Problem::View(fault),
    }
}

/// Writes what is shown, to the file of this name or to the standard output. A picture or a sound isn't written to a terminal.
fn write_sight(
    host: &Host<'_>,
    sight: &Sight,
    output: Option<&str>,
    acts: &mut Acts,
) -> Result<(), Problem>
    ensures quiet { is_none output.entry ≡ true → ReadsNothing acts.old.events acts.new.events }
    ensures written { IfOk result (λ _. IsWritten output.entry sight.now.bytes.items acts.new.events) }
{
    if output.is_none() && sight.is_binary && host.rt.stdout().is_terminal() {
        return Err(Problem::Terminal);
    }
    write_to(host, output, &sight.bytes, acts)
}

impl TableUse for Unpacking<'_> {
    ghost only_reads = { λ _. ⊥ };

    /// The resources are written to a folder.
    fn apply(
        &self,
        host: &Host<'_>,
        bytes: &[u8],
        table: &Table<'_>,
        acts: &mut Acts,
    ) -> Result<u8, Problem> {
        check_kinds(self.kinds.as_slice(), table.rows.as_slice())?;
        let mut log = FolderCalls::new();
        let done = unpack(host.rt, self, bytes, table, &mut log);
        note_unpacked(acts, &log);
        match done {
            Ok(()) => Ok(DONE),
            Err(why) => Err(Problem::Unpack(why)),
        }
    }
}
