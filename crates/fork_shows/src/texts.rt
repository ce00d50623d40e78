//! The texts of a file as lines.

ghost use Rattle.std.specs.Prelude.{◌≡◌, IfOk};
ghost use Rattle.image_acts.specs.Words.{ReadsWord};

use crate::table_use::{TableUse, use_table};
use file_acts::acts::{Acts, write_text};
use file_acts::host::Host;
use file_acts::message::{DONE, Problem};
use fork_bytes::table::{Row, Table};
use fork_change::row::ResourceId;
use fork_change::{Choice, second_of};
use fork_list::KindText;
use fork_list::letters::Letters;
use fork_texts::{text_types, texts_of};
use path_text::FileName;

/// The texts of the file of this name are written as lines.
#[derive(Clone, Copy)]
struct Texts<'a>(&'a str);

impl TableUse for Texts<'_> {
    ghost use Rattle.std.specs.Prelude.{⊤};

    ghost only_reads = { λ _. ⊤ };

    fn apply(
        &self,
        host: &Host<'_>,
        _bytes: &[u8],
        table: &Table<'_>,
        acts: &mut Acts,
    ) -> Result<u8, Problem> {
        let rows = table.rows.as_slice();
        check_once(host, rows)?;
        let types = text_types(host.alloc())?;
        let listed = texts_of(host.alloc(), &types, rows)?;
        write_text(host, &listed.lines, acts)?;
        tell_odd(host, self.0, &listed.odd);
        Ok(DONE)
    }
}

/// Says which resources have bytes that aren't of their type.
fn tell_odd(host: &Host<'_>, file: &str, odd: &[ResourceId]) {
    let file = FileName(file);
    for what in odd {
        let kind = KindText::new(Letters::Roman, what.kind);
        let id = what.id;
        let _ = eprintln!(host.rt;
            "{file}: {kind} {id}: its bytes aren't of this type, and its texts aren't shown"
        );
    }
}

/// Whether no two rows have one type and id.
pub fn check_once(host: &Host<'_>, rows: &[Row<'_>]) -> Result<(), Problem> {
    match second_of(host.alloc(), &[Choice::All], rows)? {
        Some(_) => Err(Problem::Twice),
        None => Ok(()),
    }
}

/// Writes the texts of a file as lines.
pub fn list_texts(host: &Host<'_>, file: &str, acts: &mut Acts) -> Result<u8, Problem>
    ensures done { IfOk result (λ status. status ≡ DONE) }
    ensures quiet { ReadsWord file.now acts.old.events acts.new.events }
{
    use_table(host, file, &Texts(file), acts)
}
