//! Resources as a text that makes them again.

ghost use Rattle.std.specs.Prelude.{◌≡◌, IfOk};
ghost use Rattle.image_acts.specs.Words.{ReadsWord};

use crate::table_use::{TableUse, check_kinds, use_table};
use file_acts::acts::{Acts, print};
use file_acts::host::Host;
use file_acts::message::{DONE, Problem};
use fork_bytes::table::Table;
use fork_rez::derez;
use mac_base::resource::ResType;

/// Resources of these types, or all where there are none, are written as a text.
#[derive(Clone, Copy)]
struct Derez<'a>(&'a [ResType]);

impl TableUse for Derez<'_> {
    ghost use Rattle.std.specs.Prelude.{⊤};

    ghost only_reads = { λ _. ⊤ };

    fn apply(
        &self,
        host: &Host<'_>,
        _bytes: &[u8],
        table: &Table<'_>,
        acts: &mut Acts,
    ) -> Result<u8, Problem> {
        check_kinds(self.0, table.rows.as_slice())?;
        let text = derez(host.alloc(), self.0, table)?;
        print(host, &text, acts)?;
        Ok(DONE)
    }
}

/// Writes resources of a file as a text.
pub fn derez_file(
    host: &Host<'_>,
    file: &str,
    kinds: &[ResType],
    acts: &mut Acts,
) -> Result<u8, Problem>
    ensures done { IfOk result (λ status. status ≡ DONE) }
    ensures quiet { ReadsWord file.now acts.old.events acts.new.events }
{
    use_table(host, file, &Derez(kinds), acts)
}
