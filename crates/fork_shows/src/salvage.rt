//! What can be read of a damaged file, listed or written to another.

ghost use Rattle.file_acts.specs.Acts.{ReadsNothing};
ghost use Rattle.image_acts.specs.Words.{ReadsWord};
ghost use Rattle.fork_shows.specs.Salvages.{IsSalvaged, only_lists};
ghost use Rattle.fork_shows.specs.Written.{IsSavedAt};
ghost use Rattle.std.specs.Prelude.{◌≡◌, ℕ, IfOk, List, true};

use file_acts::acts::{Acts, write_text};
use file_acts::host::Host;
use file_acts::message::{DONE, Problem};
use fork_disk::Unknown;
use fork_list::letters::Letters;
use fork_report::{ContainerDamage, ForkSalvaged, salvage, salvage_data, salvage_list};
use fork_saves::save::save_to;
use fork_words::asked::{Salvage, Salvaging};
use image_acts::read;
use path_text::FileName;

/// Lists what can be read of a file, or writes it to another. The result is the exit status.
pub fn salvage_file(host: &Host<'_>, asked: Salvaging<'_>, acts: &mut Acts) -> Result<u8, Problem>
    ensures done { IfOk result (λ status. status ≡ DONE) }
    ensures quiet { only_lists asked.entry.what ≡ true → ReadsWord asked.entry.file.now acts.old.events acts.new.events }
    ensures saved { IfOk result (λ _. IsSalvaged asked.entry.what acts.new.events) }
{
    match salvaged(host, asked, acts) {
        Ok(()) => Ok(DONE),
        Err(problem) => Err(problem),
    }
}

/// Lists what can be read of a file, or writes it to another.
fn salvaged(host: &Host<'_>, asked: Salvaging<'_>, acts: &mut Acts) -> Result<(), Problem>
    ensures quiet { only_lists asked.entry.what ≡ true → ReadsWord asked.entry.file.now acts.old.events acts.new.events }
    ensures saved { IfOk result (λ _. IsSalvaged asked.entry.what acts.new.events) }
{
    let bytes = read::<Unknown>(host, asked.file, acts)?;
    match asked.what {
        Salvage::List(letters) => write_salvaged(host, asked.file, letters, &bytes, acts),
        Salvage::Fork(output) => save_salvaged(host, asked.file, &bytes, output, acts),
        Salvage::Data(output) => save_data(host, asked.file, &bytes, output, acts),
    }
}

/// Names the fault of the container of a file that is read in spite of it.
fn tell_damage(host: &Host<'_>, file: &str, damage: Option<ContainerDamage>) {
    if let Some(damage) = damage {
        let file = FileName(file);
        let _ = eprintln!(host.rt; "{file}: {damage}");
    }
}

/// Lists what can be read of a file with these bytes.
fn write_salvaged(
    host: &Host<'_>,
    file: &str,
    letters: Letters,
    bytes: &[u8],
    acts: &mut Acts,
) -> Result<(), Problem>
    ensures quiet { ReadsNothing acts.old.events acts.new.events }
{
    match salvage_list(host.alloc(), letters, bytes) {
        Ok(listed) => {
            tell_damage(host, file, listed.damage);
            write_text(host, &listed.text, acts)
        }
        Err(refusal) => Err(Problem::Refused(refusal)),
    }
}

/// Writes the data fork of a file with these bytes to another.
fn save_data(
    host: &Host<'_>,
    file: &str,
    bytes: &[u8],
    output: &str,
    acts: &mut Acts,
) -> Result<(), Problem>
    ensures { IfOk result (λ _. (bytes : List ℕ) × IsSavedAt output.now bytes acts.new.events) }
{
    match salvage_data(host.alloc(), bytes) {
        Ok(salvaged) => {
            save_to(host, output, salvaged.bytes(), acts)?;
            tell_damage(host, file, salvaged.damage);
            Ok(())
        }
        Err(refusal) => Err(Problem::Refused(refusal)),
    }
}

/// Writes what can be read of a file with these bytes to another.
fn save_salvaged(
    host: &Host<'_>,
    file: &str,
    bytes: &[u8],
    output: &str,
    acts: &mut Acts,
) -> Result<(), Problem>
    ensures { IfOk result (λ _. (bytes : List ℕ) × IsSavedAt output.now bytes acts.new.events) }
{
    match salvage(host.alloc(), bytes) {
        Ok(salvaged) => {
            save_to(host, output, &salvaged.bytes, acts)?;
            tell_salvaged(host, file, output, &salvaged);
            Ok(())
        }
        Err(refusal) => Err(Problem::Refused(refusal)),
    }
}

/// Says what was salvaged of a file.
fn tell_salvaged(host: &Host<'_>, file: &str, output: &str, salvaged: &ForkSalvaged) {
    tell_damage(host, file, salvaged.damage);
    if let Some(tally) = salvaged.tally {
        let file = FileName(file);
        let output = FileName(output);
        let _ = eprintln!(host.rt; "{file}: {tally} can be read, and are written to {output}");
    }
}
