//! Several files, one after the other: their names before what is written about each, and the highest status of them.

ghost use Rattle.file_acts.specs.Acts.{ReadsNothing};
ghost use Rattle.std.specs.Prelude.{◌≡◌, max};

use file_acts::acts::{Acts, print, write_text};
use file_acts::host::Host;
use file_acts::message::{Problem, inside_line, tell};
use fork_report::each_line;
use fork_words::asked::Titles;
use mac_files::archive::Archive;
use path_text::FileName;

/// The higher one of two statuses.
pub fn higher(one: u8, other: u8) -> u8
    ensures { result ≡ max one other }
{
    if one < other { other } else { one }
}

/// Writes lines about a file, if there are some: after its name where that is one of several, or each with its name.
pub fn write_lines(
    host: &Host<'_>,
    titles: Titles,
    is_one_of_several: bool,
    file: &str,
    lines: &[u8],
    acts: &mut Acts,
) -> Result<(), Problem>
    ensures quiet { ReadsNothing acts.old.events acts.new.events }
{
    if lines.is_empty() {
        return Ok(());
    }
    match titles {
        Titles::BeforeLines => write_each(host, file, lines, acts),
        Titles::BeforeFiles if is_one_of_several => {
            write_title(host, file, acts)?;
            print(host, lines, acts)
        }
        Titles::BeforeFiles => print(host, lines, acts),
    }
}

/// Writes a line with the name of a file.
fn write_title(host: &Host<'_>, file: &str, acts: &mut Acts) -> Result<(), Problem>
    ensures quiet { ReadsNothing acts.old.events acts.new.events }
{
    let name = FileName(file);
    match format!(in host.alloc(); "{name}:\n") {
        Ok(title) => write_text(host, &title, acts),
        Err(_) => Err(Problem::HostFull),
    }
}

/// Writes lines, each with the name of a file before it.
fn write_each(host: &Host<'_>, file: &str, lines: &[u8], acts: &mut Acts) -> Result<(), Problem>
    ensures quiet { ReadsNothing acts.old.events acts.new.events }
{
    let alloc = host.alloc();
    let name = FileName(file);
    let front = format!(in alloc; "{name} ")?;
    let text = each_line(alloc, front.as_bytes(), lines)?;
    print(host, &text, acts)
}

/// Notes the archive in a file without resources, if there is one.
pub fn note_archive(host: &Host<'_>, file: &str, archive: Option<Archive>) {
    if let Some(archive) = archive {
        tell(host, file, inside_line(host.alloc(), file, archive));
    }
}
