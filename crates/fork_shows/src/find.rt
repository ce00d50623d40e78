//! Resources that are found in files, and in the files below folders.

ghost use Rattle.std.specs.Prelude.{◌≤◌};
ghost use Rattle.file_acts.specs.Acts.{ReadsNothing, WritesNothing};
ghost use Rattle.image_acts.specs.Words.{ReadsWord};

use crate::several::{higher, write_lines};
use file_acts::acts::{Acts, look_at};
use file_acts::entries::{Entries, Entry, list_entries, too_many};
use file_acts::found::{fork_found, table_found};
use file_acts::host::Host;
use file_acts::input::NotRead;
use file_acts::message::{CANT_GO_ON, DONE, NOT_FOUND, Problem, finish};
use fork_answer::NoFork;
use fork_bytes::table::Row;
use fork_disk::Unknown;
use fork_find::{Sought, found_lines};
use fork_report::Refusal;
use fork_words::INPUT;
use fork_words::asked::Titles;
use fork_words::find::Finding;
use image_acts::read;

/// How many files and folders below one folder are looked at.
const MOST_LOOKS: usize = 10_000_000;

/// What came of a search so far.
#[derive(Clone, Copy)]
struct Search {
    /// Whether a resource was found.
    has_found: bool,
    /// The highest status of a problem, or 0.
    worst: u8,
    ghost few: { worst ≤ 4 },
}

impl Search {
    /// Nothing was looked at.
    fn new() -> Search {
        Search {
            has_found: false,
            worst: DONE,
        }
    }

    /// The same, after a file was looked at: whether something was found in it, or why it wasn't searched.
    fn after(self, host: &Host<'_>, file: &str, found: Result<bool, Problem>) -> Search {
        match found {
            Ok(has_found) => Search {
                has_found: self.has_found || has_found,
                worst: self.worst,
            },
            Err(problem) => Search {
                has_found: self.has_found,
                worst: higher(self.worst, finish(host, file, Err(problem))),
            },
        }
    }

    /// The exit status: that of a problem, or whether something was found.
    fn status(self) -> u8
        ensures { result ≤ CANT_GO_ON }
    {
        if self.worst != DONE {
            self.worst
        } else if self.has_found {
            DONE
        } else {
            NOT_FOUND
        }
    }
}

/// Writes a line for each of these resources of a file that is sought. The result says whether there is one.
fn print_found(
    host: &Host<'_>,
    sought: &Sought,
    file: &str,
    rows: &[Row<'_>],
    acts: &mut Acts,
) -> Result<bool, Problem>
    ensures quiet { ReadsNothing acts.old.events acts.new.events }
{
    let lines = found_lines(host.alloc(), sought, rows)?;
    write_lines(
        host,
        Titles::BeforeLines,
        true,
        file,
        lines.as_bytes(),
        acts,
    )?;
    Ok(!lines.as_str().is_empty())
}

/// The same of the resources in the bytes of a file.
fn find_in_bytes(
    host: &Host<'_>,
    sought: &Sought,
    file: &str,
    bytes: &[u8],
    acts: &mut Acts,
) -> Result<bool, Problem>
    ensures quiet { ReadsNothing acts.old.events acts.new.events }
{
    let found = fork_found(host.alloc(), bytes)?;
    let table = table_found(host.alloc(), &found, bytes)?;
    print_found(host, sought, file, table.rows.as_slice(), acts)
}

/// The same of the file of this name.
fn find_in_file(
    host: &Host<'_>,
    sought: &Sought,
    file: &str,
    acts: &mut Acts,
) -> Result<bool, Problem>
    ensures quiet { ReadsWord file.now acts.old.events acts.new.events }
{
    let bytes = read::<Unknown>(host, file, acts)?;
    find_in_bytes(host, sought, file, &bytes, acts)
}

/// Whether a file has no resources, for all that is known.
fn has_no_fork(problem: &Problem) -> bool {
    matches!(
        problem,
        Problem::Refused(
            Refusal::Unknown(_)
                | Refusal::NoHeader
                | Refusal::Container {
                    fault: NoFork::Absent,
                    ..
                }
        )
    )
}

/// The same of a file below a folder: one without resources is passed over.
fn find_below(
    host: &Host<'_>,
    sought: &Sought,
    file: &str,
    acts: &mut Acts,
) -> Result<bool, Problem>
    ensures quiet { ReadsWord file.now acts.old.events acts.new.events }
{
    match find_in_file(host, sought, file, acts) {
        Err(problem) if has_no_fork(&problem) => Ok(false),
        found => found,
    }
}

/// Looks at what is below a folder: a file is searched, and what is in a folder is added.
fn look_below(
    host: &Host<'_>,
    sought: &Sought,
    path: &str,
    entry: Entry,
    entries: &mut Entries,
    acts: &mut Acts,
) -> Result<bool, Problem>
    ensures quiet { WritesNothing acts.old.events acts.new.events }
{
    match entry {
        Entry::File => find_below(host, sought, path, acts),
        Entry::Folder => {
            list_entries(host, path, entries, acts)?;
            Ok(false)
        }
    }
}

/// Searches all files below a folder, by their paths.
fn find_in_folder(
    host: &Host<'_>,
    sought: &Sought,
    folder: &str,
    search: Search,
    acts: &mut Acts,
) -> Search
    ensures quiet { WritesNothing acts.old.events acts.new.events }
{
    let mut entries = Entries::new(host.alloc());
    let listed = look_below(host, sought, folder, Entry::Folder, &mut entries, acts);
    let mut search = search.after(host, folder, listed);
    for _ in 0..MOST_LOOKS {
        let Some((path, entry)) = entries.pop_first() else {
            return search;
        };
        let found = look_below(host, sought, path.as_str(), entry, &mut entries, acts);
        search = search.after(host, path.as_str(), found);
    }
    let why = NotRead::Failed(too_many());
    search.after(host, folder, Err(Problem::Read(why)))
}

/// Whether a word names a folder. `-` is the standard input.
fn is_folder(host: &Host<'_>, path: &str, acts: &mut Acts) -> bool
    ensures quiet { WritesNothing acts.old.events acts.new.events }
{
    if path == INPUT {
        return false;
    }
    match look_at(host, path, acts) {
        Ok(Some(found)) => found.is_folder(),
        _ => false,
    }
}

/// Searches what is named: a file, or all files below a folder.
fn find_in(host: &Host<'_>, sought: &Sought, file: &str, search: Search, acts: &mut Acts) -> Search
    ensures quiet { WritesNothing acts.old.events acts.new.events }
{
    if is_folder(host, file, acts) {
        return find_in_folder(host, sought, file, search, acts);
    }
    let found = find_in_file(host, sought, file, acts);
    search.after(host, file, found)
}

/// Writes a line for each resource that is sought in files, and in the files below folders. The result is the exit
/// status: 0 where there is one, 1 where there is none, and that of a problem where a file wasn't searched.
pub fn find_all(host: &Host<'_>, asked: &Finding<'_>, acts: &mut Acts) -> u8
    ensures few { result ≤ CANT_GO_ON }
    ensures quiet { WritesNothing acts.old.events acts.new.events }
{
    let mut search = Search::new();
    for file in asked.files.as_slice() {
        search = find_in(host, &asked.sought, file, search, acts);
    }
    search.status()
}
