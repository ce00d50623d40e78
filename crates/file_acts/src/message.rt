//! What is printed on the standard error, and the exit statuses.

ghost use Rattle.std.specs.Prelude.{◌≡◌, ◌≤◌, IfOk};
ghost use Rattle.file_acts.specs.Problems.{IsMissing, IsRefusedAs, IsToldOfChange, after_change};
ghost use Rattle.file_acts.specs.Statuses.{status_after, status_of, status_of_words};

use crate::host::Host;
use crate::input::NotRead;
use file_replace::NotReplaced;
use fork_answer::{Failure, NoFork};
use fork_change::row::ResourceId;
use fork_edit::change::NotChanged;
use fork_edit::file::NotWritten;
use fork_folder::rows::PackFault;
use fork_list::find::{Key, Wanted};
use fork_list::letters::Letters;
use fork_list::{KindText, Quoted};
use fork_report::{InsideNote, Opening, Operand, Refusal, can_be_salvaged};
use fork_rez::fault::RezFault;
use fork_texts::fault::TextFault;
use fork_view::{NotShown, NotUnpacked, Untold};
use fork_words::asked::NotAsked;
use mac_base::error::HostFull;
use mac_base::resource::ResType;
use mac_files::archive::Archive;
use path_text::{FileName, Lines};
use std::alloc::{AllocError, Global};
use std::io;
use std::io::ErrorKind;
use thiserror::Error;

/// The exit status where all was done.
pub const DONE: u8 = 0;

/// The exit status where there is no such resource.
pub const NOT_FOUND: u8 = 1;

/// The exit status where the words of the command line are bad.
pub const BAD_WORDS: u8 = 2;

/// The exit status where a file holds no resource fork, or a damaged one.
pub const NO_FORK: u8 = 3;

/// The exit status where something can't be read or written, or the host has no memory.
pub const CANT_GO_ON: u8 = 4;

/// Why a file isn't shown, or not all of it.
#[derive(Debug, Drop, Error)]
pub enum Problem {
    /// The file can't be read.
    #[error("{0}")]
    Read(NotRead),
    /// What it holds can't be shown.
    #[error("{0}")]
    Refused(#[from] Refusal),
    /// Its container has a fault, in spite of which its resource fork can be read.
    #[error("{0}")]
    Salvageable(Refusal),
    /// The file of this name isn't written.
    #[error("{error}")]
    Output { path: String, error: NotReplaced },
    /// It is changed, but the standard output takes no more.
    #[error("it is changed, but what changed can't be shown: {0}")]
    Said(io::Error),
    /// It has no such resource, which is shown so.
    #[error("there is no resource {0}")]
    NotFound(String),
    /// No resource that is asked for has this type.
    #[error("there is no such resource")]
    NoKind(ResType),
    /// There are no resources to be put into a file.
    #[error("there are no resources in it, and nothing is put into a file: name some in it, or an OUT for a fork without any")]
    Nothing,
    /// Two resources that are copied have one type and id.
    #[error("two of these resources have one type and id: copy them one by one, by get and put")]
    Twice,
    /// A file that is there has more than a resource fork.
    #[error("it is there, and is more than a resource fork, which would be lost: name another file, or --force replaces it")]
    Container(String),
    /// A file that is there has so many resources that the new one lacks.
    #[error("it is there, and has resources that the new file lacks, {count} of them: --into FILE keeps them, --force replaces the file")]
    Lacking { path: String, count: usize },
    /// A file that is there has no resource fork that can be read.
    #[error("it is there, and no resource fork that can be read: name another file, or --force replaces it")]
    NotFork(String),
    /// A resource that is put into a file is there already.
    #[error("there is such a resource already: --replace takes its place, --skip leaves out the other")]
    IsThere,
    /// The standard output takes no more.
    #[error("the output can't be written: {0}")]
    Print(io::Error),
    /// Its resources can't be shown so.
    #[error("{0}")]
    View(NotShown),
    /// Some of its resources can't be shown so; the others are.
    #[error("not all of these resources can be shown so")]
    Untold(Vec<Untold>),
    /// Not all of its resources are written to a folder.
    #[error("{0}")]
    Unpack(NotUnpacked),
    /// A file isn't replaced.
    #[error("{0}")]
    Replace(#[from] NotReplaced),
    /// Its resources aren't changed.
    #[error("{0}")]
    Edit(fork_change::Refusal),
    /// A file with these resources isn't written.
    #[error("not written: {0}")]
    Write(NotWritten),
    /// The file of this path, as it is shown, which belongs to it, isn't read.
    #[error("{path} {error}")]
    Unread { path: String, error: NotRead },
    /// A text says no resources.
    #[error("{0}")]
    Rez(RezFault),
    /// Lines aren't those of the texts of a file.
    #[error("{0}")]
    Texts(TextFault),
    /// A folder isn't one to which resources were unpacked.
    #[error("{0}")]
    Pack(PackFault),
    /// A resource is apart from one before it of its type.
    #[error("{0} is apart from the other resources of its type: put those of one type together")]
    Apart(String),
    /// A file of a folder, whose path is shown so, is no text.
    #[error("{0} is no UTF-8 text")]
    NoText(String),
    /// A container can't hold these things of the file.
    #[error("{0} would be lost; --lossy leaves it out")]
    Lost(String),
    /// Its data fork would be lost.
    #[error("its data fork would be lost; --data FILE writes it to a file of its own")]
    DataLost,
    /// `--data` names a file where none is read or written.
    #[error("--data names a data fork in a file of its own, and there is none here")]
    NoDataFile,
    /// Two files that are written are one.
    #[error("the data fork would take the place of the file that is written")]
    OneFile,
    /// The container can't hold it.
    #[error("not written: {0}")]
    Convert(mac_write::refusal::Refusal),
    /// There is no such file.
    #[error("there is no such file; --create makes a new one")]
    NoFile,
    /// A disk image has nothing of this path: why.
    #[error("{0}")]
    NotInImage(String),
    /// A disk image, or a file in it, isn't read: why.
    #[error("{0}")]
    Image(String),
    /// A file in a disk image would be changed.
    #[error("it is in a disk image, and files there are only read: resfork convert takes it out")]
    InImage,
    /// A file would be written in a disk image.
    #[error("it would be in a disk image, and images are only read: name a file outside of it")]
    IntoImage,
    /// The host has no memory.
    #[error("the host has no memory")]
    HostFull,
    /// The standard output is a terminal.
    #[error("the bytes of a resource aren't for a terminal: name a file with -o OUT, or pipe them on")]
    Terminal,
}

impl From<AllocError> for Problem {
    ghost use Rattle.std.specs.Prelude.{◌≡◌, Some};
    ghost use Rattle.file_acts.specs.declared.message.Problem.TheVariants as problem;

    ghost from_gives = { λ _ why. why ≡ problem.HostFull };

    fn from(_: AllocError) -> Problem {
        Problem::HostFull
    }
}

impl From<HostFull> for Problem {
    ghost use Rattle.std.specs.Prelude.{◌≡◌, Some};
    ghost use Rattle.file_acts.specs.declared.message.Problem.TheVariants as problem;

    ghost from_gives = { λ _ why. why ≡ problem.HostFull };

    fn from(_: HostFull) -> Problem {
        Problem::HostFull
    }
}

/// The exit status that says so.
fn status_of_refusal(refusal: &Refusal) -> u8
    ensures { result ≡ status_of (Problem.Refused refusal.now) }
{
    match refusal {
        Refusal::Show(Failure::NotFound) => NOT_FOUND,
        Refusal::Show(Failure::HostFull) | Refusal::Show(Failure::Write(_)) => CANT_GO_ON,
        _ => NO_FORK,
    }
}

impl Problem {
    /// Why this file isn't changed.
    pub fn of_change(alloc: Global, fault: NotChanged, file: &[u8]) -> Problem
        ensures { IsToldOfChange file.now fault result }
    {
        match fault {
            NotChanged::Read(failure) => {
                Problem::of_refusal(alloc, Refusal::of_failure(alloc, failure, file), file)
            }
            NotChanged::Edit(refusal) => Problem::Edit(refusal),
            NotChanged::Write(fault) => Problem::Write(fault),
            NotChanged::HostFull => Problem::HostFull,
        }
    }

    /// Why nothing is shown of this file. Where its container has a fault, it is known whether it can be salvaged.
    pub fn of_refusal(alloc: Global, refusal: Refusal, file: &[u8]) -> Problem
        ensures { IsRefusedAs file.now refusal result }
    {
        let Refusal::Container {
            fault: NoFork::File(_),
            ..
        } = refusal
        else {
            return Problem::Refused(refusal);
        };
        match can_be_salvaged(alloc, file) {
            Ok(true) => Problem::Salvageable(refusal),
            _ => Problem::Refused(refusal),
        }
    }

    /// That there is no such resource.
    pub fn of_missing(alloc: Global, wanted: &Wanted) -> Problem
        ensures { IsMissing result }
    {
        match wanted_text(alloc, wanted) {
            Ok(text) => Problem::NotFound(text),
            Err(_) => Problem::HostFull,
        }
    }

    /// The problem, where a file is changed already.
    pub fn after_change(self) -> Problem
        ensures { result ≡ after_change self }
    {
        match self {
            Problem::Print(error) => Problem::Said(error),
            problem => problem,
        }
    }

    /// The exit status that says so.
    pub fn status(&self) -> u8
        ensures { result ≡ status_of self.now }
    {
        match self {
            Problem::Refused(refusal) => status_of_refusal(refusal),
            Problem::NotFound(_)
            | Problem::View(NotShown::NotFound)
            | Problem::Edit(fork_change::Refusal::Missing(_))
            | Problem::Edit(fork_change::Refusal::Taken)
            | Problem::NoKind(_)
            | Problem::Nothing
            | Problem::IsThere
            | Problem::NotInImage(_)
            | Problem::Twice => NOT_FOUND,
            Problem::Terminal
            | Problem::NoDataFile
            | Problem::OneFile
            | Problem::InImage
            | Problem::IntoImage
            | Problem::View(NotShown::NoPicture(_))
            | Problem::View(NotShown::Undrawn(_))
            | Problem::View(NotShown::NoText)
            | Problem::View(NotShown::Compressed(_))
            | Problem::View(NotShown::ManyPictures)
            | Problem::View(NotShown::NoSound(_))
            | Problem::View(NotShown::Unheard(_))
            | Problem::View(NotShown::ManySounds)
            | Problem::Untold(_) => BAD_WORDS,
            Problem::Pack(PackFault::HostFull) => CANT_GO_ON,
            Problem::Rez(RezFault::Refused(_))
            | Problem::Texts(TextFault::Refused(_))
            | Problem::Pack(_)
            | Problem::Salvageable(_)
            | Problem::Image(_)
            | Problem::Apart(_)
            | Problem::NoText(_) => NO_FORK,
            _ => CANT_GO_ON,
        }
    }

    /// Whether nothing is said of it: whoever read the output has gone away.
    fn is_silent(&self) -> bool {
        match self {
            Problem::Refused(Refusal::Show(Failure::Write(error))) | Problem::Print(error) => {
                error.kind() == ErrorKind::BrokenPipe
            }
            _ => false,
        }
    }
}

/// A resource that is asked for: its type, its id or its name, and which of several such it is.
fn wanted_text(alloc: Global, wanted: &Wanted) -> Result<String, AllocError> {
    let kind = KindText::new(Letters::Roman, wanted.kind);
    let mut text = match &wanted.key {
        Key::Id(id) => format!(in alloc; "{kind} {id}")?,
        Key::Name(name) => {
            let name = Quoted::double(Letters::Roman, name.as_slice());
            format!(in alloc; "{kind} {name}")?
        }
    };
    if wanted.nth > 0 {
        let nth = wanted.nth.saturating_add(1);
        write!(text, " with --nth {nth}")?;
    }
    Ok(text)
}

/// What is said of a problem of the file of this name: nothing, where whoever read the output has gone away.
fn lines_of(alloc: Global, file: &str, problem: &Problem) -> Result<String, AllocError> {
    if problem.is_silent() {
        return Ok(String::new(alloc));
    }
    match problem {
        Problem::Refused(Refusal::Archive(archive)) => archive_line(alloc, file, *archive),
        Problem::Refused(Refusal::Inside(archive)) => inside_line(alloc, file, *archive),
        Problem::Refused(
            Refusal::Damaged {
                is_readable: true,
                ..
            },
        )
        | Problem::Salvageable(_) => damaged_line(alloc, file, problem),
        Problem::Edit(fork_change::Refusal::Missing(what)) => missing_line(alloc, file, *what),
        Problem::NoKind(kind) => no_kind_line(alloc, file, *kind),
        Problem::Untold(others) => untold_lines(alloc, file, others.as_slice()),
        Problem::Output { path, .. } => words_line(alloc, path.as_str(), problem),
        Problem::Container(path) | Problem::NotFork(path) | Problem::Lacking { path, .. } => {
            words_line(alloc, path.as_str(), problem)
        }
        problem => words_line(alloc, file, problem),
    }
}

/// Prints what is said of the file of this name on the standard error, if it takes it; or that the host has no memory to
/// say it.
pub fn tell(host: &Host<'_>, file: &str, lines: Result<String, AllocError>) {
    let _ = match lines {
        Ok(lines) => eprint!(host.rt; "{lines}"),
        Err(_) => {
            let file = FileName(file);
            let full = Problem::HostFull;
            eprintln!(host.rt; "{file}: {full}")
        }
    };
}

/// The status of what was done with a file. A problem is reported.
pub fn finish(host: &Host<'_>, file: &str, done: Result<u8, Problem>) -> u8
    ensures status { result ≡ status_after done }
    ensures few { IfOk done (λ status. status ≤ CANT_GO_ON) → result ≤ CANT_GO_ON }
{
    match done {
        Ok(status) => status,
        Err(problem) => {
            tell(host, file, lines_of(host.alloc(), file, &problem));
            let status = problem.status();
            drop(problem);
            status
        }
    }
}

/// That the fork of the file of this name is damaged, or which fault its container has; and how what can be read is had.
fn damaged_line(alloc: Global, file: &str, problem: &Problem) -> Result<String, AllocError> {
    let word = Operand(file);
    let file = FileName(file);
    let told = format!(in alloc; "{problem}")?;
    let told = Lines(told.as_str());
    format!(in alloc; "{file}: {told}: resfork salvage {word} -o OUT\n")
}

/// A problem of the file of this name in its own words. They may have in them what others wrote, as a text of which a
/// part is named.
fn words_line(alloc: Global, file: &str, problem: &Problem) -> Result<String, AllocError> {
    let file = FileName(file);
    let told = format!(in alloc; "{problem}")?;
    let told = Lines(told.as_str());
    format!(in alloc; "{file}: {told}\n")
}

/// That the file of this name has no resource of this type.
fn no_kind_line(alloc: Global, file: &str, kind: ResType) -> Result<String, AllocError> {
    let file = FileName(file);
    let kind = KindText::new(Letters::Roman, kind);
    format!(in alloc; "{file}: there is no resource of the type {kind}\n")
}

/// Why resources of the file of this name aren't shown with the others.
fn untold_lines(alloc: Global, file: &str, others: &[Untold]) -> Result<String, AllocError> {
    let file = FileName(file);
    let mut lines = String::new(alloc);
    for other in others {
        let kind = KindText::new(Letters::Roman, other.kind);
        let id = other.id;
        let why = other.why;
        writeln!(lines, "{file}: {kind} {id}: {why}")?;
    }
    Ok(lines)
}

/// That the file of this name has no resource of this type and id.
fn missing_line(alloc: Global, file: &str, what: ResourceId) -> Result<String, AllocError> {
    let file = FileName(file);
    let kind = KindText::new(Letters::Roman, what.kind);
    let id = what.id;
    format!(in alloc; "{file}: there is no resource {kind} {id}\n")
}

/// That the file of this name is an archive, and what opens it.
fn archive_line(alloc: Global, file: &str, archive: Archive) -> Result<String, AllocError> {
    let opening = Opening { archive, file };
    let file = FileName(file);
    let name = archive.name();
    format!(in alloc; "{file}: a {name}, which resfork doesn't unpack: {opening}\n")
}

/// That the file of this name has no resources, and this archive in its data fork, and what opens it.
pub fn inside_line(alloc: Global, file: &str, archive: Archive) -> Result<String, AllocError> {
    let note = InsideNote { archive, file };
    let file = FileName(file);
    format!(in alloc; "{file}: {note}\n")
}

/// Says why the words ask for nothing. The result is the exit status.
pub fn tell_bad_words(rt: &HostRuntime, error: &NotAsked) -> u8
    ensures { result ≡ status_of_words error.now }
{
    match format!(in rt.alloc(); "{error}") {
        Ok(told) => {
            let told = Lines(told.as_str());
            let _ = eprint!(rt; "{told}");
        }
        Err(_) => {
            let full = NotAsked::HostFull;
            let _ = eprint!(rt; "{full}");
        }
    }
    match error {
        NotAsked::HostFull => CANT_GO_ON,
        _ => BAD_WORDS,
    }
}
