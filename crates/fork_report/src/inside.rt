//! Archives and images of disks in the data forks of files without resources.

ghost use Rattle.std.specs.Prelude.{◌≡◌, Some};
ghost use Rattle.mac_files.specs.OldFiles.{said_by};
ghost use Rattle.fork_report.specs.Inside.{IsInside, archive_inside, operand};

use fork_salvage::Salvage;
use mac_files::OldFile;
use mac_files::archive::Archive;
use path_text::ShellWord;
use std::alloc::Global;
use std::fmt;

/// The name of the standard input.
const INPUT: &str = "-";

/// A file as a word of a command that can be typed.
#[derive(Clone, Copy)]
pub struct Operand<'a>(pub &'a str);

impl fmt::Display for Operand<'_> {
    ghost output = { λ o. Some (operand o.0.now) };

    fn fmt<W: fmt::Write>(&self, f: &mut fmt::Formatter<W>) -> fmt::Result {
        if self.0 == INPUT {
            return write!(f, "-");
        }
        let word = ShellWord(self.0);
        write!(f, "{word}")
    }
}

/// The command that opens this archive, which is the file of this name or is in it.
#[derive(Clone, Copy)]
pub struct Opening<'a> {
    pub archive: Archive,
    pub file: &'a str,
}

impl fmt::Display for Opening<'_> {
    fn fmt<W: fmt::Write>(&self, f: &mut fmt::Formatter<W>) -> fmt::Result {
        let command = self.archive.command();
        let word = Operand(self.file);
        match command.split_once("FILE") {
            Some((before, after)) => write!(f, "{before}{word}{after}"),
            None => write!(f, "{command}"),
        }
    }
}

/// What is noted of the file of this name, which has no resources and this archive in its data fork.
#[derive(Clone, Copy)]
pub struct InsideNote<'a> {
    pub archive: Archive,
    pub file: &'a str,
}

impl fmt::Display for InsideNote<'_> {
    fn fmt<W: fmt::Write>(&self, f: &mut fmt::Formatter<W>) -> fmt::Result {
        let InsideNote { archive, file } = *self;
        let name = archive.name();
        let opening = Opening { archive, file };
        write!(f, "no resources; its data fork is a {name}: {opening}")
    }
}

/// The archive or the image of a disk in a file in whose resource fork nothing is found: what its data fork is known
/// as.
pub(crate) fn archive_in(found: &OldFile<'_>) -> Option<Archive>
    ensures { result ≡ archive_inside (said_by found.now) }
{
    let mut salvage = Salvage::new(found.fork());
    match salvage.next() {
        Some(_) => None,
        None => found.data_archive(),
    }
}

/// The archive or the image of a disk in a file with these bytes, in whose resource fork nothing is found. None, too,
/// where it isn't opened.
#[tactic(auto, using(crate::proofs::Refusing::inside_of, crate::proofs::Refusing::not_inside))]
pub fn archive_inside(alloc: Global, bytes: &[u8]) -> Option<Archive>
    ensures { IsInside bytes.now result }
{
    match OldFile::open(alloc, bytes) {
        Ok(found) => archive_in(&found),
        Err(_) => None,
    }
}
