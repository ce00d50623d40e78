//! Why something isn't read of an image, as what is in the way.

ghost use Rattle.std.specs.Prelude.{Err, IfOk};
ghost use Rattle.image_acts.specs.Told.{IsFailed, IsNoSuchFile, IsMissing, Tells, TellsFile, TellsImage, TellsOpening, TellsPath, TellsPlace, IsRefused};

use disk_image::fault::{ImageFault, OpenFault};
use disk_image::known::Known;
use file_acts::input;
use file_acts::message::Problem;
use hfs_tree::fault::ReadFault;
use image_files::PathFault;
use image_files::found::{Found, NotFound};
use image_files::message::{FileText, ImageText, VolumeText};
use image_files::refusal::FileRefusal;
use image_open::missing_text;
use image_open::opened::{NotOpened, NotRead, Opened};
use std::alloc::{AllocError, Global};
use std::io;
use std::io::ErrorKind;

/// That a device fails.
fn device_failed() -> Problem
    ensures { IsFailed result }
{
    Problem::Read(input::NotRead::Failed(io::Error::new(ErrorKind::Other, "the device failed")))
}

/// That a text is no path.
fn of_path(alloc: Global, fault: PathFault) -> Problem
    ensures { TellsPath fault result }
{
    if fault == PathFault::HostFull {
        return Problem::HostFull;
    }
    match format!(in alloc; "{fault}") {
        Ok(told) => Problem::NotInImage(told),
        Err(_) => Problem::HostFull,
    }
}

/// That a file isn't read as an image.
fn of_image(alloc: Global, fault: OpenFault) -> Problem
    ensures { TellsImage fault result }
{
    match fault {
        OpenFault::Read(ReadFault::Device) => device_failed(),
        OpenFault::Read(ReadFault::Host) => Problem::HostFull,
        OpenFault::Image(ImageFault::Refused(Known::Other)) => no_file(),
        OpenFault::Image(_) => of_refused(alloc, fault),
    }
}

/// That an image is refused.
fn of_refused(alloc: Global, fault: OpenFault) -> Problem
    ensures { IsRefused result }
{
    let shown = ImageText(fault);
    match format!(in alloc; "{shown}") {
        Ok(told) => Problem::Image(told),
        Err(_) => Problem::HostFull,
    }
}

/// That there is no file of a name, and no image before the colon in it.
fn no_file() -> Problem
    ensures { IsNoSuchFile result }
{
    Problem::Read(input::NotRead::Failed(io::Error::new(
        ErrorKind::NotFound,
        "there is no such file, nor a disk image before its colon",
    )))
}

/// Why the image before the colon of a word isn't opened.
pub fn of_opening(alloc: Global, fault: NotOpened) -> Problem
    ensures { TellsOpening fault result }
{
    match fault {
        NotOpened::Path(fault) => of_path(alloc, fault),
        NotOpened::Image(fault) => of_image(alloc, fault),
    }
}

/// That a volume isn't read, whose number this is.
fn of_volume(alloc: Global, opened: &Opened, number: usize) -> Result<Problem, AllocError>
    ensures { IfOk result IsRefused }
{
    let told = match opened.contents.volumes.get(number) {
        Some(placed) => match &placed.found {
            Err(refusal) => {
                let shown = VolumeText(*refusal);
                format!(in alloc; "{shown}")?
            }
            Ok(_) => String::new(alloc),
        },
        None => String::new(alloc),
    };
    Ok(Problem::Image(told))
}

/// Why a path names nothing.
fn of_missing(alloc: Global, opened: &Opened, fault: NotFound) -> Result<Problem, AllocError>
    ensures { IfOk result (TellsPlace (Err fault)) }
{
    match fault {
        NotFound::Missing(number) => Ok(Problem::NotInImage(missing_text(alloc, opened, number)?)),
        NotFound::NotFolder => Ok(Problem::NotInImage(format!(in alloc; "{fault}")?)),
        NotFound::Refused(number) => of_volume(alloc, opened, number),
        NotFound::HostFull => Ok(Problem::HostFull),
    }
}

/// That what a path names isn't a file.
fn of_found(alloc: Global, found: Found) -> Result<Problem, AllocError>
    ensures { IfOk result IsMissing }
{
    let what = match found {
        Found::Image => "a disk image of several volumes",
        Found::Volume(_) => "a volume",
        Found::Folder(_) => "a folder",
        Found::File(_) => "a file",
    };
    Ok(Problem::NotInImage(format!(in alloc;
        "it is {what}, and no file: resfork ls lists what is in it"
    )?))
}

/// Why nothing is found at a path, or no file.
pub fn of_place(alloc: Global, opened: &Opened) -> Problem
    ensures { TellsPlace opened.now.found result }
{
    let problem = match opened.found {
        Ok(found) => of_found(alloc, found),
        Err(fault) => of_missing(alloc, opened, fault),
    };
    match problem {
        Ok(problem) => problem,
        Err(_) => Problem::HostFull,
    }
}

/// Why a file of an image isn't read.
fn of_file(alloc: Global, refusal: FileRefusal) -> Problem
    ensures { TellsFile refusal result }
{
    match refusal {
        FileRefusal::TooLong(_, limit) => Problem::Read(input::NotRead::TooLong(limit)),
        FileRefusal::Device => device_failed(),
        FileRefusal::HostFull => Problem::HostFull,
        FileRefusal::NoFile
        | FileRefusal::Fork(_, _)
        | FileRefusal::Chain(_, _)
        | FileRefusal::Unwritten(_) => of_damaged(alloc, refusal),
    }
}

/// That a file of an image can't be read.
fn of_damaged(alloc: Global, refusal: FileRefusal) -> Problem
    ensures { IsRefused result }
{
    let shown = FileText(refusal);
    match format!(in alloc; "{shown}") {
        Ok(told) => Problem::Image(told),
        Err(_) => Problem::HostFull,
    }
}

/// Why the bytes of a path aren't read.
pub fn of_reading(alloc: Global, why: NotRead) -> Problem
    ensures { Tells why result }
{
    match why {
        NotRead::NotOpened(fault) => of_opening(alloc, fault),
        NotRead::NoFile(opened) => of_place(alloc, &opened),
        NotRead::Refused(refusal) => of_file(alloc, refusal),
    }
}
