//! Images are opened and read, each act noted.

ghost use Rattle.std.specs.Prelude.{◌≡◌, [], ◌∷◌, MatchResult};
ghost use Rattle.fork_disk.specs.Files.{IsHonestIn};
ghost use Rattle.file_acts.specs.Acts.{ReadsOnly};
ghost use Rattle.file_acts.specs.Saved.{ShowsSaved};
ghost use Rattle.file_acts.specs.declared.acts.Act.TheVariants as act;
ghost use Rattle.image_acts.specs.Here.{here};
ghost use Rattle.image_acts.specs.Shown.{OpensDisk, OpensNamed, OpensWord, ReadsNamed, ReadsPlace, some_opened};
ghost use Rattle.image_acts.specs.Told.{IsFailed};
ghost use Rattle.image_acts.specs.Words.{ReadsWord};

use crate::problem::{of_opening, of_place, of_reading};
use crate::word::{ImagePlace, image_named, place_named};
use file_acts::acts::{Acts, note_parts};
use file_acts::host::Host;
use file_acts::input;
use file_acts::message::Problem;
use fork_disk::store::PlainStore;
use fork_disk::{HostFile, World};
use fork_list::letters::Letters;
use image_files::StillFile;
use image_files::contents::Contents;
use image_files::found::{Found, NotFound};
use image_files::lines::{Depth, Listing, image_lines};
use image_open::opened::{NotOpened, Opened};
use image_open::{open_image, open_path, read_path};
use std::alloc::AllocError;
use std::fs;

/// The disk of a file.
fn open_file<W: World>(host: &Host<'_>, path: &str) -> Result<StillFile<W>, Problem>
    ensures { MatchResult result (λ disk. disk.file.log.events ≡ []) IsFailed }
{
    match fs::open(host.rt, path) {
        Ok(file) => Ok(StillFile::new(HostFile::new(file))),
        Err(error) => Err(Problem::Read(input::NotRead::Failed(error))),
    }
}

/// Notes the calls that were made of an image.
fn note_image<W: World>(acts: &mut Acts, image: &str, disk: StillFile<W>)
    ensures noted { acts.new.events ≡ act.ReadParts image.now 0 disk.file.log.events ∷ acts.old.events }
    ensures quiet { ReadsOnly image.now acts.old.events acts.new.events }
    ensures seen { ShowsSaved acts.old.events acts.new.events }
{
    let store = PlainStore {
        disk: disk.into_file(),
    };
    note_parts(acts, image, &store);
}

/// The file at a place in an image.
fn read_place<W: World>(
    host: &Host<'_>,
    place: ImagePlace<'_>,
    acts: &mut Acts,
) -> Result<Vec<u8>, Problem>
    ensures reads { ReadsPlace W.World place.entry.image.now place.entry.path.now host.now.limit result acts.old.events acts.new.events }
    ensures quiet { ReadsOnly place.entry.image.now acts.old.events acts.new.events }
    ensures seen { ShowsSaved acts.old.events acts.new.events }
{
    let disk = open_file::<W>(host, place.image)?;
    let (disk, read) = read_path(host.alloc(), disk, place.path, host.limit);
    note_image(acts, place.image, disk);
    match read {
        Ok(bytes) => Ok(bytes),
        Err(why) => Err(of_reading(host.alloc(), why)),
    }
}

/// The bytes of the file of this name, or of the standard input, which `-` is; or, where there is no such file and the word is
/// `IMAGE:PATH`, the file of this path in the image as the bytes of a MacBinary file.
pub fn read<W: World>(host: &Host<'_>, word: &str, acts: &mut Acts) -> Result<Vec<u8>, Problem>
    ensures reads { ReadsNamed W.World word.now host.now.limit result acts.old.events acts.new.events }
    ensures quiet { ReadsWord word.now acts.old.events acts.new.events }
    ensures seen { ShowsSaved acts.old.events acts.new.events }
{
    match place_named(host, word, acts) {
        Some(place) => read_place::<W>(host, place, acts),
        None => input::read(host, word, acts),
    }
}

/// What a place in an image is, or the image that a file is.
fn open_place<W: World>(
    host: &Host<'_>,
    word: &str,
    place: ImagePlace<'_>,
    acts: &mut Acts,
) -> Result<Option<Opened>, Problem>
    ensures opens { OpensWord W.World word.now (here place.entry) result acts.old.events acts.new.events }
    ensures quiet { ReadsOnly place.entry.image.now acts.old.events acts.new.events }
    ensures seen { ShowsSaved acts.old.events acts.new.events }
{
    let disk = open_file::<W>(host, place.image)?;
    let (disk, opened) = open_disk(host, word, place, disk);
    note_image(acts, place.image, disk);
    match opened {
        Ok(opened) => Ok(opened),
        Err(fault) => Err(of_opening(host.alloc(), fault)),
    }
}

/// What was opened, which is there.
fn some_opened(opened: Result<Opened, NotOpened>) -> Result<Option<Opened>, NotOpened>
    ensures { result ≡ some_opened opened }
{
    match opened {
        Ok(opened) => Ok(Some(opened)),
        Err(fault) => Err(fault),
    }
}

/// Opens the image of a place, if the word names just that image: what it has, if it is one. Else what the path of the place
/// names in it.
fn open_disk<W: World>(
    host: &Host<'_>,
    word: &str,
    place: ImagePlace<'_>,
    disk: StillFile<W>,
) -> (StillFile<W>, Result<Option<Opened>, NotOpened>)
    ensures { IsHonestIn W.World result.0.file → OpensDisk word.now (here place.entry) result.1 (W.held 0 []) }
{
    if word == place.image {
        return open_image(host.alloc(), disk);
    }
    let (disk, opened) = open_path(host.alloc(), disk, place.path);
    (disk, some_opened(opened))
}

/// What a word names of an image, if it does.
fn opened_at<W: World>(
    host: &Host<'_>,
    word: &str,
    acts: &mut Acts,
) -> Result<Option<Opened>, Problem>
    ensures opens { OpensNamed W.World word.now result acts.old.events acts.new.events }
    ensures quiet { ReadsWord word.now acts.old.events acts.new.events }
    ensures seen { ShowsSaved acts.old.events acts.new.events }
{
    match image_named(host, word, acts) {
        Some(place) => open_place::<W>(host, word, place, acts),
        None => Ok(None),
    }
}

/// A list of what is in an image, or in a folder of it.
#[derive(Drop)]
pub struct ImageList {
    contents: Contents,
    listing: Listing,
}

impl ImageList {
    /// How many lines it has.
    pub fn len(&self) -> usize {
        self.listing.len()
    }

    /// The next lines; none after the last one.
    pub fn next_lines(&mut self, host: &Host<'_>) -> Result<String, AllocError> {
        self.listing.next_lines(host.alloc(), &self.contents)
    }
}

/// What is in the image, or in the folder of one, that a word names; none where it names something else.
pub fn list_image<W: World>(
    host: &Host<'_>,
    word: &str,
    letters: Letters,
    depth: Depth,
    acts: &mut Acts,
) -> Result<Option<ImageList>, Problem>
    ensures quiet { ReadsWord word.now acts.old.events acts.new.events }
    ensures seen { ShowsSaved acts.old.events acts.new.events }
{
    let Some(opened) = opened_at::<W>(host, word, acts)? else {
        return Ok(None);
    };
    let found = match opened.found {
        Ok(Found::File(_)) => return Ok(None),
        Ok(found) => found,
        Err(_) => return Err(of_place(host.alloc(), &opened)),
    };
    let listing = Listing::new(host.alloc(), letters, &opened.contents, found, depth)?;
    Ok(Some(ImageList {
        contents: opened.contents,
        listing,
    }))
}

/// What an image is, as lines, and whether one of its volumes isn't read.
#[derive(Drop)]
pub struct Described {
    pub text: String,
    pub is_damaged: bool,
}

/// What the image or the volume is that a word names; none where it names something else.
pub fn describe_image<W: World>(
    host: &Host<'_>,
    word: &str,
    acts: &mut Acts,
) -> Result<Option<Described>, Problem>
    ensures quiet { ReadsWord word.now acts.old.events acts.new.events }
    ensures seen { ShowsSaved acts.old.events acts.new.events }
{
    let Some(opened) = opened_at::<W>(host, word, acts)? else {
        return Ok(None);
    };
    match opened.found {
        Ok(Found::File(_) | Found::Folder(_)) => return Ok(None),
        Ok(Found::Image | Found::Volume(_)) | Err(NotFound::Refused(_)) => {}
        Err(_) => return Err(of_place(host.alloc(), &opened)),
    }
    let text = image_lines(host.alloc(), Letters::Roman, &opened.contents)?;
    let is_damaged = opened
        .contents
        .volumes
        .iter()
        .any(|placed| placed.found.is_err());
    Ok(Some(Described { text, is_damaged }))
}

/// Refuses a word that names a place in an image, where something would be written.
pub fn check_outside<W: World>(host: &Host<'_>, word: &str, acts: &mut Acts) -> Result<(), Problem>
    ensures quiet { ReadsWord word.now acts.old.events acts.new.events }
    ensures seen { ShowsSaved acts.old.events acts.new.events }
{
    let Some(place) = place_named(host, word, acts) else {
        return Ok(());
    };
    match open_place::<W>(host, place.image, place, acts) {
        Ok(Some(_)) => Err(Problem::InImage),
        Ok(None) => Ok(()),
        Err(problem) => Err(problem),
    }
}
