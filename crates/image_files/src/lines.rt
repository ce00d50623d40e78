//! Lists of folders and files, and what an image is, as lines.

use crate::contents::{Contents, Place};
use crate::files::Files;
use crate::found::{Found, folders_of};
use crate::item::{FileInfo, FolderInfo, Info};
use crate::message::{FormatText, KnownText, VolumeText};
use crate::volume::{PlacedVolume, VolumeFiles};
use file_facts::moment_of;
use fork_list::KindText;
use fork_list::letters::Letters;
use hfs_tree::number::{read_four, read_two};
use hfs_volume::entry::Entry;
use hfs_volume::name::Name;
use image_paths::NameText;
use mac_base::resource::ResType;
use std::alloc::{AllocError, Global};
use std::fmt;
use volume_names::folders::Folders;
use volume_names::path_of_thing;

/// How far down a list goes.
#[derive(Clone, Copy, Debug, PartialEq, Eq)]
pub enum Depth {
    /// What is directly in a folder.
    Here,
    /// All that is below it.
    All,
}

/// The id of the root of an HFS volume.
const ROOT: u32 = 2;

/// The most folders that a path goes through, with the root.
const MOST_FOLDERS: usize = 256;

/// Whether the folder with an id is another one, or below it.
fn is_below(folders: &Folders, id: u32, other: u32) -> bool {
    let mut id = id;
    for _ in 0..MOST_FOLDERS {
        if id == other {
            return true;
        }
        let Some(folder) = folders.get(&id) else {
            return false;
        };
        id = folder.parent;
    }
    false
}

/// Whether a thing is in the folder with an id, directly or below.
fn is_in(depth: Depth, folders: &Folders, id: u32, thing: &Entry) -> bool {
    match depth {
        Depth::Here => thing.parent == id,
        Depth::All => is_below(folders, thing.parent, id),
    }
}

/// Adds the folders and files of a volume that are in the folder with an id.
fn push_places(
    places: &mut Vec<Place>,
    number: usize,
    files: &Files,
    folders: &Folders,
    id: u32,
    depth: Depth,
) -> Result<(), AllocError> {
    match files {
        Files::Hfs(_, things) => {
            for (index, thing) in things.iter().enumerate() {
                if is_in(depth, folders, id, thing) {
                    places.push(Place {
                        volume: number,
                        thing: index,
                    })?;
                }
            }
        }
        Files::Mfs(volume) => {
            for index in 0..volume.files.len() {
                places.push(Place {
                    volume: number,
                    thing: index,
                })?;
            }
        }
    }
    Ok(())
}

/// The folders of a volume, where it is read.
fn folders_in(alloc: Global, contents: &Contents, number: usize) -> Result<Folders, AllocError> {
    match contents.volume_at(number) {
        Some(volume) => folders_of(alloc, &volume.files),
        None => Ok(Folders::new(alloc)),
    }
}

impl Contents {
    /// The path of a folder or a file in its volume, of which these are the folders.
    fn path_of(
        &self,
        alloc: Global,
        folders: &Folders,
        place: Place,
    ) -> Result<Vec<Name>, AllocError> {
        if let Some(
            VolumeFiles {
                view: _,
                files: Files::Hfs(_, things),
            },
        ) = self.volume_at(place.volume)
        {
            if let Some(thing) = things.get(place.thing) {
                if let Some(path) = path_of_thing(alloc, folders, thing)? {
                    return Ok(path);
                }
            }
        }
        Ok(Vec::new(alloc))
    }

    /// What it says of a folder or a file.
    pub fn info(&self, place: Place) -> Option<Info> {
        self.volume_at(place.volume)?.info(place.thing)
    }

    /// Adds the folders and files of a volume that are in the folder with an id.
    fn push_in(
        &self,
        alloc: Global,
        places: &mut Vec<Place>,
        number: usize,
        id: u32,
        depth: Depth,
    ) -> Result<(), AllocError> {
        match self.volume_at(number) {
            Some(volume) => {
                let folders = folders_of(alloc, &volume.files)?;
                push_places(places, number, &volume.files, &folders, id, depth)
            }
            None => Ok(()),
        }
    }

    /// Whether the name of a volume names it alone: it isn't the number of a partition, and no other has it.
    fn is_named(&self, number: usize, name: &[u8]) -> bool {
        let count = self
            .volumes
            .iter()
            .filter(|placed| has_name(placed, name))
            .count();
        count == 1 && !matches!(name, [] | [b'#', ..])
    }
}

/// Whether a volume has a name.
fn has_name(placed: &PlacedVolume, name: &[u8]) -> bool {
    match &placed.found {
        Ok(volume) => volume.name().as_bytes() == name,
        Err(_) => false,
    }
}

/// The folders and files that are in what was found, in the order of the volume; of a file, itself. What isn't read has
/// none.
pub fn places_in(
    alloc: Global,
    contents: &Contents,
    found: Found,
    depth: Depth,
) -> Result<Vec<Place>, AllocError> {
    let mut places = Vec::new(alloc);
    match found {
        Found::Image => {
            for number in 0..contents.volumes.len() {
                contents.push_in(alloc, &mut places, number, ROOT, depth)?;
            }
        }
        Found::Volume(number) => contents.push_in(alloc, &mut places, number, ROOT, depth)?,
        Found::Folder(place) => {
            if let Some(Info::Folder(folder)) = contents.info(place) {
                contents.push_in(alloc, &mut places, place.volume, folder.id, depth)?;
            }
        }
        Found::File(place) => places.push(place)?,
    }
    Ok(places)
}

/// Adds a name and a slash to a path.
fn push_folder(text: &mut String, letters: Letters, name: &[u8]) -> Result<(), AllocError> {
    let shown = NameText::new(letters, name);
    write!(text, "{shown}/")?;
    Ok(())
}

/// Adds the name of a volume, where there are several.
fn push_volume(
    text: &mut String,
    letters: Letters,
    contents: &Contents,
    number: usize,
) -> Result<(), AllocError> {
    let Some(placed) = contents.volumes.get(number) else {
        return Ok(());
    };
    if contents.volumes.len() == 1 {
        return Ok(());
    }
    if let Ok(volume) = &placed.found {
        let name = volume.name();
        if contents.is_named(number, name.as_bytes()) {
            return push_folder(text, letters, name.as_bytes());
        }
    }
    let part = placed.part;
    write!(text, "#{part}/")?;
    Ok(())
}

/// Adds the path of a folder or a file.
fn push_place(
    alloc: Global,
    text: &mut String,
    letters: Letters,
    contents: &Contents,
    folders: &Folders,
    place: Place,
) -> Result<(), AllocError> {
    push_volume(text, letters, contents, place.volume)?;
    let Some(volume) = contents.volume_at(place.volume) else {
        return Ok(());
    };
    let path = contents.path_of(alloc, folders, place)?;
    for name in &path[..path.len().saturating_sub(1)] {
        push_folder(text, letters, name.as_bytes())?;
    }
    if let Some(name) = volume.name_of(place.thing) {
        let shown = NameText::new(letters, name);
        write!(text, "{shown}")?;
    }
    if let Some(Info::Folder(_)) = volume.info(place.thing) {
        text.push('/')?;
    }
    Ok(())
}

/// The path of a volume, a folder or a file, as it can be typed after the colon of the image; that of a folder ends with
/// `/`. The names of volumes are in it only where there are several; where one isn't enough, `#` and the number of the
/// partition is.
pub fn path_text(
    alloc: Global,
    letters: Letters,
    contents: &Contents,
    found: Found,
) -> Result<String, AllocError> {
    let mut text = String::new(alloc);
    match found {
        Found::Image => {}
        Found::Volume(number) => push_volume(&mut text, letters, contents, number)?,
        Found::Folder(place) | Found::File(place) => {
            let folders = folders_in(alloc, contents, place.volume)?;
            push_place(alloc, &mut text, letters, contents, &folders, place)?;
        }
    }
    Ok(text)
}

/// A date as a day of the calendar, or as many blanks and a sign.
#[derive(Clone, Copy)]
struct Day(u32);

impl fmt::Display for Day {
    fn fmt<W: fmt::Write>(&self, f: &mut fmt::Formatter<W>) -> fmt::Result {
        if self.0 == 0 {
            return write!(f, "{:>10}", "-");
        }
        let moment = moment_of(self.0 as u64);
        let (year, month, day) = (moment.year, moment.month, moment.day);
        write!(f, "{year:04}-{month:02}-{day:02}")
    }
}

/// What a volume says of a folder or a file, up to its name.
#[derive(Clone, Copy)]
struct InfoColumns {
    letters: Letters,
    info: Info,
}

impl fmt::Display for InfoColumns {
    fn fmt<W: fmt::Write>(&self, f: &mut fmt::Formatter<W>) -> fmt::Result {
        match self.info {
            Info::File(
                FileInfo {
                    finder,
                    data_size,
                    resource_size,
                    changed,
                    ..
                },
            ) => {
                let kind = KindText::new(self.letters, ResType::new(finder.kind));
                let creator = KindText::new(self.letters, ResType::new(finder.creator));
                let day = Day(changed);
                write!(
                    f,
                    "{kind} {creator} {data_size:>9} {resource_size:>9} {day}"
                )
            }
            Info::Folder(
                FolderInfo {
                    things,
                    changed,
                    ..
                },
            ) => {
                let day = Day(changed);
                write!(f, "-    -    {things:>9} {:>9} {day}", "-")
            }
        }
    }
}

/// The line of a folder or a file, with its end: type, creator, bytes of the data and of the resource fork, the day when it
/// was changed, and its path; of a folder how many things are in it.
fn push_line(
    alloc: Global,
    text: &mut String,
    letters: Letters,
    contents: &Contents,
    folders: &Folders,
    place: Place,
) -> Result<(), AllocError> {
    if let Some(info) = contents.info(place) {
        let columns = InfoColumns { letters, info };
        write!(text, "{columns} ")?;
        push_place(alloc, text, letters, contents, folders, place)?;
        text.push('\n')?;
    }
    Ok(())
}

/// How many bytes a piece of a list has, or somewhat more.
const PIECE: usize = 65536;

/// A list of folders and files of an image, which is written in pieces: so it may be longer than the memory.
#[derive(Drop)]
pub struct Listing {
    letters: Letters,
    places: Vec<Place>,
    /// The folders of each volume.
    folders: Vec<Folders>,
    /// How many of the places are written.
    done: usize,
}

impl Listing {
    /// The list of what is in what was found, so far down, with letters shown so.
    pub fn new(
        alloc: Global,
        letters: Letters,
        contents: &Contents,
        found: Found,
        depth: Depth,
    ) -> Result<Listing, AllocError> {
        let places = places_in(alloc, contents, found, depth)?;
        let mut folders = Vec::new(alloc);
        for number in 0..contents.volumes.len() {
            folders.push(folders_in(alloc, contents, number)?)?;
        }
        Ok(Listing {
            letters,
            places,
            folders,
            done: 0,
        })
    }

    /// How many lines it has.
    pub fn len(&self) -> usize {
        self.places.len()
    }

    /// The next lines; none after the last one.
    pub fn next_lines(&mut self, alloc: Global, contents: &Contents) -> Result<String, AllocError> {
        let mut text = String::new(alloc);
        let done = self.done.min(self.places.len());
        for place in &self.places[done..] {
            if text.len() > PIECE {
                return Ok(text);
            }
            if let Some(folders) = self.folders.get(place.volume) {
                push_line(alloc, &mut text, self.letters, contents, folders, *place)?;
            }
            self.done = self.done.saturating_add(1);
        }
        Ok(text)
    }
}

/// How many files and folders a volume's list has.
fn counts(volume: &VolumeFiles) -> (usize, usize) {
    match &volume.files {
        Files::Hfs(_, things) => {
            let folders = things.iter().filter(|thing| thing.is_folder()).count();
            (things.len() - folders, folders)
        }
        Files::Mfs(volume) => (volume.files.len(), 0),
    }
}

/// Adds what a volume says of itself.
fn push_facts(text: &mut String, letters: Letters, volume: &VolumeFiles) -> Result<(), AllocError> {
    let (bytes, layout) = match &volume.files {
        Files::Hfs(volume, _) => (&volume.mdb.bytes, volume.mdb.layout()),
        Files::Mfs(volume) => (&volume.info.bytes, volume.info.layout()),
    };
    let name = volume.name();
    let shown = NameText::new(letters, name.as_bytes());
    let (created, changed) = (Day(read_four(bytes, 2)), Day(read_four(bytes, 6)));
    let free = read_two(bytes, 34);
    let (files, folders) = counts(volume);
    writeln!(text, "  name: {shown}")?;
    writeln!(text, "  created: {created}")?;
    match &volume.files {
        Files::Hfs(_, _) => writeln!(text, "  changed: {changed}")?,
        Files::Mfs(_) => writeln!(text, "  backed up: {changed}")?,
    }
    let (count, size) = (layout.count, layout.size);
    writeln!(text, "  blocks: {count} of {size} bytes, {free} free")?;
    writeln!(text, "  files: {files}, folders: {folders}")?;
    Ok(())
}

/// Adds what a volume is.
fn push_placed(
    text: &mut String,
    letters: Letters,
    placed: &PlacedVolume,
) -> Result<(), AllocError> {
    let (part, start) = (placed.part, placed.start);
    let place = if part == 0 {
        "volume"
    } else {
        "volume of partition "
    };
    write!(text, "{place}")?;
    if part > 0 {
        write!(text, "{part}, from byte {start}")?;
    }
    match &placed.found {
        Ok(volume) => {
            let format = FormatText(match &volume.files {
                Files::Hfs(_, _) => disk_image::known::Format::Hfs,
                Files::Mfs(_) => disk_image::known::Format::Mfs,
            });
            let size = volume.view.size;
            writeln!(text, ": {format}, {size} bytes")?;
            push_facts(text, letters, volume)
        }
        Err(refusal) => {
            let refusal = VolumeText(*refusal);
            writeln!(text, ": {refusal}")?;
            Ok(())
        }
    }
}

/// What an image is, as lines: its layers, partitions and volumes, with their names, dates, blocks and counts.
pub fn image_lines(
    alloc: Global,
    letters: Letters,
    contents: &Contents,
) -> Result<String, AllocError> {
    let mut text = String::new(alloc);
    let known = KnownText(contents.known);
    let size = contents.size;
    writeln!(text, "image: {known}, {size} bytes")?;
    for part in &contents.parts {
        let (number, start, count) = (part.number, part.start, part.count);
        let name = NameText::new(letters, part.name());
        let kind = NameText::new(letters, part.kind());
        writeln!(
            text,
            "partition {number}: {kind} \"{name}\", {count} bytes from byte {start}"
        )?;
    }
    for placed in &contents.volumes {
        push_placed(&mut text, letters, placed)?;
    }
    Ok(text)
}
