//! An image of 14 blocks by hand, with one HFS volume: boot blocks, master directory block, bitmap, eight allocation blocks,
//! its copy, and a block that isn't used. And two of them in partitions.

ghost use Rattle.std.specs.Prelude.{⊤, [], refl};
ghost use Rattle.fork_disk.specs.Disk.{Rose};

use crate::contents::{Contents, Place};
use crate::file::Forks;
use crate::found::{Found, NotFound, find};
use crate::lines::{Depth, Listing, path_text, places_in};
use crate::message::ImageText;
use crate::refusal::FileRefusal;
use crate::still::StillDisk;
use crate::{read_contents, read_file, read_fork};
use disk_image::fault::{ImageFault, OpenFault};
use disk_image::known::Known;
use fork_disk::disk::{DiskFault, ForkDisk};
use fork_list::letters::Letters;
use hfs_volume::entry::Which;
use hfs_volume::fault::ForkFault;
use image_paths::ImagePath;
use std::alloc::{AllocError, Global};
use std::test::Fail;

const MDB: usize = 1024;

const CATALOG: usize = 2048;

const LEAF: usize = 2560;

const FILE: usize = LEAF + 108;

/// How many bytes the image has.
const SIZE: usize = 7168;

/// A disk in memory of which nothing is promised.
#[derive(Drop)]
struct TestDisk {
    bytes: Vec<u8>,
    failures: u64,
}

impl TestDisk {
    /// Counts a call that fails.
    fn fail(&mut self) -> DiskFault
        ensures { Rose self.old.failures self.new.failures }
    {
        self.failures = self.failures.saturating_add(1);
        DiskFault
    }
}

impl ForkDisk for TestDisk {
    ghost seen = { λ _. [] };

    ghost is_honest = { λ _. ⊥ };

    ghost is_stable = { λ _. ⊤ };

    ghost failures = { λ disk. disk.failures };

    fn len(&mut self) -> Result<u64, DiskFault> {
        Ok(self.bytes.len() as u64)
    }

    fn read_at(&mut self, at: u64, buffer: &mut [u8]) -> Result<(), DiskFault> {
        let start = at as usize;
        if start > self.bytes.len() || buffer.len() > self.bytes.len() - start {
            return Err(self.fail());
        }
        buffer.copy_from_slice(&self.bytes[start..start + buffer.len()]);
        Ok(())
    }

    fn write_at(&mut self, _at: u64, _bytes: &[u8]) -> Result<(), DiskFault> {
        Err(self.fail())
    }

    fn cut(&mut self, _len: u64) -> Result<(), DiskFault> {
        Err(self.fail())
    }

    fn sync(&mut self) -> Result<(), DiskFault> {
        Ok(())
    }
}

impl StillDisk for TestDisk {
    ghost still = { λ _ _. refl };
}

/// Puts bytes at a place.
fn put(bytes: &mut [u8], at: usize, new: &[u8]) {
    for (i, byte) in new.iter().enumerate() {
        if i < bytes.len() && at < bytes.len() - i {
            bytes[at + i] = *byte;
        }
    }
}

/// The volume "Disk", of eight allocation blocks of 512 bytes from block 4 on. Its catalog has blocks 0 and 1. Its one file
/// is "9/41", id 16, of type TEXT by ttxt: its data fork has five bytes in block 3, its resource fork three in block 4.
fn put_volume(bytes: &mut [u8]) {
    put(bytes, MDB, b"BD");
    put(bytes, MDB + 18, b"\x00\x08\x00\x00\x02\x00");
    put(bytes, MDB + 28, b"\x00\x04");
    put(bytes, MDB + 36, b"\x04Disk");
    put(bytes, MDB + 146, b"\x00\x00\x04\x00\x00\x00\x00\x02");
    put(bytes, CATALOG + 8, b"\x01");
    put(bytes, CATALOG + 24, b"\x00\x00\x00\x01");
    put(bytes, CATALOG + 32, b"\x02\x00");
    put(bytes, LEAF + 8, b"\xFF\x01\x00\x02");
    put(
        bytes,
        LEAF + 14,
        b"\x0A\x00\x00\x00\x00\x01\x04Disk\x00\x01",
    );
    put(bytes, LEAF + 26 + 6, b"\x00\x00\x00\x02");
    put(bytes, LEAF + 96, b"\x0A\x00\x00\x00\x00\x02\x049/41");
    put(bytes, FILE, b"\x02\x00\x01\x00TEXTttxt\x01\x00");
    put(bytes, FILE + 20, b"\x00\x00\x00\x10");
    put(bytes, FILE + 26, b"\x00\x00\x00\x05");
    put(bytes, FILE + 36, b"\x00\x00\x00\x03");
    put(bytes, FILE + 44, b"\xB4\x92\xF4\x00\xB4\x94\x45\x80");
    put(bytes, FILE + 74, b"\x00\x03\x00\x01");
    put(bytes, FILE + 86, b"\x00\x04\x00\x01");
    put(bytes, LEAF + 506, b"\x00\xD2\x00\x60\x00\x0E");
    put(bytes, 3584, b"hello");
    put(bytes, 4096, b"abc");
}

/// The image, where some bytes are others.
fn image_with(alloc: Global, at: usize, new: &[u8]) -> Result<Vec<u8>, AllocError> {
    let mut bytes = vec![in alloc; 0; SIZE]?;
    put_volume(&mut bytes);
    put(&mut bytes, at, new);
    Ok(bytes)
}

/// An image of two such volumes, in partitions 1 and 2.
fn two_volumes(alloc: Global) -> Result<Vec<u8>, AllocError> {
    let mut bytes = vec![in alloc; 0; 1536 + 2 * SIZE]?;
    put(&mut bytes, 0, b"ER\x02\x00");
    put(
        &mut bytes,
        512,
        b"PM\x00\x00\x00\x00\x00\x02\x00\x00\x00\x03\x00\x00\x00\x0Eone",
    );
    put(&mut bytes, 560, b"Apple_HFS");
    put(
        &mut bytes,
        1024,
        b"PM\x00\x00\x00\x00\x00\x02\x00\x00\x00\x11\x00\x00\x00\x0Etwo",
    );
    put(&mut bytes, 1072, b"Apple_HFS");
    put_volume(&mut bytes[1536..]);
    put_volume(&mut bytes[1536 + SIZE..]);
    Ok(bytes)
}

/// What such an image has, with its disk.
fn contents_of(alloc: Global, bytes: Vec<u8>) -> (TestDisk, Result<Contents, OpenFault>) {
    let disk = TestDisk { bytes, failures: 0 };
    read_contents(alloc, disk)
}

/// What a text names, as text.
fn found_text(alloc: Global, contents: &Contents, typed: &str) -> Result<String, Fail> {
    let path = ImagePath::parse(alloc, typed)?;
    match find(alloc, contents, &path) {
        Ok(found) => {
            let text = path_text(alloc, Letters::Roman, contents, found)?;
            let kind = match found {
                Found::Image => "image",
                Found::Volume(_) => "volume",
                Found::Folder(_) => "folder",
                Found::File(_) => "file",
            };
            Ok(format!(in alloc; "{kind} {text}")?)
        }
        Err(NotFound::Missing(name)) => Ok(format!(in alloc; "missing {name}")?),
        Err(NotFound::NotFolder) => Ok(String::from_str(alloc, "no folder")?),
        Err(fault) => Ok(format!(in alloc; "{fault}")?),
    }
}

/// The first file.
const FIRST: Place = Place {
    volume: 0,
    thing: 0,
};

#[test]
fn lists_a_volume(rt: HostRuntime) -> Result<(), Fail> {
    let (_, contents) = contents_of(rt.alloc(), image_with(rt.alloc(), 0, b"")?);
    let contents = contents?;
    let places = places_in(rt.alloc(), &contents, Found::Volume(0), Depth::Here)?;
    assert_eq!(rt; places.as_slice(), [FIRST].as_slice());
    let mut listing = Listing::new(
        rt.alloc(),
        Letters::Roman,
        &contents,
        Found::Volume(0),
        Depth::Here,
    )?;
    let line = listing.next_lines(rt.alloc(), &contents)?;
    assert_eq!(rt;
        line.as_str(),
        "TEXT ttxt         5         3 2000-01-02 9:41\n"
    );
    for (typed, found) in [
        ("", "volume "),
        ("9:41", "file 9:41"),
        ("9:41/", "no folder"),
        ("9:41/x", "missing 2"),
        ("941", "missing 1"),
    ] {
        assert_eq!(rt; found_text(rt.alloc(), &contents, typed)?.as_str(), found);
    }
    Ok(())
}

#[test]
fn tells_volumes_apart(rt: HostRuntime) -> Result<(), Fail> {
    let (_, contents) = contents_of(rt.alloc(), two_volumes(rt.alloc())?);
    let contents = contents?;
    let places = places_in(rt.alloc(), &contents, Found::Image, Depth::All)?;
    assert_eq!(rt; places.len(), 2);
    for (typed, found) in [
        ("", "image "),
        ("#2", "volume #2/"),
        ("#2/9:41", "file #2/9:41"),
        ("disk/9:41", "file #1/9:41"),
        ("#3", "missing 1"),
        ("#1/x", "missing 2"),
    ] {
        assert_eq!(rt; found_text(rt.alloc(), &contents, typed)?.as_str(), found);
    }
    Ok(())
}

#[test]
fn reads_a_file(rt: HostRuntime) -> Result<(), Fail> {
    let (mut disk, contents) = contents_of(rt.alloc(), image_with(rt.alloc(), 0, b"")?);
    let contents = contents?;
    let bytes = read_file(rt.alloc(), &mut disk, &contents, FIRST, Forks::Both, 8)?;
    assert_eq!(rt; bytes.len(), 384);
    assert_eq!(rt; &bytes[..6], b"\x00\x049/41".as_slice());
    assert_eq!(rt; &bytes[65..74], b"TEXTttxt\x01".as_slice());
    assert_eq!(rt;
        &bytes[83..99],
        b"\x00\x00\x00\x05\x00\x00\x00\x03\xB4\x92\xF4\x00\xB4\x94\x45\x80".as_slice()
    );
    assert_eq!(rt; &bytes[128..134], b"hello\x00".as_slice());
    assert_eq!(rt; &bytes[256..260], b"abc\x00".as_slice());
    let fork = read_fork(rt.alloc(), &mut disk, &contents, FIRST, Which::Resource, 3)?;
    assert_eq!(rt; fork.as_slice(), b"abc".as_slice());
    Ok(())
}

/// Why a file isn't read, whose image has other bytes at a place.
fn refusal(
    alloc: Global,
    at: usize,
    new: &[u8],
    forks: Forks,
    limit: u64,
) -> Result<Option<FileRefusal>, Fail> {
    let (mut disk, contents) = contents_of(alloc, image_with(alloc, at, new)?);
    match read_file(alloc, &mut disk, &contents?, FIRST, forks, limit) {
        Ok(_) => Ok(None),
        Err(refusal) => Ok(Some(refusal)),
    }
}

#[test]
fn refuses_files(rt: HostRuntime) -> Result<(), Fail> {
    let alloc = rt.alloc();
    let long = FileRefusal::TooLong(8, 7);
    assert_eq!(rt; refusal(alloc, 0, b"", Forks::Both, 7)?, Some(long));
    let data = FileRefusal::Fork(Which::Data, ForkFault::Blocks(FILE as u64));
    assert_eq!(rt;
        refusal(alloc, FILE + 74, b"\x00\x09", Forks::Both, 8)?,
        Some(data)
    );
    assert_eq!(rt;
        refusal(alloc, FILE + 74, b"\x00\x09", Forks::Resource, 8)?,
        None
    );
    Ok(())
}

#[test]
fn refuses_images(rt: HostRuntime) -> Result<(), Fail> {
    let mut bytes = vec![in rt.alloc(); 0; 1024]?;
    put(&mut bytes, 512, b"koly");
    let (_, contents) = contents_of(rt.alloc(), bytes);
    let why = match contents {
        Ok(_) => None,
        Err(fault) => Some(fault),
    };
    let udif = OpenFault::Image(ImageFault::Refused(Known::Udif));
    assert_eq!(rt; why, Some(udif));
    let udif = ImageText(udif);
    let text = format!(in rt.alloc(); "{udif}")?;
    assert_eq!(rt;
        text.as_str(),
        "it is a disk image of Mac OS X (UDIF); 7z x or dmg2img unpacks it"
    );
    Ok(())
}
