//! Disk images: lists of what is in them, and what they are.

ghost use Rattle.file_acts.specs.Acts.{ReadsNothing};
ghost use Rattle.image_acts.specs.Words.{ReadsWord};

use crate::several::write_lines;
use file_acts::acts::Acts;
use file_acts::host::Host;
use file_acts::message::Problem;
use fork_answer::request::{Choice, Request};
use fork_disk::World;
use fork_report::{Digests, Form, Report, Told};
use fork_words::asked::Showing;
use image_acts::{ImageList, describe_image, list_image};
use image_files::lines::Depth;

/// How far down a list of an image goes.
fn depth_of(asked: &Showing<'_>) -> Depth {
    if asked.is_recursive {
        Depth::All
    } else {
        Depth::Here
    }
}

/// Writes a list of an image, piece by piece, after its name where there are several files.
fn print_listing(
    host: &Host<'_>,
    asked: &Showing<'_>,
    file: &str,
    listing: ImageList,
    acts: &mut Acts,
) -> Result<(), Problem>
    ensures quiet { ReadsNothing acts.old.events acts.new.events }
{
    let mut listing = listing;
    let several = asked.files.len() > 1;
    for at in 0..listing.len() {
        let lines = listing.next_lines(host)?;
        if lines.is_empty() {
            return Ok(());
        }
        let is_titled = several && at == 0;
        write_lines(host, asked.titles, is_titled, file, lines.as_bytes(), acts)?;
    }
    Ok(())
}

/// Writes a list of what is in the image, or in a folder of it, that a word names. The result says whether it names one.
pub fn print_images<W: World>(
    host: &Host<'_>,
    asked: &Showing<'_>,
    file: &str,
    acts: &mut Acts,
) -> Result<bool, Problem>
    ensures quiet { ReadsWord file.now acts.old.events acts.new.events }
{
    let Request::List(Choice { letters, kinds }) = &asked.request else {
        return Ok(false);
    };
    if !kinds.is_empty() {
        return Ok(false);
    }
    match list_image::<W>(host, file, *letters, depth_of(asked), acts)? {
        Some(listing) => {
            print_listing(host, asked, file, listing, acts)?;
            Ok(true)
        }
        None => Ok(false),
    }
}

/// What `info` or `check` says of the image that a word names, if it names one.
pub fn described<W: World>(
    host: &Host<'_>,
    report: &Report,
    file: &str,
    acts: &mut Acts,
) -> Result<Option<Told>, Problem>
    ensures quiet { ReadsWord file.now acts.old.events acts.new.events }
{
    let is_check = match report {
        Report::Info {
            form: Form::Text,
            digests: Digests::Hidden,
        } => false,
        Report::Check(Form::Text) => true,
        _ => return Ok(None),
    };
    match describe_image::<W>(host, file, acts)? {
        Some(described) => Ok(Some(Told {
            text: described.text,
            archive: None,
            is_damaged: is_check && described.is_damaged,
        })),
        None => Ok(None),
    }
}
