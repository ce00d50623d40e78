//! What is near a path that names nothing.

use crate::opened::Opened;
use fork_list::letters::Letters;
use image_files::contents::{Contents, Place};
use image_files::found::{Found, find};
use image_files::lines::{Depth, path_text, places_in};
use image_files::{ImagePath, NameText};
use std::alloc::{AllocError, Global};
use volume_names::letters::{Rule, is_same_text};

/// How many names are shown.
const MOST_NAMES: usize = 3;

/// The path of the first names of another, so many.
fn front_of(alloc: Global, path: &ImagePath, count: usize) -> Result<ImagePath, AllocError> {
    let mut names = Vec::new(alloc);
    for name in &path.names[..count.min(path.names.len())] {
        names.push(Vec::from_slice(alloc, name)?)?;
    }
    Ok(ImagePath {
        names,
        is_folder: false,
    })
}

/// Whether two names begin with the same letter.
fn begins_alike(one: &[u8], other: &[u8]) -> bool {
    match (one, other) {
        ([first, ..], [second, ..]) => is_same_text(Rule::Letters, &[*first], &[*second]),
        _ => false,
    }
}

/// The name of a thing of an image.
fn name_of(contents: &Contents, place: Place) -> Option<&[u8]> {
    contents.volume_at(place.volume)?.name_of(place.thing)
}

/// Adds the names of some of these places: those that begin as a name does.
fn push_alike(
    text: &mut String,
    contents: &Contents,
    places: &[Place],
    name: &[u8],
) -> Result<(), AllocError> {
    let mut count = 0;
    for place in places {
        if let Some(other) = name_of(contents, *place) {
            if count < MOST_NAMES && begins_alike(name, other) {
                let before = if count == 0 { "; near it: " } else { ", " };
                let shown = NameText::new(Letters::Roman, other);
                write!(text, "{before}{shown}")?;
                count += 1;
            }
        }
    }
    Ok(())
}

/// Adds where a name was looked for, and names there that begin as it does.
fn push_near(
    alloc: Global,
    text: &mut String,
    contents: &Contents,
    parent: Found,
    name: &[u8],
) -> Result<(), AllocError> {
    let folder = path_text(alloc, Letters::Roman, contents, parent)?;
    if !folder.is_empty() {
        write!(text, " in {folder}")?;
    }
    match parent {
        Found::File(_) => write!(text, ", which is a file")?,
        Found::Image => write!(text, " among its volumes")?,
        Found::Volume(_) | Found::Folder(_) => {
            let places = places_in(alloc, contents, parent, Depth::Here)?;
            push_alike(text, contents, &places, name)?;
        }
    }
    Ok(())
}

/// That an image has nothing of this name of a path, counted from 1: where it was looked for, and what is near.
pub fn missing_text(alloc: Global, opened: &Opened, number: usize) -> Result<String, AllocError> {
    let before = number.saturating_sub(1);
    let parent = front_of(alloc, &opened.path, before)?;
    let name: &[u8] = match opened.path.names.get(before) {
        Some(name) => name,
        None => &[],
    };
    let shown = NameText::new(Letters::Roman, name);
    let mut text = format!(in alloc; "there is nothing named {shown}")?;
    if let Ok(found) = find(alloc, &opened.contents, &parent) {
        push_near(alloc, &mut text, &opened.contents, found, name)?;
    }
    Ok(text)
}
