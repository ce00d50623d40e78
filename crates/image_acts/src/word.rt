//! Words that name a place in an image.

ghost use Rattle.std.specs.Prelude.{◌≡◌, ◌≢◌, ◌<◌, ◌∷◌, length, option_map, slice_index, IfSome, MatchOption};
ghost use Rattle.host_paths.specs.declared.host.Answer.{Answer};
ghost use Rattle.file_acts.specs.Acts.{ReadsOnly};
ghost use Rattle.file_acts.specs.Saved.{ShowsSaved};
ghost use Rattle.file_acts.specs.declared.acts.Act.TheVariants as act;
ghost use Rattle.image_acts.specs.Here.{here};
ghost use Rattle.image_acts.specs.Places.{FirstPlace, IsCutAt, NamesImage, NamesPlace, is_file};
ghost use Rattle.image_acts.specs.Words.{IsNamedBy, ReadsWord};

use file_acts::acts::{Acts, look_at};
use file_acts::host::Host;
use fork_words::INPUT;

/// A place in an image: the image's file, and the path after the colon.
#[derive(Clone, Copy)]
pub struct ImagePlace<'a> {
    pub image: &'a str,
    pub path: &'a str,
}

impl<'a> ImagePlace<'a> {
    /// What is before a colon at a place in a word, and what is after it, if a colon is there.
    fn cut(word: &'a str, at: usize) -> Option<ImagePlace<'a>>
        requires { at < length word.now }
        ensures { MatchOption result (slice_index word.now at ≢ 58) (λ place. IsCutAt word.now at (here place)) }
    {
        if word.as_bytes()[at] != b':' {
            return None;
        }
        Some(ImagePlace {
            image: &word[..at],
            path: &word[at + 1..],
        })
    }
}

/// Whether a path leads to a regular file.
fn is_file(host: &Host<'_>, path: &str, acts: &mut Acts) -> bool
    ensures asks { (answer : Answer) × (acts.new.events ≡ act.Asked path.now answer ∷ acts.old.events) × (result ≡ is_file answer) }
    ensures quiet { ReadsOnly path.now acts.old.events acts.new.events }
    ensures seen { ShowsSaved acts.old.events acts.new.events }
{
    match look_at(host, path, acts) {
        Ok(Some(found)) => found.is_regular(),
        _ => false,
    }
}

/// The place that a word names which names no file itself: before the first of its colons before which a file is named.
fn first_place<'a>(host: &Host<'_>, word: &'a str, acts: &mut Acts) -> Option<ImagePlace<'a>>
    ensures first { FirstPlace word.entry.now (option_map here result) acts.old.events acts.new.events }
    ensures place { IfSome result (λ place. IsNamedBy word.entry.now place.image.now) }
    ensures quiet { ReadsWord word.entry.now acts.old.events acts.new.events }
    ensures seen { ShowsSaved acts.old.events acts.new.events }
{
    for at in 0..word.len() {
        if let Some(place) = ImagePlace::cut(word, at) {
            if is_file(host, place.image, acts) {
                return Some(place);
            }
        }
    }
    None
}

/// The place in an image that a word names, if it does. A word that names a file names no place in one.
pub fn place_named<'a>(host: &Host<'_>, word: &'a str, acts: &mut Acts) -> Option<ImagePlace<'a>>
    ensures names { NamesPlace word.entry.now (option_map here result) acts.old.events acts.new.events }
    ensures place { IfSome result (λ place. IsNamedBy word.entry.now place.image.now) }
    ensures quiet { ReadsWord word.entry.now acts.old.events acts.new.events }
    ensures seen { ShowsSaved acts.old.events acts.new.events }
{
    if word == INPUT || !word.as_bytes().contains(&b':') {
        return None;
    }
    match look_at(host, word, acts) {
        Ok(Some(_)) => None,
        _ => first_place(host, word, acts),
    }
}

/// The top of the image that a word names, or the place in one.
pub fn image_named<'a>(host: &Host<'_>, word: &'a str, acts: &mut Acts) -> Option<ImagePlace<'a>>
    ensures names { NamesImage word.entry.now (option_map here result) acts.old.events acts.new.events }
    ensures place { IfSome result (λ place. IsNamedBy word.entry.now place.image.now) }
    ensures quiet { ReadsWord word.entry.now acts.old.events acts.new.events }
    ensures seen { ShowsSaved acts.old.events acts.new.events }
{
    if word != INPUT && is_file(host, word, acts) {
        return Some(ImagePlace {
            image: word,
            path: "",
        });
    }
    place_named(host, word, acts)
}
