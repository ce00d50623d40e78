//! The form of what `show` writes: the one that `--as` names, or that the ending of a file's name asks for.

ghost use Rattle.std.specs.Prelude.{◌≡◌, ◌||◌, false, IfErr, IfOk, option_map};
ghost use Rattle.fork_words.specs.Endings.{IsEndingFault, IsFormFault, IsViewForm, form_by_ending, form_by_small, form_named, has_ending, is_other_picture, is_other_sound, is_unmade};

use crate::asked::NotAsked;
use crate::fault::Fault;
use fork_view::ShowAs;
use std::alloc::Global;

/// The form that `--as` names.
fn form_named(word: &str) -> Option<ShowAs>
    ensures { result ≡ form_named word.now }
{
    match word.as_bytes() {
        b"text" => Some(ShowAs::Text),
        b"hex" => Some(ShowAs::Hex),
        b"png" => Some(ShowAs::Png),
        b"wav" => Some(ShowAs::Wav),
        _ => None,
    }
}

/// Whether a name ends so.
fn has_ending(name: &[u8], ending: &[u8]) -> bool
    ensures { result ≡ has_ending name.now ending.now }
{
    name.ends_with(ending)
}

/// Whether a name ends as pictures do that aren't made.
fn is_other_picture(name: &[u8]) -> bool
    ensures { result ≡ is_other_picture name.now }
{
    has_ending(name, b".gif")
        || has_ending(name, b".jpg")
        || has_ending(name, b".jpeg")
        || has_ending(name, b".bmp")
        || has_ending(name, b".tif")
        || has_ending(name, b".tiff")
        || has_ending(name, b".ico")
        || has_ending(name, b".icns")
        || has_ending(name, b".webp")
        || has_ending(name, b".svg")
        || has_ending(name, b".pict")
        || has_ending(name, b".pdf")
}

/// Whether a name ends as sounds do that aren't made.
fn is_other_sound(name: &[u8]) -> bool
    ensures { result ≡ is_other_sound name.now }
{
    has_ending(name, b".aif")
        || has_ending(name, b".aiff")
        || has_ending(name, b".aifc")
        || has_ending(name, b".mp3")
        || has_ending(name, b".au")
}

/// Whether a name in small letters ends as that of a picture or a sound which isn't made.
fn is_refused(name: &[u8]) -> bool
    ensures { result ≡ is_other_picture name.now || is_other_sound name.now }
{
    is_other_picture(name) || is_other_sound(name)
}

/// The form that the ending of a name in small letters asks for, if it asks for one.
fn form_by_small(name: &[u8]) -> Option<ShowAs>
    ensures { result ≡ form_by_small name.now }
{
    if has_ending(name, b".png") {
        Some(ShowAs::Png)
    } else if has_ending(name, b".wav") {
        Some(ShowAs::Wav)
    } else {
        None
    }
}

/// The form that the ending of a name asks for, in capital or small letters, if it asks for one. That of a picture or a
/// sound which isn't made is refused.
fn form_by_ending(alloc: Global, name: &str) -> Result<Option<ShowAs>, NotAsked>
    ensures form { IfOk result (λ form. form ≡ form_by_ending name.now) }
    ensures made { IfOk result (λ _. is_unmade name.now ≡ false) }
    ensures refused { IfErr result (IsEndingFault name.now) }
{
    let small = name.as_bytes().to_ascii_lowercase(alloc)?;
    let name = small.as_slice();
    if is_refused(name) {
        return Err(NotAsked::Fault(Fault::NoEnding));
    }
    Ok(form_by_small(name))
}

/// The form of what is shown: the one that `--as` names, or else the one that the ending of the output's name asks for.
pub(crate) fn view_form(
    alloc: Global,
    word: Option<&str>,
    output: Option<&str>,
) -> Result<Option<ShowAs>, NotAsked>
    ensures form { IfOk result (IsViewForm (option_map (λ word. word.now) word.entry) (option_map (λ name. name.now) output.entry)) }
    ensures refused { IfErr result (IsFormFault (option_map (λ word. word.now) word.entry) (option_map (λ name. name.now) output.entry)) }
{
    match (word, output) {
        (Some(word), _) => match form_named(word) {
            Some(form) => Ok(Some(form)),
            None => Err(NotAsked::Fault(Fault::NoForm)),
        },
        (None, Some(output)) => form_by_ending(alloc, output),
        (None, None) => Ok(None),
    }
}
