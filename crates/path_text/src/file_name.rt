//! Names of files in messages.

ghost use Rattle.std.specs.Prelude.{◌≡◌, Some};
ghost use Rattle.path_text.specs.FileNames.{begins_unclearly, ends_blank, is_plain, shown_name};

use crate::characters::{Characters, Way};
use crate::harm::has_harmful;
use std::fmt;

/// Whether a name that begins so is between quotes.
fn begins_unclearly(name: &[u8]) -> bool
    ensures { result ≡ begins_unclearly name.now }
{
    matches!(name, [] | [b' ' | b'"', ..])
}

/// Whether the last byte is a blank.
fn ends_blank(name: &[u8]) -> bool
    ensures { result ≡ ends_blank name.now }
{
    matches!(name, [.., b' '])
}

/// Whether a name is shown as it is.
pub fn is_plain(name: &str) -> bool
    ensures { result ≡ is_plain name.now }
{
    let bytes = name.as_bytes();
    !begins_unclearly(bytes) && !ends_blank(bytes) && !has_harmful(name)
}

/// The name of a file or a folder as a message has it: as it is, where each character can be shown and it doesn't
/// begin or end with a blank or begin with a quote; else between double quotes, with a backslash before a quote and a
/// backslash, `\x1B` for a control character of ASCII, and `\u{202E}` for another that does harm.
#[derive(Clone, Copy)]
pub struct FileName<'a>(pub &'a str);

impl fmt::Display for FileName<'_> {
    ghost output = { λ n. Some (shown_name n.0.now) };

    fn fmt<W: fmt::Write>(&self, f: &mut fmt::Formatter<W>) -> fmt::Result {
        let name = self.0;
        if is_plain(name) {
            return write!(f, "{name}");
        }
        let characters = Characters {
            way: Way::Quoted,
            text: name,
        };
        write!(f, "\"{characters}\"")
    }
}
