//! Names of files in messages, which are written without memory.

ghost use Rattle.std.specs.Prelude.{[], ◌∷◌, ◌++◌};
ghost use Rattle.std.specs.List.{flat_map};
ghost use Rattle.std.specs.Str.{chars};
ghost use Rattle.path_text.specs.FileNames.{escaped, shown_name};
ghost use Rattle.macheap.specs.Saying.{Says};

use path_text::{is_plain, quoted};
use script_run::{Counted, write_whole};
use std::io::Write;

/// Writes a character of a name that is between double quotes, and says whether the writer took all of it.
fn write_character<M: Write>(character: char, messages: &mut Counted<M>) -> bool
    ensures { Says M.contents messages.old messages.new result (escaped character) }
{
    let mut room = [0; 4];
    let pieces = quoted(character, &mut room);
    if !write_whole(messages, pieces.before) {
        return false;
    }
    if !write_whole(messages, pieces.code) {
        return false;
    }
    write_whole(messages, pieces.after)
}

/// Writes the characters of a name that is between double quotes, and says whether the writer took all of them.
fn write_characters<M: Write>(name: &str, messages: &mut Counted<M>) -> bool
    ensures { Says M.contents messages.old messages.new result (flat_map escaped (chars name.now)) }
{
    for character in name.chars() {
        if !write_character(character, messages) {
            return false;
        }
    }
    true
}

/// Writes a name between double quotes, and says whether the writer took all of it.
fn write_quoted<M: Write>(name: &str, messages: &mut Counted<M>) -> bool
    ensures { Says M.contents messages.old messages.new result (34 ∷ (flat_map escaped (chars name.now) ++ 34 ∷ [])) }
{
    if !write_whole(messages, b"\"") {
        return false;
    }
    if !write_characters(name, messages) {
        return false;
    }
    write_whole(messages, b"\"")
}

/// Writes a name of a file as it is shown in messages, and says whether the writer took all of it.
pub fn write_name<M: Write>(name: &str, messages: &mut Counted<M>) -> bool
    ensures { Says M.contents messages.old messages.new result (shown_name name.now) }
{
    if is_plain(name) {
        write_whole(messages, name.as_bytes())
    } else {
        write_quoted(name, messages)
    }
}
