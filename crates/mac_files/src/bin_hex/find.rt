//! Where a BinHex text begins.

ghost use Rattle.std.specs.Prelude.{◌≡◌, ◌<◌, ◌≤◌, ◌+◌, length, drop, true, IfSome};
ghost use Rattle.mac_files.specs.BinHex.{begins_after, comment_of, is_bin_hex, is_blank, is_line_end, is_skipped, line_from, colon_of};

use crate::container::has_fork_parts;

/// With this the line begins that each tool writes before the text.
const COMMENT: &[u8] = b"(This file must be converted";

/// Whether a character ends a line.
pub fn ends_line(character: u8) -> bool
    ensures { result ≡ is_line_end character }
{
    character == b'\r' || character == b'\n'
}

/// Whether a character is a tab or a blank, which mail leaves at the ends of lines and before the text.
fn is_blank(character: u8) -> bool
    ensures { result ≡ is_blank character }
{
    character == b'\t' || character == b' '
}

/// Whether a character is skipped between the digits.
pub fn is_skipped(character: u8) -> bool
    ensures { result ≡ is_skipped character }
{
    ends_line(character) || is_blank(character)
}

/// Whether only tabs and blanks are on the line after a character, by whether only these were before it.
fn begins_after(begins: bool, character: u8) -> bool
    ensures { result ≡ begins_after begins character }
{
    ends_line(character) || (begins && is_blank(character))
}

/// The first place, from the beginning of a line on, at which a line begins with a mark, after tabs and blanks.
fn find_line(text: &[u8], from: usize, mark: &[u8]) -> Option<usize>
    requires { from ≤ length text.now }
    ensures place { result ≡ line_from mark.now true from (drop from text.now) }
    ensures inside { IfSome result (λ at. at < length text.now) }
{
    let mut begins = true;
    for at in from..text.len() {
        if begins && text[at..].starts_with(mark) {
            return Some(at);
        }
        begins = begins_after(begins, text[at]);
    }
    None
}

/// Where the line begins that each tool writes before the text.
pub fn find_comment(text: &[u8]) -> Option<usize>
    ensures place { result ≡ comment_of text.now }
    ensures inside { IfSome result (λ at. at < length text.now) }
{
    find_line(text, 0, COMMENT)
}

/// Whether a text is BinHex: a line begins with the comment that each tool writes before it. A file with a fork's
/// header isn't a text.
pub fn is_bin_hex(text: &[u8]) -> bool
    ensures { result ≡ is_bin_hex text.now }
{
    !has_fork_parts(text.len(), text) && find_comment(text).is_some()
}

/// Where the colon is that begins the text: the first that begins a line, after the comment if there is one.
pub fn find_colon(text: &[u8]) -> Option<usize>
    ensures place { result ≡ colon_of text.now }
    ensures inside { IfSome result (λ at. at < length text.now) }
{
    let comment = find_comment(text).unwrap_or(0);
    find_line(text, comment, b":")
}
