//! Places in a text.

ghost use Rattle.std.specs.Prelude.{◌≡◌, ◌≤◌, length};
ghost use Rattle.std.specs.List.{suffix_len};
ghost use Rattle.type_source.specs.Place.{ends_line, is_in_line, line_ends, place_at};

/// A line and a column in it, both from 1 on. A column is a byte.
#[derive(Clone, Copy, Debug, PartialEq, Eq)]
pub struct Place {
    pub line: usize,
    pub column: usize,
}

/// Whether a byte ends a line: a carriage return, or a line feed that doesn't come right after one.
fn ends_line(previous: u8, byte: u8) -> bool
    ensures { result ≡ ends_line previous byte }
{
    byte == b'\r' || byte == b'\n' && previous != b'\r'
}

/// How many lines end in a text.
fn line_ends(text: &[u8]) -> usize
    ensures ends { result ≡ line_ends text.now }
    ensures most { result ≤ length text.now }
{
    let mut ends = 0;
    let mut previous = 0;
    let mut rest = text;
    while let Some((byte, after)) = rest.split_first() {
        if ends_line(previous, *byte) {
            ends += 1;
        }
        previous = *byte;
        rest = after;
    }
    ends
}

/// Whether a byte is in a line.
fn is_in_line(byte: u8) -> bool
    ensures { result ≡ is_in_line byte }
{
    byte != b'\n' && byte != b'\r'
}

/// How many bytes the last line of a text has.
fn last_line(text: &[u8]) -> usize
    ensures length { result ≡ suffix_len is_in_line text.now }
    ensures most { result ≤ length text.now }
{
    let mut start = text.len();
    while start > 0 && is_in_line(text[start - 1]) {
        start -= 1;
    }
    text.len() - start
}

/// The place in a text where so many bytes are left.
pub(crate) fn place_at(text: &[u8], left: usize) -> Place
    ensures { result ≡ place_at text.now left }
{
    let front = &text[..text.len().saturating_sub(left)];
    Place {
        line: 1 + line_ends(front),
        column: 1 + last_line(front),
    }
}
