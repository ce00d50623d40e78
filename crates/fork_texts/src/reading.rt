//! Lines are read as texts and their places.

ghost use Rattle.std.specs.Prelude.{◌≡◌, ◌≤◌, ◌<◌, [], IfOk, length, option_map};
ghost use Rattle.fork_texts.specs.Reading.{Gives, after_blanks, after_lines, byte_at, digits_at, escape_at, head_at, id_at, is_blank, is_digit, is_stop, kind_at, kind_of, line_at, line_end_at, lines_at, number_at, number_from, numbered_at, place_at, quoted_at, run_at, stops, word_at};

use crate::entry::Entry;
use crate::fault::{ReadError, Why, refused};
use crate::line::Line;
use crate::place::Place;
use fork_change::row::ResourceId;
use mac_base::resource::ResType;
use res_types::value::Text;
use std::alloc::Global;

/// How many bytes a type has.
const KIND_LENGTH: usize = 4;

/// The greatest number of a place.
const MOST: u32 = 99999999;

/// What a run of characters ends with.
#[derive(Clone, Copy)]
enum Stop {
    Blank,
    Quote,
}

/// Whether a byte is a blank, a tab, or a carriage return before the end of a line.
fn is_blank(byte: u8) -> bool
    ensures { result ≡ is_blank byte }
{
    byte == b' ' || byte == b'\t' || byte == b'\r'
}

impl Stop {
    /// Whether this byte is it.
    fn is(self, byte: u8) -> bool
        ensures { result ≡ is_stop self byte }
    {
        match self {
            Stop::Blank => is_blank(byte),
            Stop::Quote => byte == b'"',
        }
    }

    /// Whether a text begins with it.
    fn begins(self, text: &[u8]) -> bool
        ensures { result ≡ stops self text.now }
    {
        match text.split_first() {
            Some((byte, _)) => self.is(*byte),
            None => false,
        }
    }
}

/// The text after blanks.
fn after_blanks(text: &[u8]) -> &[u8]
    ensures { result.now ≡ after_blanks text.now }
{
    let mut rest = text;
    while let Some((byte, after)) = rest.split_first() {
        if !is_blank(*byte) {
            return rest;
        }
        rest = after;
    }
    rest
}

/// The text after blanks and the ends of lines.
fn after_lines(text: &[u8]) -> &[u8]
    ensures { result.now ≡ after_lines text.now }
{
    let mut rest = text;
    while let Some((byte, after)) = rest.split_first() {
        if !is_blank(*byte) && *byte != b'\n' {
            return rest;
        }
        rest = after;
    }
    rest
}

/// The byte after `\x`, in two hexadecimal digits of either case.
#[tactic(auto, unfolding(crate::specs::Reading::digits_at))]
fn digits_at(text: &[u8]) -> Result<(u8, &[u8]), ReadError>
    ensures { Gives (λ x. (x.0, x.1.now)) result (digits_at text.now) }
{
    if let [high, low, rest @ ..] = text {
        let high = char::from(*high).to_digit(16);
        let low = char::from(*low).to_digit(16);
        if let (Some(high), Some(low)) = (high, low) {
            return Ok(((16 * high + low) as u8, rest));
        }
    }
    Err(refused(text, Why::Character))
}

/// The byte after a backslash.
#[tactic(auto, unfolding(crate::specs::Reading::escape_at))]
fn escape_at(text: &[u8]) -> Result<(u8, &[u8]), ReadError>
    ensures { Gives (λ x. (x.0, x.1.now)) result (escape_at text.now) }
{
    match text {
        [b'n', rest @ ..] => Ok((b'\r', rest)),
        [b't', rest @ ..] => Ok((b'\t', rest)),
        [b'"', rest @ ..] => Ok((b'"', rest)),
        [b'\\', rest @ ..] => Ok((b'\\', rest)),
        [b'x', rest @ ..] => digits_at(rest),
        _ => Err(refused(text, Why::Character)),
    }
}

/// A byte of a text or a type.
#[tactic(auto, unfolding(crate::specs::Reading::byte_at))]
fn byte_at(text: &[u8]) -> Result<(u8, &[u8]), ReadError>
    ensures { Gives (λ x. (x.0, x.1.now)) result (byte_at text.now) }
{
    match text {
        [b'\\', rest @ ..] => escape_at(rest),
        [byte, rest @ ..] if *byte >= b' ' && *byte != 127 => Ok((*byte, rest)),
        _ => Err(refused(text, Why::Character)),
    }
}

/// The bytes before a stop, which is there, and the text from it on.
#[tactic(auto, unfolding(crate::specs::Reading::run_at))]
fn bytes_at(alloc: Global, stop: Stop, text: &[u8]) -> Result<(Vec<u8>, &[u8]), ReadError>
    ensures { Gives (λ x. (x.0.items, x.1.now)) result (run_at stop (length text.now) [] text.now) }
{
    let mut bytes = Vec::new(alloc);
    let mut rest = text;
    for _turn in 0..text.len() {
        if stop.begins(rest) {
            return Ok((bytes, rest));
        }
        let (byte, after) = byte_at(rest)?;
        bytes.push(byte)?;
        rest = after;
    }
    Err(refused(rest, Why::Character))
}

/// The type of these bytes: blanks at its end make them four.
fn kind_of(bytes: &[u8]) -> Option<[u8; 4]>
    ensures { result ≡ kind_of bytes.now }
{
    match bytes {
        [a] => Some([*a, b' ', b' ', b' ']),
        [a, b] => Some([*a, *b, b' ', b' ']),
        [a, b, c] => Some([*a, *b, *c, b' ']),
        [a, b, c, d] => Some([*a, *b, *c, *d]),
        _ => None,
    }
}

/// A type.
#[tactic(auto, unfolding(crate::specs::Reading::kind_at))]
fn kind_at(alloc: Global, text: &[u8]) -> Result<([u8; 4], &[u8]), ReadError>
    ensures { Gives (λ x. (x.0, x.1.now)) result (kind_at text.now) }
{
    let (bytes, rest) = bytes_at(alloc, Stop::Blank, text)?;
    match kind_of(&bytes) {
        Some(kind) => Ok((kind, rest)),
        None => Err(refused(text, Why::Kind)),
    }
}

/// Whether a byte is a decimal digit.
fn is_digit(byte: u8) -> bool
    ensures { result ≡ is_digit byte }
{
    b'0' <= byte && byte <= b'9'
}

/// The number that digits go on with, up to a limit.
fn number_from(why: Why, limit: u32, text: &[u8]) -> Result<(u32, &[u8]), ReadError>
    requires { limit ≤ 99999999 }
    ensures number { Gives (λ x. (x.0, x.1.now)) result (number_from why limit 0 text.now) }
    ensures within { IfOk result (λ x. x.0 ≤ limit) }
{
    let mut number = 0;
    let mut rest = text;
    while let Some((byte, after)) = rest.split_first() {
        if !is_digit(*byte) {
            return Ok((number, rest));
        }
        let next = 10 * number + (*byte - b'0') as u32;
        if next > limit {
            return Err(refused(rest, why));
        }
        number = next;
        rest = after;
    }
    Ok((number, rest))
}

/// A number in digits, up to a limit.
#[tactic(auto, unfolding(crate::specs::Reading::number_at))]
fn number_at(why: Why, limit: u32, text: &[u8]) -> Result<(u32, &[u8]), ReadError>
    requires { limit ≤ 99999999 }
    ensures number { Gives (λ x. (x.0, x.1.now)) result (number_at why limit text.now) }
    ensures within { IfOk result (λ x. x.0 ≤ limit) }
{
    match text.first() {
        Some(byte) if is_digit(*byte) => number_from(why, limit, text),
        _ => Err(refused(text, why)),
    }
}

/// An id.
#[tactic(auto, unfolding(crate::specs::Reading::id_at))]
fn id_at(text: &[u8]) -> Result<(i16, &[u8]), ReadError>
    ensures { Gives (λ x. (x.0, x.1.now)) result (id_at text.now) }
{
    match text.strip_prefix(b"-") {
        Some(digits) => {
            let (number, rest) = number_at(Why::Id, 32768, digits)?;
            Ok((-(number as i32) as i16, rest))
        }
        None => {
            let (number, rest) = number_at(Why::Id, 32767, text)?;
            Ok((number as i16, rest))
        }
    }
}

/// The number of a place, after its bracket.
#[tactic(auto, unfolding(crate::specs::Reading::numbered_at))]
fn numbered_at(text: &[u8]) -> Result<(Place, &[u8]), ReadError>
    ensures { Gives (λ x. (x.0, x.1.now)) result (numbered_at text.now) }
{
    let (number, rest) = number_at(Why::Place, MOST, text)?;
    match rest.strip_prefix(b"]") {
        Some(rest) => Ok((Place::Numbered(number as usize), rest)),
        None => Err(refused(rest, Why::Place)),
    }
}

/// The place of this word, and the text after it, if the text begins with it.
fn word_at<'a>(word: &[u8], place: Place, text: &'a [u8]) -> Option<(Place, &'a [u8])>
    ensures { option_map (λ x. (x.0, x.1.now)) result ≡ word_at word.now place text.entry.now }
{
    Some((place, text.strip_prefix(word)?))
}

/// A place.
#[tactic(auto, unfolding(crate::specs::Reading::place_at))]
fn place_at(text: &[u8]) -> Result<(Place, &[u8]), ReadError>
    ensures { Gives (λ x. (x.0, x.1.now)) result (place_at text.now) }
{
    if let Some(rest) = text.strip_prefix(b"[") {
        return numbered_at(rest);
    }
    let found = match text.first() {
        Some(b'"') => Some((Place::Whole, text)),
        Some(b'n') => word_at(b"name", Place::Name, text),
        Some(b't') => word_at(b"title", Place::Title, text),
        Some(b's') => word_at(b"short", Place::Short, text),
        Some(b'l') => word_at(b"long", Place::Long, text),
        _ => None,
    };
    found.ok_or(refused(text, Why::Place))
}

/// A text between quotes.
#[tactic(auto, unfolding(crate::specs::Reading::quoted_at))]
fn quoted_at(alloc: Global, text: &[u8]) -> Result<(Vec<u8>, &[u8]), ReadError>
    ensures { Gives (λ x. (x.0.items, x.1.now)) result (quoted_at text.now) }
{
    let Some(inner) = text.strip_prefix(b"\"") else {
        return Err(refused(text, Why::Quote));
    };
    let (bytes, rest) = bytes_at(alloc, Stop::Quote, inner)?;
    match rest.strip_prefix(b"\"") {
        Some(rest) => Ok((bytes, rest)),
        None => Err(refused(rest, Why::Character)),
    }
}

/// The text after the end of a line.
#[tactic(auto, unfolding(crate::specs::Reading::line_end_at))]
fn line_end_at(text: &[u8]) -> Result<&[u8], ReadError>
    ensures { Gives (λ rest. rest.now) result (line_end_at text.now) }
{
    let end = after_blanks(text);
    match end {
        [] => Ok(end),
        [b'\n', rest @ ..] => Ok(rest),
        _ => Err(refused(end, Why::LineEnd)),
    }
}

/// What a line has before its text.
#[derive(Clone, Copy)]
struct Head {
    kind: [u8; 4],
    id: i16,
    place: Place,
}

/// A type, an id and a place, and the text after them and after blanks.
#[tactic(auto, unfolding(crate::specs::Reading::head_at))]
fn head_at(alloc: Global, text: &[u8]) -> Result<(Head, &[u8]), ReadError>
    ensures { Gives (λ x. (x.0, x.1.now)) result (head_at text.now) }
{
    let (kind, rest) = kind_at(alloc, text)?;
    let (id, rest) = id_at(after_blanks(rest))?;
    let (place, rest) = place_at(after_blanks(rest))?;
    Ok((Head { kind, id, place }, after_blanks(rest)))
}

/// A line, which doesn't begin with a blank.
#[tactic(auto, unfolding(crate::specs::Reading::line_at))]
fn line_at(alloc: Global, text: &[u8]) -> Result<(Line, &[u8]), ReadError>
    ensures { Gives (λ x. (x.0, x.1.now)) result (line_at text.now) }
{
    let (head, inner) = head_at(alloc, text)?;
    let (bytes, rest) = quoted_at(alloc, inner)?;
    let rest = line_end_at(rest)?;
    let line = Line {
        entry: Entry {
            what: ResourceId {
                kind: ResType::new(head.kind),
                id: head.id,
            },
            place: head.place,
            text: Text::new(bytes),
        },
        start: text.len(),
        quote: inner.len(),
    };
    Ok((line, rest))
}

/// The lines of a text in MacRoman; lines of blanks are passed over. A text is refused at the first place that isn't
/// such a line.
#[tactic(auto, unfolding(crate::specs::Reading::lines_at))]
pub(crate) fn lines_at(alloc: Global, text: &[u8]) -> Result<Vec<Line>, ReadError>
    ensures { Gives (λ lines. lines.items) result (lines_at text.now) }
{
    let mut lines = Vec::new(alloc);
    let mut rest = after_lines(text);
    for _turn in 0..text.len() {
        if rest.is_empty() {
            return Ok(lines);
        }
        let (line, after) = match line_at(alloc, rest) {
            Ok(read) => read,
            Err(error) => return Err(error),
        };
        lines.push(line)?;
        rest = after_lines(after);
    }
    Ok(lines)
}
