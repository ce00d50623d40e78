//! The table that a text says.

ghost use Rattle.std.specs.Prelude.{◌≡◌, ◌≤◌, [], IfOk, length};
ghost use Rattle.std.specs.List.{push};
ghost use Rattle.fork_bytes.specs.Written.{plain_row, plain_rows};
ghost use Rattle.fork_rez.specs.Reading.{Gives, all_of, expected_at, map_at, map_in, row_at, table_at};
ghost use Rattle.fork_rez.specs.Said.{Answers, ends_line, line_at, line_ends, made_table, table_of};

use crate::blanks::{MAP_WORD, after_blanks, after_word, word_at};
use crate::fault::{Expected, ReadError, Refusal, RezFault, refused};
use crate::statement::{data_at, row_at};
use crate::unread::{UNREADS, first_at};
use fork_bytes::table::{Contents, Row, Rows, Table};
use mac_base::resource::Resource;
use std::alloc::{AllocError, Global};

/// How many bytes of the map are kept.
const MAP_LENGTH: usize = 242;

/// How many of them are for the system and the application.
const EXTRA_LENGTH: usize = 240;

/// A table that was made of a text. It has its bytes, and a `Table` borrows them.
#[derive(Drop)]
pub struct Made {
    pub rows: Vec<Resource<Vec<u8>>>,
    pub extra: [u8; 240],
    pub map_attributes: u16,
}

/// The row that borrows the bytes of this one.
fn row_of<'a>(row: &'a Resource<Vec<u8>>) -> Result<Row<'a>, AllocError>
    ensures { IfOk result (λ made. made ≡ plain_row (λ v. v.items) row.now) }
{
    let name = match &row.name {
        Some(name) => Some(name.clone()?),
        None => None,
    };
    Ok(Resource {
        kind: row.kind,
        id: row.id,
        name,
        attributes: row.attributes,
        datum: Contents::new(row.datum.as_slice()),
    })
}

/// The rows that borrow the bytes of these.
fn rows_of<'a>(alloc: Global, rows: &'a [Resource<Vec<u8>>]) -> Result<Vec<Row<'a>>, AllocError>
    ensures { IfOk result (λ made. made.items ≡ plain_rows (λ v. v.items) rows.now) }
{
    let mut made = Vec::new(alloc);
    for row in rows {
        made.push(row_of(row)?)?;
    }
    Ok(made)
}

impl Made {
    /// The table. The only error is that the host has no memory.
    pub fn table(&self, alloc: Global) -> Result<Table<'_>, AllocError>
        ensures { IfOk result (λ table. table ≡ made_table self.now) }
    {
        let rows = rows_of(alloc, self.rows.as_slice())?;
        Ok(Table {
            rows: Rows::new(rows),
            extra: self.extra,
            map_attributes: self.map_attributes,
        })
    }
}

/// The map's bytes in a comment.
#[tactic(auto, unfolding(crate::specs::Reading::map_in))]
fn map_in(alloc: Global, text: &[u8]) -> Result<(Vec<u8>, &[u8]), ReadError>
    ensures bytes { Gives (λ x. (x.0.items, x.1.now)) result (map_in text.now) }
    ensures whole { IfOk result (λ x. length x.0.items ≡ 242) }
{
    let (bytes, rest) = data_at(alloc, text)?;
    let rest = word_at(b"*/", Expected::CommentEnd, rest)?;
    if bytes.len() != MAP_LENGTH {
        return Err(refused(text, Expected::MapBytes));
    }
    Ok((bytes, rest))
}

/// The map's bytes in the comment that the text begins with, if it has them, and else zeros.
#[tactic(auto, unfolding(crate::specs::Reading::map_at))]
fn map_at(alloc: Global, text: &[u8]) -> Result<(Vec<u8>, &[u8]), ReadError>
    ensures bytes { Gives (λ x. (x.0.items, x.1.now)) result (map_at text.now) }
    ensures whole { IfOk result (λ x. length x.0.items ≡ 242) }
{
    match after_word(MAP_WORD, text) {
        Some(inner) => map_in(alloc, inner),
        None => Ok((vec![in alloc; 0; MAP_LENGTH]?, text)),
    }
}

/// The rows of all statements.
fn rows_at(alloc: Global, text: &[u8]) -> Result<(Vec<Resource<Vec<u8>>>, &[u8]), ReadError>
    ensures { Gives (λ x. (plain_rows (λ v. v.items) x.0.items, x.1.now)) result (all_of push row_at [] text.now) }
{
    let mut rows = Vec::new(alloc);
    let mut rest = text;
    for _turn in 0..text.len() + 1 {
        let (found, after) = match row_at(alloc, rest) {
            Ok(read) => read,
            Err(error) => return Err(error),
        };
        rest = after;
        match found {
            Some(row) => rows.push(row)?,
            None => return Ok((rows, rest)),
        }
    }
    Ok((rows, rest))
}

/// What is expected where the statements of a text end, and the text goes on.
fn expected_at(text: &[u8]) -> Expected
    ensures { result ≡ expected_at text.now }
{
    match first_at(UNREADS, text) {
        Some(unread) => Expected::DataNot(*unread),
        None => Expected::Statement,
    }
}

/// The table of a whole text.
#[tactic(auto, unfolding(crate::specs::Reading::table_at))]
fn table_at(alloc: Global, text: &[u8]) -> Result<Made, ReadError>
    ensures { Gives made_table result (table_at text.now) }
{
    let (bytes, rest) = map_at(alloc, text)?;
    let (rows, rest) = match rows_at(alloc, rest) {
        Ok(read) => read,
        Err(error) => return Err(error),
    };
    let rest = after_blanks(rest)?;
    if !rest.is_empty() {
        return Err(refused(rest, expected_at(rest)));
    }
    let (front, back) = bytes.as_slice().split_at(EXTRA_LENGTH);
    let mut extra = [0; 240];
    extra.copy_from_slice(front);
    let map_attributes = back[0] as u16 * 256 + back[1] as u16;
    Ok(Made {
        rows,
        extra,
        map_attributes,
    })
}

/// Whether a byte ends a line: a carriage return, or a line feed that doesn't come right after one.
fn ends_line(previous: u8, byte: u8) -> bool
    ensures { result ≡ ends_line previous byte }
{
    byte == b'\r' || byte == b'\n' && previous != b'\r'
}

/// How many lines end in a text.
fn line_ends(text: &[u8]) -> usize
    ensures ends { result ≡ line_ends text.now }
    ensures most { result ≤ length text.now }
{
    let mut ends = 0;
    let mut previous = 0;
    let mut rest = text;
    while let Some((byte, after)) = rest.split_first() {
        if ends_line(previous, *byte) {
            ends += 1;
        }
        previous = *byte;
        rest = after;
    }
    ends
}

/// The line of a text, from 1 on, where so many bytes are left.
fn line_at(text: &[u8], left: usize) -> usize
    ensures { result ≡ line_at text.now left }
{
    let before = &text[..text.len().saturating_sub(left)];
    1 + line_ends(before)
}

/// The table that a text of `data` statements says, with blanks and comments anywhere between words. Data are strings
/// in hexadecimal digits, `$"4869"`, or in letters, `"Hi"`, one after the other. A byte in letters that isn't printable
/// ASCII is `\0x` and two digits. The comment with the map's bytes begins the text, if there is one. A text is refused
/// at the first place that isn't such a text, with its line; the other error is that the host has no memory.
pub fn rez(alloc: Global, text: &[u8]) -> Result<Made, RezFault>
    ensures { Answers result (table_of text.now) }
{
    match table_at(alloc, text) {
        Ok(made) => Ok(made),
        Err(ReadError::HostFull) => Err(RezFault::HostFull),
        Err(ReadError::Refused(fault)) => Err(RezFault::Refused(Refusal {
            line: line_at(text, fault.left),
            expected: fault.expected,
        })),
    }
}
