//! The texts of a table as lines, and a table with the texts of lines.

ghost use Rattle.std.specs.Prelude.{◌≡◌, ◌≢◌, ◌++◌, [], ℕ, List, IfErr, IfNone, IfOk, IfSome, OnOk, string_bytes};
ghost use Rattle.fork_bytes.specs.Rows.{Row};
ghost use Rattle.fork_list.specs.Roman.{roman_text};
ghost use Rattle.fork_texts.specs.Putting.{Becomes, BecomesNone, Puts, merged, with_new};
ghost use Rattle.fork_texts.specs.Tables.{PutsNone, PutsText, Refuses, RomanRefuses, TextPutsNone, has_text, lines_of, odd_of, position, refusal_of, row_lines, why_left};
ghost use Rattle.fork_texts.specs.Texts.{entries_of, is_typed};

use crate::entry::same_entries;
use crate::fault::{Fault, ReadError, Refusal, TextFault, Why};
use crate::kinds::TextType;
use crate::line::{Line, push_line};
use crate::merge::merge;
use crate::reading::lines_at;
use crate::roman::roman_of;
use crate::row::{entries_of, id_of, push_entries, row_of, row_with};
use fork_bytes::table::Row;
use fork_change::row::ResourceId;
use fork_list::text_of;
use mac_base::resource::Resource;
use res_types::value::Text;
use std::alloc::{AllocError, Global};

/// The lines of a table's texts.
#[derive(Drop)]
pub struct Listed {
    pub lines: String,
    /// The resources whose bytes aren't of their type. Only their names are in the lines.
    pub odd: Vec<ResourceId>,
}

/// Adds the lines of a row. The result is whether its bytes are of its type, where that is one of these.
fn push_lines(
    alloc: Global,
    out: &mut Vec<u8>,
    types: &[TextType],
    row: &Row,
) -> Result<bool, AllocError>
    ensures lines { OnOk result (out.new.items ≡ out.old.items ++ row_lines types.now row.now) }
    ensures typed { IfOk result (λ is. is ≡ is_typed types.now row.now) }
{
    let mut entries = Vec::new(alloc);
    let is_typed = push_entries(alloc, &mut entries, types, row)?;
    for entry in &entries {
        push_line(alloc, out, entry)?;
    }
    Ok(is_typed)
}

/// The texts of rows of these types, and the names of all rows, a line for each, in the order of the bytes. The only
/// error is that the host has no memory.
pub fn texts_of(alloc: Global, types: &[TextType], rows: &[Row]) -> Result<Listed, AllocError>
    ensures lines { IfOk result (λ listed. string_bytes listed.lines ≡ roman_text (lines_of types.now rows.now)) }
    ensures odd { IfOk result (λ listed. listed.odd.items ≡ odd_of types.now rows.now) }
{
    let mut out = Vec::new(alloc);
    let mut odd = Vec::new(alloc);
    for row in rows {
        if !push_lines(alloc, &mut out, types, row)? {
            odd.push(id_of(row))?;
        }
    }
    Ok(Listed {
        lines: text_of(alloc, &out)?,
        odd,
    })
}

/// The line whose text is at fault where a resource can't have those of lines: the first that is too long for a count
/// of a byte, or else has no letter, or else the first.
fn line_at_fault<'a>(lines: &'a [Line]) -> Option<&'a Line> {
    lines
        .iter()
        .find(|line| line.entry.text.as_slice().len() > 255)
        .or(
            lines
                .iter()
                .find(|line| line.entry.text.as_slice().is_empty()),
        )
        .or(lines.first())
}

/// A row with the texts of lines, and the lines that are left.
fn put_row<'a>(
    alloc: Global,
    types: &[TextType],
    row: &Row,
    lines: &'a [Line],
) -> Result<(Option<Resource<Text>>, &'a [Line]), ReadError>
    ensures row { IfOk result (λ x. Becomes types.now row.now (merged (entries_of types.now row.now) lines.entry.now).entries x.0) }
    ensures left { IfOk result (λ x. x.1.now ≡ (merged (entries_of types.now row.now) lines.entry.now).left) }
    ensures none { IfErr result (BecomesNone types.now row.now (merged (entries_of types.now row.now) lines.entry.now).entries) }
{
    let entries = entries_of(alloc, types, row)?;
    let merged = merge(alloc, &entries, lines)?;
    let left = merged.left;
    if same_entries(&entries, &merged.entries) {
        return Ok((None, left));
    }
    match row_with(alloc, types, row, &merged.entries)? {
        Some(new) => Ok((Some(new), left)),
        None => {
            let used = &lines[..lines.len().saturating_sub(left.len())];
            let at = line_at_fault(used).map_or(0, |line| line.quote);
            Err(ReadError::Refused(Fault {
                left: at,
                why: Why::Unfit,
            }))
        }
    }
}

/// Whether a row has the text of a line.
fn has_text(alloc: Global, types: &[TextType], row: &Row, line: &Line) -> Result<bool, AllocError>
    ensures { IfOk result (λ has. has ≡ has_text types.now line.now row.now) }
{
    let entries = entries_of(alloc, types, row)?;
    Ok(entries.iter().any(|entry| line.entry.is_at(entry)))
}

/// Why a line is left when all rows have been seen.
fn why_left(alloc: Global, types: &[TextType], rows: &[Row], line: &Line) -> Result<Why, AllocError>
    ensures { IfOk result (λ why. why ≡ why_left types.now rows.now line.now) }
{
    for row in rows {
        if has_text(alloc, types, row, line)? {
            return Ok(Why::Order);
        }
    }
    Ok(Why::NotThere)
}

/// The first line, if one is left.
fn first_line(lines: &[Line]) -> Option<&Line>
    ensures none { IfNone result (lines.now ≡ []) }
    ensures some { IfSome result (λ _. lines.now ≢ []) }
{
    lines.first()
}

/// Adds a row, if there is one.
fn push_new(
    changed: &mut Vec<Resource<Text>>,
    new: Option<Resource<Text>>,
) -> Result<(), AllocError>
    ensures { OnOk result (changed.new.items ≡ changed.old.items ++ with_new new []) }
{
    if let Some(new) = new {
        changed.push(new)?;
    }
    Ok(())
}

/// The rows that change where their texts become those of lines.
fn put_lines(
    alloc: Global,
    types: &[TextType],
    rows: &[Row],
    lines: &[Line],
) -> Result<Vec<Resource<Text>>, ReadError>
    ensures puts { IfOk result (λ changed. Puts types.now rows.now lines.now changed.items) }
    ensures none { IfErr result (PutsNone types.now rows.now lines.now) }
{
    let mut changed = Vec::new(alloc);
    let mut left = lines;
    for row in rows {
        let (new, others) = match put_row(alloc, types, row, left) {
            Ok(put) => put,
            Err(error) => return Err(error),
        };
        left = others;
        push_new(&mut changed, new)?;
    }
    match first_line(left) {
        None => Ok(changed),
        Some(line) => Err(ReadError::Refused(Fault {
            left: line.start,
            why: why_left(alloc, types, rows, line)?,
        })),
    }
}

/// The line and the column, from 1 on, after these bytes.
fn position_after(bytes: &[u8]) -> (usize, usize)
    ensures { result ≡ position 1 1 bytes.now }
{
    let mut line = 1;
    let mut column = 1;
    for byte in bytes {
        if *byte == b'\n' {
            line += 1;
            column = 1;
        } else {
            column += 1;
        }
    }
    (line, column)
}

/// The fault of a text, and its line and column.
fn refusal_of(text: &[u8], fault: Fault) -> Refusal
    ensures { result ≡ refusal_of text.now fault }
{
    let before = &text[..text.len().saturating_sub(fault.left)];
    let (line, column) = position_after(before);
    Refusal {
        line,
        column,
        why: fault.why,
    }
}

/// The rows that change where their texts become those of the lines of a text in MacRoman.
fn put_read(
    alloc: Global,
    types: &[TextType],
    rows: &[Row],
    text: &[u8],
) -> Result<Vec<Resource<Text>>, ReadError>
    ensures puts { IfOk result (λ changed. PutsText types.now rows.now text.now changed.items) }
    ensures none { IfErr result (TextPutsNone types.now rows.now text.now) }
{
    let lines = lines_at(alloc, text)?;
    put_lines(alloc, types, rows, &lines)
}

/// The same, or why not, with its line and column.
fn put_roman(
    alloc: Global,
    types: &[TextType],
    rows: &[Row],
    text: &[u8],
) -> Result<Vec<Resource<Text>>, TextFault>
    ensures puts { IfOk result (λ changed. PutsText types.now rows.now text.now changed.items) }
    ensures none { IfErr result (RomanRefuses types.now rows.now text.now) }
{
    match put_read(alloc, types, rows, text) {
        Ok(changed) => Ok(changed),
        Err(ReadError::HostFull) => Err(TextFault::HostFull),
        Err(ReadError::Refused(fault)) => Err(TextFault::Refused(refusal_of(text, fault))),
    }
}

/// The rows that change where their texts become those of lines, as `texts_of` writes them: lines may be left out.
pub fn put_texts(
    alloc: Global,
    types: &[TextType],
    rows: &[Row],
    lines: &str,
) -> Result<Vec<Resource<Text>>, TextFault>
    ensures puts { IfOk result (λ changed. (text : List ℕ) × (lines.now ≡ roman_text text) × PutsText types.now rows.now text changed.items) }
    ensures refused { IfErr result (Refuses types.now rows.now lines.now) }
{
    let Ok(roman) = roman_of(alloc, lines) else {
        return Err(TextFault::HostFull);
    };
    let text = roman.bytes.as_slice();
    if roman.is_whole {
        put_roman(alloc, types, rows, text)
    } else {
        let fault = Fault {
            left: 0,
            why: Why::Letter,
        };
        Err(TextFault::Refused(refusal_of(text, fault)))
    }
}

/// The rows that borrow the bytes of these.
pub fn rows_of<'a>(alloc: Global, rows: &'a [Resource<Text>]) -> Result<Vec<Row<'a>>, AllocError>
    ensures { IfOk result (λ made. made.items ≡ rows.entry.now) }
{
    let mut made = Vec::new(alloc);
    for row in rows {
        made.push(row_of(row)?)?;
    }
    Ok(made)
}

#[cfg(test)]
mod tests {
    use super::*;
    use crate::kinds::text_types;
    use bitflags::Flags;
    use fork_bytes::table::Contents;
    use mac_base::resource::{ResAttrs, ResType};
    use std::test::Fail;

    #[test]
    fn string_list(rt: HostRuntime) -> Result<(), Fail> {
        let alloc = rt.alloc();
        let types = text_types(alloc)?;
        let row = Resource {
            kind: ResType::new(*b"STR#"),
            id: -5,
            name: None,
            attributes: ResAttrs::empty(),
            datum: Contents::new(b"\x00\x02\x02Hi\x03\xA5\r\""),
        };
        let rows = vec![in alloc; row]?;
        let listed = texts_of(alloc, &types, &rows)?;
        assert_eq!(rt;
            listed.lines.as_str(),
            "STR# -5 [1]      \"Hi\"\nSTR# -5 [2]      \"\u{2022}\\n\\\"\"\n"
        );
        let changed = put_texts(alloc, &types, &rows, "STR# -5 [2] \"\"")?;
        assert_eq!(rt; changed.len(), 1);
        assert_eq!(rt;
            changed[0].datum.as_slice(),
            b"\x00\x02\x02Hi\x00".as_slice()
        );
        Ok(())
    }
}
