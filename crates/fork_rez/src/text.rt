//! The text of a table.

ghost use Rattle.std.specs.Prelude.{◌≡◌, ◌≤◌, ◌==◌, ◌++◌, IfOk, OnOk, drop, length, map, replicate, take};
ghost use Rattle.std.specs.List.{flat_map, list_all};
ghost use Rattle.std.specs.Fmt.{signed_decimal};
ghost use Rattle.byteorder.specs.Endian.{big_bytes};
ghost use Rattle.fork_rez.specs.Text.{attribute_text, attributes_text, chosen, chosen_rows, commented, digits_text, gap_of, hexadecimal, line_text, lines_of, map_text, name_text, row_text, shown, text_of, written};

use crate::attribute::Attribute;
use crate::blanks::MAP_WORD;
use crate::quoted::is_printable;
use bitflags::Flags;
use fork_bytes::table::{Row, Table};
use fork_list::{hexadecimal_digit, is_chosen};
use mac_base::name::Name;
use mac_base::resource::ResType;
use std::alloc::{AllocError, Global};

/// The bits of attributes that have no word.
const WORDLESS: u8 = 131;

/// How many bytes of data a line has.
const LINE: usize = 16;

/// The blanks between a line's digits and its comment, where the digits are of 16 bytes, and how wide those are.
const GAP: usize = 12;

const FULL_WIDTH: usize = 39;

/// Adds a byte in two hexadecimal digits.
fn push_byte(out: &mut Vec<u8>, byte: u8) -> Result<(), AllocError>
    ensures { OnOk result (out.new.items ≡ out.old.items ++ hexadecimal byte) }
{
    out.push(hexadecimal_digit(byte / 16) as u8)?;
    out.push(hexadecimal_digit(byte % 16) as u8)?;
    Ok(())
}

/// Adds a byte between these quotes.
fn push_written(out: &mut Vec<u8>, quote: u8, byte: u8) -> Result<(), AllocError>
    ensures { OnOk result (out.new.items ≡ out.old.items ++ written quote byte) }
{
    if byte == quote || byte == b'\\' {
        out.push(b'\\')?;
        out.push(byte)?;
        Ok(())
    } else if is_printable(byte) {
        out.push(byte)?;
        Ok(())
    } else {
        out.extend_from_slice(b"\\0x")?;
        push_byte(out, byte)
    }
}

/// Adds bytes between these quotes.
fn push_all_written(out: &mut Vec<u8>, quote: u8, bytes: &[u8]) -> Result<(), AllocError>
    ensures { OnOk result (out.new.items ≡ out.old.items ++ flat_map (written quote) bytes.now) }
{
    for byte in bytes {
        push_written(out, quote, *byte)?;
    }
    Ok(())
}

/// Adds a name, if there is one.
fn push_name(out: &mut Vec<u8>, name: &Option<Name>) -> Result<(), AllocError>
    ensures { OnOk result (out.new.items ≡ out.old.items ++ name_text name.now) }
{
    let Some(name) = name else {
        return Ok(());
    };
    out.extend_from_slice(b", \"")?;
    push_all_written(out, b'"', name.as_slice())?;
    out.push(b'"')?;
    Ok(())
}

/// Adds the word of an attribute, if its bit is set.
fn push_attribute(out: &mut Vec<u8>, bits: u8, attribute: Attribute) -> Result<(), AllocError>
    ensures { OnOk result (out.new.items ≡ out.old.items ++ attribute_text bits attribute) }
{
    if bits & attribute.bit() != 0 {
        out.extend_from_slice(b", ")?;
        out.extend_from_slice(attribute.word())?;
    }
    Ok(())
}

/// Adds attributes.
fn push_attributes(out: &mut Vec<u8>, bits: u8) -> Result<(), AllocError>
    ensures { OnOk result (out.new.items ≡ out.old.items ++ attributes_text bits) }
{
    if bits & WORDLESS != 0 {
        out.extend_from_slice(b", $")?;
        return push_byte(out, bits);
    }
    push_attribute(out, bits, Attribute::SysHeap)?;
    push_attribute(out, bits, Attribute::Purgeable)?;
    push_attribute(out, bits, Attribute::Locked)?;
    push_attribute(out, bits, Attribute::Protected)?;
    push_attribute(out, bits, Attribute::Preload)
}

/// Adds bytes in hexadecimal digits, a blank before each second one but the first.
fn push_digits(out: &mut Vec<u8>, bytes: &[u8]) -> Result<(), AllocError>
    ensures { OnOk result (out.new.items ≡ out.old.items ++ digits_text 0 bytes.now) }
{
    for i in 0..bytes.len() {
        if 0 < i && i % 2 == 0 {
            out.push(b' ')?;
        }
        push_byte(out, bytes[i])?;
    }
    Ok(())
}

/// Adds a line of data, without its end.
fn push_line(out: &mut Vec<u8>, bytes: &[u8]) -> Result<(), AllocError>
    ensures { OnOk result (out.new.items ≡ out.old.items ++ line_text bytes.now) }
{
    out.extend_from_slice(b"\t$\"")?;
    push_digits(out, bytes)?;
    out.push(b'"')?;
    Ok(())
}

/// A byte in a comment.
fn shown(byte: u8) -> u8
    ensures { result ≡ shown byte }
{
    if is_printable(byte) && byte != b'*' {
        byte
    } else {
        b'.'
    }
}

/// Adds the characters of a comment.
fn push_shown(out: &mut Vec<u8>, bytes: &[u8]) -> Result<(), AllocError>
    ensures { OnOk result (out.new.items ≡ out.old.items ++ map shown bytes.now) }
{
    for byte in bytes {
        out.push(shown(*byte))?;
    }
    Ok(())
}

/// How many blanks are between the digits of so many bytes and their comment: all comments of full lines begin in one
/// column.
fn gap_of(count: usize) -> usize
    requires { count ≤ 16 }
    ensures { result ≡ gap_of count }
{
    let width = 2 * count + count.saturating_sub(1) / 2;
    GAP + FULL_WIDTH.saturating_sub(width)
}

/// Adds so many blanks.
fn push_blanks(out: &mut Vec<u8>, count: usize) -> Result<(), AllocError>
    ensures { OnOk result (out.new.items ≡ out.old.items ++ replicate count 32) }
{
    for _blank in 0..count {
        out.push(b' ')?;
    }
    Ok(())
}

/// Adds a line of data with its comment.
fn push_commented(out: &mut Vec<u8>, bytes: &[u8]) -> Result<(), AllocError>
    requires { length bytes.now ≤ 16 }
    ensures { OnOk result (out.new.items ≡ out.old.items ++ commented bytes.now) }
{
    push_line(out, bytes)?;
    push_blanks(out, gap_of(bytes.len()))?;
    out.extend_from_slice(b"/* ")?;
    push_shown(out, bytes)?;
    out.extend_from_slice(b" */\n")?;
    Ok(())
}

/// The first line of data, and the bytes after it.
#[tactic(auto, using(std::proofs::lemmas::List::take_min, std::proofs::lemmas::List::drop_min))]
fn first_line(bytes: &[u8]) -> (&[u8], &[u8])
    ensures line { result.0.now ≡ take 16 bytes.now }
    ensures rest { result.1.now ≡ drop 16 bytes.now }
    ensures short { length result.0.now ≤ 16 }
{
    bytes.split_at(LINE.min(bytes.len()))
}

/// Adds data in lines of 16 bytes.
fn push_lines(out: &mut Vec<u8>, bytes: &[u8]) -> Result<(), AllocError>
    ensures { OnOk result (out.new.items ≡ out.old.items ++ flat_map commented (lines_of bytes.now)) }
{
    let mut rest = bytes;
    for _line in 0..(bytes.len() + 15) / LINE {
        let (line, after) = first_line(rest);
        push_commented(out, line)?;
        rest = after;
    }
    Ok(())
}

/// Adds a type.
fn push_kind(out: &mut Vec<u8>, kind: ResType) -> Result<(), AllocError>
    ensures { OnOk result (out.new.items ≡ out.old.items ++ flat_map (written 39) kind) }
{
    push_all_written(out, b'\'', &kind.bytes())
}

/// Adds an id.
fn push_id(alloc: Global, out: &mut Vec<u8>, id: i16) -> Result<(), AllocError>
    ensures { OnOk result (out.new.items ≡ out.old.items ++ signed_decimal id) }
{
    let digits = id.to_string(alloc)?;
    out.extend_from_slice(digits.as_bytes())?;
    Ok(())
}

/// Adds a resource.
fn push_row(alloc: Global, out: &mut Vec<u8>, row: &Row) -> Result<(), AllocError>
    ensures { OnOk result (out.new.items ≡ out.old.items ++ row_text row.now) }
{
    out.extend_from_slice(b"data '")?;
    push_kind(out, row.kind)?;
    out.extend_from_slice(b"' (")?;
    push_id(alloc, out, row.id)?;
    push_name(out, &row.name)?;
    push_attributes(out, row.attributes.bits())?;
    out.extend_from_slice(b") {\n")?;
    push_lines(out, row.datum.as_slice())?;
    out.extend_from_slice(b"};\n\n")?;
    Ok(())
}

/// Adds the rows of these types.
fn push_rows(
    alloc: Global,
    out: &mut Vec<u8>,
    kinds: &[ResType],
    rows: &[Row],
) -> Result<(), AllocError>
    ensures { OnOk result (out.new.items ≡ out.old.items ++ flat_map row_text (chosen_rows kinds.now rows.now)) }
{
    for row in rows {
        if is_chosen(kinds, row.kind) {
            push_row(alloc, out, row)?;
        }
    }
    Ok(())
}

/// The 240 bytes for the system and the application, and the two of the map's attributes.
fn map_bytes(alloc: Global, extra: &[u8; 240], map_attributes: u16) -> Result<Vec<u8>, AllocError>
    ensures { IfOk result (λ bytes. bytes.items ≡ extra.now ++ big_bytes 2 map_attributes) }
{
    let mut bytes = Vec::from_slice(alloc, extra.as_slice())?;
    bytes.push((map_attributes / 256) as u8)?;
    bytes.push((map_attributes % 256) as u8)?;
    Ok(bytes)
}

/// Whether all bytes are 0.
fn are_zeros(bytes: &[u8]) -> bool
    ensures { result ≡ list_all (λ byte. byte == 0) bytes.now }
{
    bytes.iter().all(|byte| *byte == 0)
}

/// Adds the map's bytes in a comment, unless all are 0.
fn push_map(out: &mut Vec<u8>, bytes: &[u8]) -> Result<(), AllocError>
    ensures { OnOk result (out.new.items ≡ out.old.items ++ map_text bytes.now) }
{
    if are_zeros(bytes) {
        return Ok(());
    }
    out.extend_from_slice(MAP_WORD)?;
    out.extend_from_slice(b"\n")?;
    push_line(out, bytes)?;
    out.extend_from_slice(b"\n*/\n\n")?;
    Ok(())
}

/// The text of a table's resources of these types, or of all where none are named: a `data` statement for each, as
/// DeRez writes them, all in ASCII. The 240 extra bytes and the map's attributes are in a first comment, unless all
/// are 0. The only error is that the host has no memory.
pub fn derez(alloc: Global, kinds: &[ResType], table: &Table) -> Result<Vec<u8>, AllocError>
    ensures { IfOk result (λ text. text.items ≡ text_of (chosen kinds.now table.now)) }
{
    let mut out = Vec::new(alloc);
    let bytes = map_bytes(alloc, &table.extra, table.map_attributes)?;
    push_map(&mut out, bytes.as_slice())?;
    push_rows(alloc, &mut out, kinds, table.rows.as_slice())?;
    Ok(out)
}
