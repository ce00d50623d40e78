//! The texts of a row, and a row with other texts.

ghost use Rattle.std.specs.Prelude.{◌≡◌, ◌++◌, ◌≤◌, ◌↔◌, true, false, not, IfNone, IfOk, IfSome, OnOk, length, List, ℕ, None, Some};
ghost use Rattle.fork_bytes.specs.Rows.{Row};
ghost use Rattle.fork_change.specs.Rows.{id_of};
ghost use Rattle.fork_texts.specs.Kinds.{type_of};
ghost use Rattle.fork_texts.specs.Putting.{IsRowPut, PutsBytes, PutsParts, after_name, put_name};
ghost use Rattle.fork_texts.specs.Texts.{entries_of, is_there, is_typed, name_entries, texts_in};
ghost use Rattle.res_types.specs.Bits.{byte_bits};
ghost use Rattle.res_types.specs.Meaning.{decode};

use crate::entry::{Entry, same_entries, text_from};
use crate::kinds::TextType;
use crate::place::Place;
use crate::resource::{fill, push_texts, type_of};
use fork_bytes::table::{Contents, Row};
use fork_change::row::ResourceId;
use mac_base::name::{MAX_NAME, Name};
use mac_base::resource::Resource;
use res_types::stop::Stop;
use res_types::value::Text;
use std::alloc::{AllocError, Global};

/// The type and the id of a row.
pub(crate) fn id_of(row: &Row) -> ResourceId
    ensures { result ≡ id_of row.now }
{
    ResourceId {
        kind: row.kind,
        id: row.id,
    }
}

/// Adds the name of a row, if it has one.
fn push_name(alloc: Global, entries: &mut Vec<Entry>, row: &Row) -> Result<(), AllocError>
    ensures { OnOk result (entries.new.items ≡ entries.old.items ++ name_entries row.now) }
{
    if let Some(name) = &row.name {
        entries.push(Entry {
            what: id_of(row),
            place: Place::Name,
            text: text_from(alloc, name.as_slice())?,
        })?;
    }
    Ok(())
}

/// Adds the texts of a row of a type. The result is whether its bytes are of the type: else it has no texts.
fn push_typed(
    alloc: Global,
    entries: &mut Vec<Entry>,
    one: &TextType,
    row: &Row,
) -> Result<bool, AllocError>
    ensures texts { OnOk result (entries.new.items ≡ entries.old.items ++ texts_in (id_of row.now) one.now (decode one.now.declaration (byte_bits row.now.datum))) }
    ensures typed { IfOk result (λ is_typed. is_typed ≡ is_there (decode one.now.declaration (byte_bits row.now.datum))) }
{
    match one.declaration.decode(alloc, row.datum.as_slice()) {
        Ok(parts) => {
            push_texts(alloc, entries, &id_of(row), one, &parts)?;
            Ok(true)
        }
        Err(Stop::Unfit(_)) => Ok(false),
        Err(Stop::HostFull) => Err(AllocError),
    }
}

/// Adds the name and the texts of a row. The result is whether its bytes are of its type, where that is one of these.
#[tactic(auto, unfolding(crate::specs::Texts::entries_of, crate::specs::Texts::is_typed))]
pub(crate) fn push_entries(
    alloc: Global,
    entries: &mut Vec<Entry>,
    types: &[TextType],
    row: &Row,
) -> Result<bool, AllocError>
    ensures texts { OnOk result (entries.new.items ≡ entries.old.items ++ entries_of types.now row.now) }
    ensures typed { IfOk result (λ is. is ≡ is_typed types.now row.now) }
{
    push_name(alloc, entries, row)?;
    match type_of(types, row.kind) {
        Some(one) => push_typed(alloc, entries, one, row),
        None => Ok(true),
    }
}

/// The name and the texts of a row.
pub(crate) fn entries_of(
    alloc: Global,
    types: &[TextType],
    row: &Row,
) -> Result<Vec<Entry>, AllocError>
    ensures { IfOk result (λ entries. entries.items ≡ entries_of types.now row.now) }
{
    let mut entries = Vec::new(alloc);
    push_entries(alloc, &mut entries, types, row)?;
    Ok(entries)
}

/// The row that borrows the bytes of this one.
pub(crate) fn row_of(row: &Resource<Text>) -> Result<Row<'_>, AllocError>
    ensures { IfOk result (λ made. made ≡ row.now) }
{
    let name = match &row.name {
        Some(name) => Some(name.clone()?),
        None => None,
    };
    Ok(Resource {
        kind: row.kind,
        id: row.id,
        name,
        attributes: row.attributes,
        datum: Contents::new(row.datum.as_slice()),
    })
}

/// The name of these bytes, or None where they are more than 255.
fn short_name(alloc: Global, bytes: &[u8]) -> Result<Option<Name>, AllocError>
    ensures name { IfOk result (λ found. IfSome found (λ name. name ≡ bytes.now)) }
    ensures short { IfOk result (λ found. IfSome found (λ name. length name ≤ 255)) }
    ensures long { IfOk result (λ found. IfNone found (¬ (length bytes.now ≤ 255))) }
{
    if bytes.len() > MAX_NAME {
        return Ok(None);
    }
    Name::new(alloc, bytes)
}

/// The name that a row gets, which is the first of these texts where it has one. None where the name is too long.
fn name_put(alloc: Global, row: &Row, texts: &[Entry]) -> Result<Option<Option<Name>>, AllocError>
    ensures name { IfOk result (λ found. IfSome found (λ name. name ≡ put_name row.now.name texts.now)) }
    ensures short { IfOk result (λ found. IfSome found (λ name. IfSome name (λ bytes. length bytes ≤ 255))) }
    ensures long { IfOk result (λ found. IfNone found (¬ IfSome (put_name row.now.name texts.now) (λ bytes. length bytes ≤ 255))) }
{
    let Some(old) = &row.name else {
        return Ok(Some(None));
    };
    let bytes = match texts.first() {
        Some(first) => first.text.as_slice(),
        None => old.as_slice(),
    };
    match short_name(alloc, bytes)? {
        Some(name) => Ok(Some(Some(name))),
        None => Ok(None),
    }
}

/// The texts after the name, where a row has one.
fn after_name<'a>(row: &Row, texts: &'a [Entry]) -> &'a [Entry]
    ensures { result.now ≡ after_name row.now.name texts.entry.now }
{
    match (&row.name, texts.split_first()) {
        (Some(_), Some((_, others))) => others,
        _ => texts,
    }
}

/// The bytes of a resource with these texts. None where they can't be in it.
fn typed_put(
    alloc: Global,
    one: &TextType,
    bytes: &[u8],
    texts: &[Entry],
) -> Result<Option<Text>, AllocError>
    ensures bytes { IfOk result (λ found. IfSome found (λ new. PutsParts one.now texts.now bytes.now new (decode one.now.declaration (byte_bits bytes.now)))) }
    ensures none { IfOk result (λ found. IfNone found ((new : List ℕ) → ¬ PutsParts one.now texts.now bytes.now new (decode one.now.declaration (byte_bits bytes.now)))) }
{
    let mut parts = match one.declaration.decode(alloc, bytes) {
        Ok(parts) => parts,
        Err(Stop::Unfit(_)) => return Ok(Some(text_from(alloc, bytes)?)),
        Err(Stop::HostFull) => return Err(AllocError),
    };
    fill(alloc, one, &mut parts, texts)?;
    match one.declaration.encode(alloc, &parts) {
        Ok(new) => Ok(Some(Text::new(new))),
        Err(Stop::Unfit(_)) => Ok(None),
        Err(Stop::HostFull) => Err(AllocError),
    }
}

/// The same of a row.
fn bytes_put(
    alloc: Global,
    types: &[TextType],
    row: &Row,
    texts: &[Entry],
) -> Result<Option<Text>, AllocError>
    ensures bytes { IfOk result (λ found. IfSome found (PutsBytes (type_of types.now row.now.kind) texts.now row.now.datum)) }
    ensures none { IfOk result (λ found. IfNone found ((new : List ℕ) → ¬ PutsBytes (type_of types.now row.now.kind) texts.now row.now.datum new)) }
{
    match type_of(types, row.kind) {
        Some(one) => typed_put(alloc, one, row.datum.as_slice(), texts),
        None => Ok(Some(text_from(alloc, row.datum.as_slice())?)),
    }
}

/// Whether a row's texts are these.
fn shows(
    alloc: Global,
    types: &[TextType],
    row: &Resource<Text>,
    texts: &[Entry],
) -> Result<bool, AllocError>
    ensures { IfOk result (λ is. (is ≡ true) ↔ (entries_of types.now row.now ≡ texts.now)) }
{
    let row = row_of(row)?;
    let entries = entries_of(alloc, types, &row)?;
    Ok(same_entries(&entries, texts))
}

/// The row with this name and these bytes.
fn new_row(row: &Row, name: Option<Name>, datum: Text) -> Resource<Text>
    ensures kind { result.kind ≡ row.now.kind }
    ensures id { result.id ≡ row.now.id }
    ensures attributes { result.attributes ≡ row.now.attributes }
    ensures name { result.name ≡ name }
    ensures datum { result.datum ≡ datum }
{
    Resource {
        kind: row.kind,
        id: row.id,
        name,
        attributes: row.attributes,
        datum,
    }
}

/// The row with these texts. None where they can't be in it.
pub(crate) fn row_with(
    alloc: Global,
    types: &[TextType],
    row: &Row,
    texts: &[Entry],
) -> Result<Option<Resource<Text>>, AllocError>
    ensures put { IfOk result (λ found. IfSome found (IsRowPut types.now row.now texts.now)) }
    ensures none { IfOk result (λ found. IfNone found ((new : Row) → ¬ IsRowPut types.now row.now texts.now new)) }
{
    let Some(name) = name_put(alloc, row, texts)? else {
        return Ok(None);
    };
    let Some(datum) = bytes_put(alloc, types, row, after_name(row, texts))? else {
        return Ok(None);
    };
    let new = new_row(row, name, datum);
    if shows(alloc, types, &new, texts)? {
        Ok(Some(new))
    } else {
        Ok(None)
    }
}
