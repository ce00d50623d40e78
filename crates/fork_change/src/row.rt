//! What becomes of a resource.

ghost use Rattle.std.specs.Prelude.{◌≡◌, IfOk};
ghost use Rattle.std.specs.List.{find};
ghost use Rattle.fork_change.specs.Rows.{attributes_after, is_at, name_after, row_as, row_to_put, row_with};

use crate::search::find_row;
use bitflags::Flags;
use fork_bytes::table::{Contents, Row};
use mac_base::error::HostFull;
use mac_base::name::Name;
use mac_base::resource::{ResAttrs, ResType, Resource};

/// The type and the id of a resource.
#[derive(Clone, Copy, Debug, PartialEq, Eq)]
pub struct ResourceId {
    pub kind: ResType,
    pub id: i16,
}

/// What becomes of a name: it stays, it goes, or this one takes its place.
#[derive(Drop)]
pub enum NameChange {
    Keep,
    Clear,
    To(Name),
}

/// What becomes of attributes: these bits are taken away, and then those are added.
#[derive(Clone, Copy)]
pub struct AttributeChange {
    pub take: ResAttrs,
    pub add: ResAttrs,
}

/// What becomes of a resource but for its bytes: it has this type and id from then on.
#[derive(Drop)]
pub struct Change {
    pub to: ResourceId,
    pub name: NameChange,
    pub attributes: AttributeChange,
}

/// What these attributes become.
fn attributes_after(change: AttributeChange, attributes: ResAttrs) -> ResAttrs
    ensures { result ≡ attributes_after change attributes }
{
    let kept = attributes.bits() & !change.take.bits();
    ResAttrs::from_bits_retain(kept | change.add.bits())
}

/// The same name once more, if there is one.
pub(crate) fn same_name(name: &Option<Name>) -> Result<Option<Name>, HostFull>
    ensures { IfOk result (λ copy. copy ≡ name.now) }
{
    match name {
        Some(name) => Ok(Some(name.clone()?)),
        None => Ok(None),
    }
}

/// What a name becomes, if there is one.
fn name_after(change: NameChange, name: &Option<Name>) -> Result<Option<Name>, HostFull>
    ensures { IfOk result (λ after. after ≡ name_after change name.now) }
{
    match change {
        NameChange::Keep => same_name(name),
        NameChange::Clear => Ok(None),
        NameChange::To(name) => Ok(Some(name)),
    }
}

/// The resource with these bytes, where one with this name and these attributes is changed.
pub(crate) fn row_with<'a>(
    change: Change,
    name: &Option<Name>,
    attributes: ResAttrs,
    bytes: Contents<'a>,
) -> Result<Row<'a>, HostFull>
    ensures { IfOk result (λ row. row ≡ row_with change name.now attributes bytes.entry) }
{
    Ok(Resource {
        kind: change.to.kind,
        id: change.to.id,
        name: name_after(change.name, name)?,
        attributes: attributes_after(change.attributes, attributes),
        datum: bytes,
    })
}

/// The resource that another becomes.
pub(crate) fn row_as<'a>(change: Change, row: &Row<'a>) -> Result<Row<'a>, HostFull>
    ensures { IfOk result (λ after. after ≡ row_as change row.now) }
{
    let bytes = Contents::new(row.datum.as_slice());
    row_with(change, &row.name, row.attributes, bytes)
}

/// The resource that has these bytes from now on: its name and attributes are what those of the first with its type and
/// id become. A new one has neither before.
pub fn row_to_put<'a>(
    rows: &[Row<'a>],
    change: Change,
    bytes: Contents<'a>,
) -> Result<Row<'a>, HostFull>
    ensures { IfOk result (λ row. row ≡ row_to_put change bytes.entry (find (is_at change.to) rows.now)) }
{
    match find_row(rows, &change.to) {
        Some(old) => row_with(change, &old.name, old.attributes, bytes),
        None => row_with(change, &None, ResAttrs::from_bits_retain(0), bytes),
    }
}
