//! A row: a resource while its file is open.

use crate::attributes::unmarked;
use crate::keys::{key_of_handle, key_of_resource};
use crate::names::is_same_name;
use bitflags::Flags;
use mac_base::handle::Handle;
use mac_base::name::Name;
use mac_base::resource::{ResAttrs, ResType, Resource};

/// A resource of an open file, and its handle, if it has one (Inside Macintosh: More Macintosh Toolbox, chapter 1).
#[derive(Drop)]
pub struct Row<D> {
    pub resource: Resource<D>,
    pub handle: Option<Handle>,
}

impl<D> Row<D> {
    ghost use Rattle.std.specs.Prelude.{◌≡◌, ◌==◌, ◌≤◌};
    ghost use Rattle.res_table.specs.Keyed.{key_of_resource};
    ghost use Rattle.res_table.specs.Indexed.{handle_key, most_name_size, IsTold};
    ghost use Rattle.res_table.specs.Names.{is_named};
    ghost use Rattle.res_table.specs.Rows.{is_of_type, is_resource, is_changed, changed_handle, name_size, opened_row};

    /// The row of a resource that was read: it has no handle and is not changed.
    pub fn opened(resource: Resource<D>) -> Row<D>
        ensures { result ≡ opened_row resource }
    {
        let Resource {
            kind,
            id,
            name,
            attributes,
            datum,
        } = resource;
        Row {
            resource: Resource {
                kind,
                id,
                name,
                attributes: unmarked(attributes),
                datum,
            },
            handle: None,
        }
    }

    /// The row's type.
    pub fn kind(&self) -> ResType
        ensures { result ≡ self.now.resource.kind }
    {
        self.resource.kind
    }

    /// The key of the row's handle, if it has one.
    pub(crate) fn handle_key(&self) -> Option<u64>
        ensures { result ≡ handle_key self.now }
    {
        self.handle.map(key_of_handle)
    }

    /// The key of the row's type and id.
    pub(crate) fn resource_key(&self) -> u64
        ensures key { result ≡ key_of_resource self.now.resource.kind self.now.resource.id }
        ensures told { IsTold self.now }
    {
        key_of_resource(self.resource.kind, self.resource.id)
    }

    /// How many bytes the row's name takes in a fork, with its byte of length.
    pub(crate) fn name_size(&self) -> usize
        ensures size { result ≡ name_size self.now }
        ensures short { name_size self.now ≤ most_name_size }
    {
        match &self.resource.name {
            Some(name) => 1 + name.as_slice().len(),
            None => 0,
        }
    }

    /// Whether the row has the key of a type and an id: it is of that type then, and has that id.
    pub(crate) fn has_key_of(&self, kind: ResType, id: i16) -> bool
        ensures key { result ≡ (key_of_resource self.now.resource.kind self.now.resource.id == key_of_resource kind id) }
        ensures resource { result ≡ is_resource kind id self.now }
    {
        key_of_resource(self.resource.kind, self.resource.id) == key_of_resource(kind, id)
    }

    /// Whether the row is of a type.
    pub fn is_of_type(&self, kind: ResType) -> bool
        ensures { result ≡ is_of_type kind self.now }
    {
        self.resource.kind == kind
    }

    /// Whether the row has a type and an id.
    pub fn is_resource(&self, kind: ResType, id: i16) -> bool
        ensures { result ≡ is_resource kind id self.now }
    {
        self.resource.kind == kind && self.resource.id == id
    }

    /// Whether the row has a type, and a name that is this one but for the case of letters.
    pub(crate) fn is_named(&self, kind: ResType, name: &[u8]) -> bool
        ensures { result ≡ is_named kind name.now self.now }
    {
        match &self.resource.name {
            Some(own) => self.resource.kind == kind && is_same_name(name, own.as_slice()),
            None => false,
        }
    }

    /// Whether the row is changed: it is to be written (resChanged).
    pub fn is_changed(&self) -> bool
        ensures { result ≡ is_changed self.now }
    {
        self.resource.attributes.contains(ResAttrs::CHANGED)
    }

    /// The row's handle, if it is changed and has one.
    pub(crate) fn changed_handle(&self) -> Option<Handle>
        ensures { result ≡ changed_handle self.now }
    {
        if self.is_changed() { self.handle } else { None }
    }
}

impl<D> Row<D> {
    ghost use Rattle.std.specs.Prelude.{◌≡◌};
    ghost use Rattle.res_table.specs.Info.{with_info};

    /// Gives the row this id, and this name where one is given.
    pub(crate) fn set_info(&mut self, id: i16, name: Option<Name>)
        ensures { self.new ≡ with_info id name self.old }
    {
        self.resource.id = id;
        if let Some(name) = name {
            self.resource.name = Some(name);
        }
    }
}
