//! What changes the open files, and no disk.

ghost use Rattle.std.specs.Prelude.{◌≡◌, IsTrue, IsSome, OnOk, OnErr};
ghost use Rattle.res_table.specs.OpenFiles.{is_open, row_at, rows_changed, handle_forgotten, file_used, file_closed};
ghost use Rattle.res_table.specs.Rows.{removed_at, added, with_handle, with_attributes};
ghost use Rattle.res_table.specs.Saved.{bare};
ghost use Rattle.res_update.specs.Changes.{rows_of, row_changed};
ghost use Rattle.res_update.specs.Fitting.{rows_fit};
ghost use Rattle.res_update.specs.Updates.{new_row};

use crate::files::ResourceFiles;
use fork_bytes::place::Place;
use fork_disk::store::ForkStore;
use mac_base::error::HostFull;
use mac_base::handle::Handle;
use mac_base::name::Name;
use mac_base::resource::{ResAttrs, ResType, Resource};
use res_table::chain::RowPlace;
use res_table::row::Row;

/// The place of no bytes.
const NO_BYTES: Place = Place {
    offset: 0,
    length: 0,
};

impl<S: ForkStore> ResourceFiles<S> {
    /// Gives the row at a place this handle, or none.
    pub fn set_handle(&mut self, place: RowPlace, handle: Option<Handle>)
        requires { IsSome (row_at place self.old.files) }
        ensures { self.new ≡ record self.old { files = row_changed place (with_handle handle) self.old.files } }
    {
        self.chain.set_handle(place, handle);
    }

    /// Gives the row at a place these attributes.
    pub fn set_attributes(&mut self, place: RowPlace, attributes: ResAttrs)
        requires { IsSome (row_at place self.old.files) }
        ensures { self.new ≡ record self.old { files = row_changed place (with_attributes attributes) self.old.files } }
    {
        self.chain.set_attributes(place, attributes);
    }

    /// Takes out the row at a place. Its handle lives on.
    pub fn remove(&mut self, place: RowPlace)
        requires { IsSome (row_at place self.old.files) }
        ensures { self.new ≡ record self.old { files = rows_changed place.file (removed_at place.index) self.old.files } }
    {
        self.chain.remove(place);
    }

    /// Adds a row to the file of a number, which is open: changed, without bytes on the disk, and with this handle.
    /// Without host memory nothing is changed.
    pub fn add(
        &mut self,
        number: u8,
        handle: Handle,
        kind: ResType,
        id: i16,
        name: Option<Name>,
    ) -> Result<(), HostFull>
        requires open { IsTrue (is_open number self.old.files) }
        requires fits { IsTrue (rows_fit (bare (added (new_row handle kind id name) (rows_of number self.old.files)))) }
        ensures added { OnOk result (self.new ≡ record self.old { files = rows_changed number (added (new_row handle kind id name)) self.old.files }) }
        ensures same { OnErr result (self.new ≡ self.old) }
    {
        self.chain.add(
            number,
            Row {
                resource: Resource {
                    kind,
                    id,
                    name,
                    attributes: ResAttrs::CHANGED,
                    datum: NO_BYTES,
                },
                handle: Some(handle),
            },
        )
    }

    /// Makes each row of each open file forget a handle that is disposed of.
    pub fn forget(&mut self, handle: Handle)
        ensures { self.new ≡ record self.old { files = handle_forgotten handle self.old.files } }
    {
        self.chain.forget(handle);
    }

    /// Makes an open file the current one.
    pub fn use_file(&mut self, number: u8)
        requires { IsTrue (is_open number self.old.files) }
        ensures { self.new ≡ record self.old { files = file_used number self.old.files } }
    {
        self.chain.use_file(number);
    }

    /// Closes the file of a number without writing it.
    pub fn close(&mut self, number: u8)
        ensures { self.new ≡ record self.old { files = file_closed number self.old.files } }
    {
        self.chain.close(number);
    }
}
