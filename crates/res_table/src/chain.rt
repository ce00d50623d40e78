//! The chain of open files.

use crate::row::Row;
use crate::rows::Rows;
use mac_base::error::HostFull;
use mac_base::handle::Handle;
use mac_base::name::Name;
use mac_base::resource::{ResAttrs, ResType};
use std::alloc::Global;
use std::marker::Model;

/// The table of an open file.
#[derive(Drop)]
pub struct ResourceTable<D> {
    /// The rows. Those of one type are together.
    pub rows: Rows<D>,
    /// The 112 bytes for the system and the 128 for the application.
    pub extra: [u8; 240],
    /// The attributes of the map.
    pub map_attributes: u16,
}

/// An open file: its number, and its table.
#[derive(Drop)]
pub struct OpenFile<D> {
    pub number: u8,
    pub table: ResourceTable<D>,
}

/// Where a row is: the number of its file, and its index in the table.
#[derive(Clone, Copy)]
pub struct RowPlace {
    pub file: u8,
    pub index: usize,
}

/// The open files, in the order of opening, and the number of the current one, if one is open (Inside Macintosh: More
/// Macintosh Toolbox, chapter 1, "The Resource File Search Order"). A contract sees the list and the number.
#[derive(Drop)]
pub struct Chain<D> {
    files: Vec<OpenFile<D>>,
    current: Option<u8>,
}

impl<D> Model for Chain<D> {
    ghost use Rattle.res_table.specs.OpenFiles.{OpenFiles};

    ghost Value = { OpenFiles D };

    ghost view = { λ c. record { files = c.files.items; current = c.current } };
}

impl<D> Chain<D> {
    ghost use Rattle.std.specs.Prelude.{◌≡◌, ◌<◌, length, OnOk, OnErr, IfSome, IfNone, IsSome, IsTrue, None, Some, position};
    ghost use Rattle.fork_bytes.specs.Fork.{max_rows};
    ghost use Rattle.res_table.specs.OpenFiles.{no_files, is_numbered, is_open, searched, place_of_resource, place_of_handle, handle_forgotten, file_opened, file_used, file_closed, is_current, last_number, place_here, place_in_file, place_of_name, name_here, named_in_file, row_at, rows_changed, table_of};
    ghost use Rattle.res_table.specs.Rows.{added, changed_at, removed_at, with_attributes, with_datum, with_handle};

    /// No open file. This takes no memory of the host.
    pub fn new(alloc: Global) -> Chain<D>
        ensures { result ≡ no_files }
    {
        Chain {
            files: Vec::new(alloc),
            current: None,
        }
    }

    /// The number of the current file, if a file is open (CurResFile).
    pub fn current(&self) -> Option<u8>
        ensures { result ≡ self.now.current }
    {
        self.current
    }

    /// The open files, in the order of opening.
    pub fn files(&self) -> &[OpenFile<D>]
        ensures { result.now ≡ self.now.files }
    {
        &self.files
    }

    /// Where in the order of opening the file of a number is.
    fn position_of(&self, number: u8) -> Option<usize>
        ensures { result ≡ position (is_numbered number) self.now.files }
    {
        self.files.iter().position(|file| file.number == number)
    }

    /// Whether the file of a number is open.
    pub fn is_open(&self, number: u8) -> bool
        ensures { result ≡ is_open number self.now }
    {
        self.files.iter().any(|file| file.number == number)
    }

    /// Adds a file after the others and makes it the current one (OpenResFile). Without host memory nothing is changed.
    pub fn open(&mut self, number: u8, table: ResourceTable<D>) -> Result<(), HostFull>
    where
        D: Drop,
        ensures opened { OnOk result (self.new ≡ file_opened number table self.old) }
        ensures same { OnErr result (self.new ≡ self.old) }
    {
        self.files.push(OpenFile { number, table })?;
        self.current = Some(number);
        Ok(())
    }

    /// Makes an open file the current one (UseResFile).
    pub fn use_file(&mut self, number: u8)
        ensures { self.new ≡ file_used number self.old }
    {
        self.current = Some(number);
    }

    /// How many files are looked through for a resource: those up to the current one.
    fn searched(&self) -> usize
        ensures { result ≡ searched self.now }
    {
        match self.current {
            Some(number) => match self.position_of(number) {
                Some(at) => at + 1,
                None => 0,
            },
            None => 0,
        }
    }

    /// Where the resource of a type and an id is: in the current file, or else in the latest before it that has one
    /// (GetResource).
    pub fn find(&self, kind: ResType, id: i16) -> Option<RowPlace>
        ensures { result ≡ place_of_resource kind id self.now }
    {
        let mut end = self.searched();
        while end > 0 {
            end -= 1;
            let file = &self.files[end];
            if let Some(index) = file.table.rows.find(kind, id) {
                return Some(RowPlace {
                    file: file.number,
                    index,
                });
            }
        }
        None
    }

    /// Where the first row of a type and a name is: in the current file, or else in the latest before it that has one
    /// (GetNamedResource).
    pub fn find_named(&self, kind: ResType, name: &[u8]) -> Option<RowPlace>
        ensures { result ≡ place_of_name kind name.now self.now }
    {
        let mut end = self.searched();
        while end > 0 {
            end -= 1;
            let file = &self.files[end];
            if let Some(index) = file.table.rows.find_named(kind, name) {
                return Some(RowPlace {
                    file: file.number,
                    index,
                });
            }
        }
        None
    }

    /// Where the row with a handle is, in any open file.
    pub fn row_of_handle(&self, handle: Handle) -> Option<RowPlace>
        ensures { result ≡ place_of_handle handle self.now }
    {
        for file in &self.files {
            if let Some(index) = file.table.rows.row_of_handle(handle) {
                return Some(RowPlace {
                    file: file.number,
                    index,
                });
            }
        }
        None
    }

    /// Makes each row of each open file forget a handle that is disposed of.
    pub fn forget(&mut self, handle: Handle)
        ensures { self.new ≡ handle_forgotten handle self.old }
    {
        let mut at = 0;
        while at < self.files.len() {
            self.files[at].table.rows.forget(handle);
            at += 1;
        }
    }

    /// The number of the latest open file.
    fn last_number(&self) -> Option<u8>
        ensures { result ≡ last_number self.now.files }
    {
        Some(self.files.last()?.number)
    }

    /// Whether the file of a number is the current one.
    fn is_current(&self, number: u8) -> bool
        ensures { result ≡ is_current number self.now }
    {
        self.current == Some(number)
    }

    /// Takes the file of a number out of the chain, and gives back its table, or None where it isn't open
    /// (CloseResFile). Where it was the current file, the latest of the others is.
    pub fn close(&mut self, number: u8) -> Option<ResourceTable<D>>
        ensures table { result ≡ table_of number self.old }
        ensures closed { self.new ≡ file_closed number self.old }
    {
        let at = self.position_of(number)?;
        let was_current = self.is_current(number);
        let file = self.files.remove(at);
        if was_current {
            self.current = self.last_number();
        }
        Some(file.table)
    }

    /// The table of the file of a number, or None where it isn't open.
    pub fn table(&self, number: u8) -> Option<&ResourceTable<D>>
        ensures some { IfSome result (λ table. table_of number self.now ≡ Some table.now) }
        ensures none { IfNone result (table_of number self.now ≡ None) }
    {
        let at = self.position_of(number)?;
        Some(&self.files[at].table)
    }

    /// The row at a place, or None where there is none.
    pub fn row(&self, place: RowPlace) -> Option<&Row<D>>
        ensures some { IfSome result (λ row. row_at place self.now ≡ Some row.now) }
        ensures none { IfNone result (row_at place self.now ≡ None) }
    {
        let table = self.table(place.file)?;
        if place.index >= table.rows.len() {
            return None;
        }
        Some(table.rows.row(place.index))
    }

    /// Where the resource of a type and an id is in the file of a number, if it is open and has one.
    fn find_in(&self, number: u8, kind: ResType, id: i16) -> Option<RowPlace>
        ensures { result ≡ place_in_file kind id self.now number }
    {
        let at = self.position_of(number)?;
        let file = &self.files[at];
        let index = file.table.rows.find(kind, id)?;
        Some(RowPlace {
            file: file.number,
            index,
        })
    }

    /// Where the resource of a type and an id is in the current file (Get1Resource).
    pub fn find_here(&self, kind: ResType, id: i16) -> Option<RowPlace>
        ensures { result ≡ place_here kind id self.now }
    {
        self.find_in(self.current?, kind, id)
    }

    /// Where the first row of a type and a name is in the file of a number, if it is open and has one.
    fn find_named_in(&self, number: u8, kind: ResType, name: &[u8]) -> Option<RowPlace>
        ensures { result ≡ named_in_file kind name.now self.now number }
    {
        let at = self.position_of(number)?;
        let file = &self.files[at];
        let index = file.table.rows.find_named(kind, name)?;
        Some(RowPlace {
            file: file.number,
            index,
        })
    }

    /// Where the first row of a type and a name is in the current file (Get1NamedResource).
    pub fn find_named_here(&self, kind: ResType, name: &[u8]) -> Option<RowPlace>
        ensures { result ≡ name_here kind name.now self.now }
    {
        self.find_named_in(self.current?, kind, name)
    }

    /// Gives the row at a place this handle, or none.
    pub fn set_handle(&mut self, place: RowPlace, handle: Option<Handle>)
        requires { IsSome (row_at place self.old) }
        ensures { self.new ≡ rows_changed place.file (changed_at place.index (with_handle handle)) self.old }
    {
        let at = self.position_of(place.file).unwrap();
        self.files[at].table.rows.set_handle(place.index, handle);
    }

    /// Gives the row at a place these attributes.
    pub fn set_attributes(&mut self, place: RowPlace, attributes: ResAttrs)
        requires { IsSome (row_at place self.old) }
        ensures { self.new ≡ rows_changed place.file (changed_at place.index (with_attributes attributes)) self.old }
    {
        let at = self.position_of(place.file).unwrap();
        self.files[at]
            .table
            .rows
            .set_attributes(place.index, attributes);
    }

    /// Gives the row at a place this datum.
    pub fn set_datum(&mut self, place: RowPlace, datum: D)
    where
        D: Drop,
        requires { IsSome (row_at place self.old) }
        ensures { self.new ≡ rows_changed place.file (changed_at place.index (with_datum datum)) self.old }
    {
        let at = self.position_of(place.file).unwrap();
        self.files[at].table.rows.set_datum(place.index, datum);
    }

    /// Takes out the row at a place. Its handle lives on.
    pub fn remove(&mut self, place: RowPlace) -> Option<Row<D>>
        requires { IsSome (row_at place self.old) }
        ensures row { result ≡ row_at place self.old }
        ensures rows { self.new ≡ rows_changed place.file (removed_at place.index) self.old }
    {
        let at = self.position_of(place.file).unwrap();
        Some(self.files[at].table.rows.remove(place.index))
    }

    /// Adds a row to the file of a number, which has fewer than 8,192, after the last of its type, or last where there
    /// is none. Without host memory nothing is changed.
    pub fn add(&mut self, number: u8, row: Row<D>) -> Result<(), HostFull>
    where
        D: Drop,
        requires open { IsTrue (is_open number self.old) }
        requires room { IfSome (table_of number self.old) (λ table. length table.rows < max_rows) }
        ensures added { OnOk result (self.new ≡ rows_changed number (added row) self.old) }
        ensures same { OnErr result (self.new ≡ self.old) }
    {
        let at = self.position_of(number).unwrap();
        self.files[at].table.rows.add(row)
    }
}

impl<D> Chain<D> {
    ghost use Rattle.std.specs.Prelude.{◌≡◌, ◌≤◌, length, OnOk, OnErr, IfSome, IsSome};
    ghost use Rattle.fork_bytes.specs.Fork.{max_rows};
    ghost use Rattle.res_table.specs.Info.{with_info};
    ghost use Rattle.res_table.specs.OpenFiles.{row_at, rows_changed, table_of};
    ghost use Rattle.res_table.specs.Rows.{changed_at};

    /// Gives the row at a place, in a file of at most 8,192, this id, and this name where one is given. Without host
    /// memory nothing is changed.
    pub fn set_info(&mut self, place: RowPlace, id: i16, name: Option<Name>) -> Result<(), HostFull>
        requires there { IsSome (row_at place self.old) }
        requires few { IfSome (table_of place.file self.old) (λ table. length table.rows ≤ max_rows) }
        ensures set { OnOk result (self.new ≡ rows_changed place.file (changed_at place.index (with_info id name)) self.old) }
        ensures same { OnErr result (self.new ≡ self.old) }
    {
        let at = self.position_of(place.file).unwrap();
        self.files[at].table.rows.set_info(place.index, id, name)
    }
}
