//! What is asked of the open files.

ghost use Rattle.std.specs.Prelude.{◌≡◌, ◌≤◌, ◌+◌, ◌++◌, ◌∷◌, ◌&&◌, List, length, drop, All, IfSome, IfNone, IsSome, IsTrue, Some, None, option_map};
ghost use Rattle.std.specs.Option.{option_and_then, IsSomeAnd};
ghost use Rattle.fork_bytes.specs.Fork.{max_rows};
ghost use Rattle.res_table.specs.OpenFiles.{is_open, place_of_resource, place_here, place_of_handle, place_of_name, name_here, row_at};
ghost use Rattle.res_table.specs.Rows.{count_of_type, unique_id, ith, index_of_ith, is_changed};
ghost use Rattle.res_update.specs.Changes.{FileRow, current_rows, rows_of};
ghost use Rattle.res_update.specs.Files.{current_types};
ghost use Rattle.res_files.specs.FilesOn.{Shows};
ghost use Rattle.res_files.specs.Handles.{is_among};
ghost use Rattle.std.specs.List.{list_any};

use crate::current::current_rows;
use crate::files::ResourceFiles;
use crate::handles::{has_changed_row_among, has_row_among, next_handle};
use fork_bytes::place::Place;
use fork_disk::store::ForkStore;
use mac_base::handle::Handle;
use mac_base::resource::ResType;
use res_table::chain::RowPlace;
use res_table::row::Row;

/// The least id that UniqueID gives.
const FIRST_FREE_ID: u32 = 128;

impl<S: ForkStore> ResourceFiles<S> {
    /// The number of the current file, if a file is open.
    pub fn current(&self) -> Option<u8>
        ensures value { result ≡ self.now.files.current }
        ensures open { IfSome result (λ number. IsTrue (is_open number self.now.files)) }
    {
        self.chain.current()
    }

    /// Whether the file of a number is open.
    pub fn is_open(&self, number: u8) -> bool
        ensures { result ≡ is_open number self.now.files }
    {
        self.chain.is_open(number)
    }

    /// Where the resource of a type and an id is: in the current file, or else in the latest before it that has one.
    pub fn find(&self, kind: ResType, id: i16) -> Option<RowPlace>
        ensures value { result ≡ place_of_resource kind id self.now.files }
        ensures there { IfSome result (λ place. IsSome (row_at place self.now.files)) }
    {
        self.chain.find(kind, id)
    }

    /// Where it is in the current file.
    pub fn find_here(&self, kind: ResType, id: i16) -> Option<RowPlace>
        ensures value { result ≡ place_here kind id self.now.files }
        ensures there { IfSome result (λ place. IsSome (row_at place self.now.files)) }
    {
        self.chain.find_here(kind, id)
    }

    /// Where the first row of a type and a name is: in the current file, or else in the latest before it that has one.
    pub fn find_named(&self, kind: ResType, name: &[u8]) -> Option<RowPlace>
        ensures value { result ≡ place_of_name kind name.now self.now.files }
        ensures there { IfSome result (λ place. IsSome (row_at place self.now.files)) }
    {
        self.chain.find_named(kind, name)
    }

    /// Where it is in the current file.
    pub fn find_named_here(&self, kind: ResType, name: &[u8]) -> Option<RowPlace>
        ensures value { result ≡ name_here kind name.now self.now.files }
        ensures there { IfSome result (λ place. IsSome (row_at place self.now.files)) }
    {
        self.chain.find_named_here(kind, name)
    }

    /// Where the resource of a type with this index, from 1 on, is in the current file.
    pub fn find_ith(&self, kind: ResType, index: u32) -> Option<RowPlace>
        ensures value { result ≡ option_and_then (λ k. option_map (λ at. record { file = k; index = at }) (index_of_ith kind index (current_rows self.now.files))) self.now.files.current }
        ensures there { IfSome result (λ place. IsSome (row_at place self.now.files)) }
    {
        let file = self.chain.current()?;
        let rows = current_rows(&self.chain)?;
        let index = rows.index_of_ith(kind, index as usize)?;
        Some(RowPlace { file, index })
    }

    /// Where the row with a handle is, in any open file.
    pub fn row_of_handle(&self, handle: Handle) -> Option<RowPlace>
        ensures value { result ≡ place_of_handle handle self.now.files }
        ensures there { IfSome result (λ place. IsSomeAnd (row_at place self.now.files) (λ r. r.handle ≡ Some handle)) }
    {
        self.chain.row_of_handle(handle)
    }

    /// The row at a place, with the place of its bytes.
    pub fn row(&self, place: RowPlace) -> Option<&Row<Place>>
        ensures some { IfSome result (λ row. (shown : FileRow) × (row_at place self.now.files ≡ Some shown) × Shows row.now shown) }
        ensures none { IfNone result (row_at place self.now.files ≡ None) }
    {
        self.chain.row(place)
    }

    /// How many types the current file has.
    pub fn count_types(&self) -> u32
        ensures { result ≡ length (current_types self.now.files) }
    {
        match current_rows(&self.chain) {
            Some(rows) => rows.count_types() as u32,
            None => 0,
        }
    }

    /// The type of the current file with this index, from 1 on.
    pub fn type_of_ith(&self, index: u32) -> Option<ResType>
        ensures { result ≡ ith index (current_types self.now.files) }
    {
        let rows = current_rows(&self.chain)?;
        rows.type_of_ith(index as usize)
    }

    /// How many resources of a type the current file has.
    pub fn count_of_type(&self, kind: ResType) -> u32
        ensures { result ≡ count_of_type kind (current_rows self.now.files) }
    {
        match current_rows(&self.chain) {
            Some(rows) => rows.count_of_type(kind) as u32,
            None => 0,
        }
    }

    /// The least id from 128 on that no resource of a type has in the current file.
    pub fn unique_id(&self, kind: ResType) -> u32
        ensures { result ≡ unique_id kind (current_rows self.now.files) }
    {
        match current_rows(&self.chain) {
            Some(rows) => rows.unique_id(kind) as u32,
            None => FIRST_FREE_ID,
        }
    }

    /// The handle of a row of the file of a number, from an index on: the first that is there.
    pub fn next_handle(&self, number: u8, from: usize) -> Option<(usize, Handle)>
        ensures some { IfSome result (λ found. (before : List FileRow) × (r : FileRow) × (after : List FileRow)
            × (drop from (rows_of number self.now.files) ≡ before ++ r ∷ after) × All (λ other. other.handle ≡ None) before
            × (r.handle ≡ Some found.1) × (found.0 ≡ from + length before)) }
        ensures none { IfNone result (All (λ r. r.handle ≡ None) (drop from (rows_of number self.now.files))) }
        ensures few { length (rows_of number self.now.files) ≤ max_rows }
    {
        let table = self.chain.table(number)?;
        next_handle(&table.rows, from)
    }

    /// Whether there is a row of the file of a number that has one of these handles.
    pub fn has_row_among(&self, number: u8, handles: &[u32]) -> bool
        ensures { result ≡ list_any (is_among handles.now) (rows_of number self.now.files) }
    {
        match self.chain.table(number) {
            Some(table) => has_row_among(&table.rows, handles),
            None => false,
        }
    }

    /// Whether there is a changed row of the file of a number that has one of these handles.
    pub fn has_changed_row_among(&self, number: u8, handles: &[u32]) -> bool
        ensures { result ≡ list_any (λ r. is_changed r && is_among handles.now r) (rows_of number self.now.files) }
    {
        match self.chain.table(number) {
            Some(table) => has_changed_row_among(&table.rows, handles),
            None => false,
        }
    }
}
