//! The rows of an open file, in order.

use crate::keyed::{Keyed, Pair};
use crate::keys::{key_of_handle, key_of_resource};
use crate::kinds::{Kinds, ith_type};
use crate::row::Row;
use crate::runs::{MAX_NAME_OFFSET, MAX_OFFSET, names_fit, run_end};
use fork_bytes::layout::MAX_ROWS;
use mac_base::error::HostFull;
use mac_base::handle::Handle;
use mac_base::name::Name;
use mac_base::resource::{ResAttrs, ResType, Resource};
use std::alloc::Global;
use std::marker::Model;

/// The first id that is looked at for a new row.
pub(crate) const FIRST_ID: u16 = 128;

/// The largest id.
const MAX_ID: u64 = 32_767;

/// How many ids a type may have.
const IDS: u64 = 65_536;

/// The rows of an open file, in order. A contract sees the list. A row is found by its handle, or by its type and id,
/// without going through the rows, what is asked of a type goes through the runs of rows of one type alone, and the
/// size of the names is kept. So are the handles of changed rows, since an update that is too big goes over them at
/// each try.
#[derive(Drop)]
pub struct Rows<D> {
    rows: Vec<Row<D>>,
    handles: Keyed,
    kinds: Kinds,
    resources: Keyed,
    names: usize,
    changed: Vec<Option<Handle>>,
}

impl<D> Model for Rows<D> {
    ghost use Rattle.std.specs.Prelude.{◌≡◌, ◌≤◌, List, length, map, All};
    ghost use Rattle.res_table.specs.declared.row.Row.{Row};
    ghost use Rattle.res_table.specs.Kinds.{expanded};
    ghost use Rattle.res_table.specs.Indexed.{pairs_of, handle_key, resource_key, kinds_of, IsKept};
    ghost use Rattle.res_table.specs.Rows.{names_size, changed_handle};

    ghost Value = { List (Row D) };

    ghost view = { λ r. r.rows.items };

    ghost invariant = { λ r. (r.handles.pairs ≡ pairs_of handle_key r.rows.items) × (length r.rows.items ≤ r.handles.room)
        × (expanded r.kinds.runs ≡ kinds_of r.rows.items) × (r.resources.pairs ≡ pairs_of resource_key r.rows.items)
        × (r.names ≡ names_size r.rows.items) × (All IsKept r.rows.items) × (r.changed.items ≡ map changed_handle r.rows.items) };
}

impl<D> Rows<D> {
    ghost use Rattle.std.specs.Prelude.{◌≡◌, ◌<◌, ◌+◌, [], length, position, remove, slice_get, get_or, count_by, ◌≤◌, OnOk, OnErr, IfOk, IfSome, IfNone, Some, map, ◌↔◌, pos, IsTrue};
    ghost use Rattle.std.specs.List.{AllByRecursion, list_any};
    ghost use Rattle.fork_bytes.specs.Fork.{max_rows};
    ghost use Rattle.res_table.specs.Saved.{row_types, kind_of, RowsFit};
    ghost use Rattle.res_table.specs.Names.{is_named};
    ghost use Rattle.res_table.specs.Rows.{has_handle, has_changed, is_resource, is_of_type, added, forgotten, changed_at, with_handle, with_attributes, with_datum, opened_row, count_of_type, index_of_ith, ith, names_size, unique_id, largest_id, AreTaken, IsFree, changed_handle};
    ghost use Rattle.res_table.specs.After.{end_of_type};

    /// No rows. This takes no memory of the host.
    pub fn new(alloc: Global) -> Rows<D>
        ensures { result ≡ [] }
    {
        Rows {
            rows: Vec::new(alloc),
            handles: Keyed::new(alloc),
            kinds: Kinds::new(alloc),
            resources: Keyed::new(alloc),
            names: 0,
            changed: Vec::new(alloc),
        }
    }

    /// The rows of resources that were read, at most 8,192: none has a handle, and none is changed. The only error is
    /// that the host has no memory.
    pub fn opened(alloc: Global, resources: Vec<Resource<D>>) -> Result<Rows<D>, HostFull>
    where
        D: Drop,
        requires { length resources.items ≤ max_rows }
        ensures { IfOk result (λ rows. rows ≡ map opened_row resources.items) }
    {
        let mut rows = Vec::with_capacity(alloc, resources.len())?;
        let mut kinds = Kinds::new(alloc);
        let mut keys = Vec::with_capacity(alloc, resources.len())?;
        let mut names = 0;
        let mut changed = Vec::with_capacity(alloc, resources.len())?;
        for resource in resources {
            let row = Row::opened(resource);
            names += row.name_size();
            kinds.push(row.kind())?;
            keys.push(Pair {
                key: row.resource_key(),
                place: rows.len(),
            })?;
            changed.push(row.changed_handle())?;
            rows.push(row)?;
        }
        kinds.settle();
        let mut handles = Keyed::new(alloc);
        handles.reserve(rows.len())?;
        Ok(Rows {
            rows,
            handles,
            kinds,
            resources: Keyed::sorted(keys),
            names,
            changed,
        })
    }

    /// How many rows there are.
    pub fn len(&self) -> usize
        ensures { result ≡ length self.now }
    {
        self.rows.len()
    }

    /// The row at an index.
    pub fn row(&self, index: usize) -> &Row<D>
        requires { index < length self.now }
        ensures { slice_get self.now index ≡ Some result.now }
    {
        &self.rows[index]
    }

    /// Where the first row of a type and an id is.
    pub fn find(&self, kind: ResType, id: i16) -> Option<usize>
        ensures { result ≡ position (is_resource kind id) self.now }
    {
        let index = self.resources.find(key_of_resource(kind, id))?;
        prove!(self.rows[index].has_key_of(kind, id));
        Some(index)
    }

    /// Where the first row of a type is whose name is this one but for the case of letters.
    pub fn find_named(&self, kind: ResType, name: &[u8]) -> Option<usize>
        ensures { result ≡ position (is_named kind name.now) self.now }
    {
        self.rows.iter().position(|row| row.is_named(kind, name))
    }

    /// Where the first row with a handle is.
    pub fn row_of_handle(&self, handle: Handle) -> Option<usize>
        ensures { result ≡ position (has_handle handle) self.now }
    {
        self.handles.find(key_of_handle(handle))
    }

    /// Whether a changed row has a handle. Just the rows that have it are looked at.
    pub fn has_changed(&self, handle: Handle) -> bool
        ensures { result ≡ has_changed handle self.now }
    {
        let key = key_of_handle(handle);
        for pair in self.handles.from_key(key) {
            if pair.key != key {
                return false;
            }
            if self.rows[pair.place].is_changed() {
                return true;
            }
        }
        false
    }

    /// Gives the row at an index this handle, or none.
    pub fn set_handle(&mut self, index: usize, handle: Option<Handle>)
        requires { index < length self.old }
        ensures { self.new ≡ changed_at index (with_handle handle) self.old }
    {
        let old = self.rows[index].handle_key();
        self.rows[index].handle = handle;
        let new = self.rows[index].handle_key();
        self.handles.remove(old, index);
        self.handles.add(new, index);
        self.changed[index] = self.rows[index].changed_handle();
    }

    /// Gives the row at an index these attributes.
    pub fn set_attributes(&mut self, index: usize, attributes: ResAttrs)
        requires { index < length self.old }
        ensures { self.new ≡ changed_at index (with_attributes attributes) self.old }
    {
        self.rows[index].resource.attributes = attributes;
        self.changed[index] = self.rows[index].changed_handle();
    }

    /// Gives the row at an index this datum.
    pub fn set_datum(&mut self, index: usize, datum: D)
    where
        D: Drop,
        requires { index < length self.old }
        ensures { self.new ≡ changed_at index (with_datum datum) self.old }
    {
        self.rows[index].resource.datum = datum;
    }

    /// How many rows a type has.
    pub fn count_of_type(&self, kind: ResType) -> usize
        ensures { result ≡ count_of_type kind self.now }
    {
        self.kinds.count(kind)
    }

    /// Where a new row of a type belongs.
    fn end_of_type(&self, kind: ResType) -> usize
        ensures { result ≡ end_of_type kind self.now }
    {
        self.kinds.end(kind, self.rows.len())
    }

    /// Adds a row after the last of its type, or last where there is none, to fewer than 8,192. Without host memory
    /// nothing is changed.
    pub fn add(&mut self, row: Row<D>) -> Result<(), HostFull>
    where
        D: Drop,
        requires { length self.old < max_rows }
        ensures added { OnOk result (self.new ≡ added row self.old) }
        ensures same { OnErr result (self.new ≡ self.old) }
    {
        let kind = row.kind();
        let at = self.end_of_type(kind);
        let handle = row.handle_key();
        let key = row.resource_key();
        let changed = row.changed_handle();
        let count = self.rows.len();
        let names = self.names + row.name_size();
        self.handles.reserve(count + 1)?;
        self.kinds.reserve()?;
        self.resources.reserve(count + 1)?;
        self.changed.reserve(1)?;
        self.rows.insert(at, row)?;
        self.handles.push_back(at, count);
        self.handles.add(handle, at);
        self.kinds.add(kind);
        self.resources.push_back(at, count);
        self.resources.add(Some(key), at);
        self.names = names;
        let _ = self.changed.insert(at, changed);
        Ok(())
    }

    /// Takes out the row at an index. Its handle lives on.
    pub fn remove(&mut self, index: usize) -> Row<D>
        requires { index < length self.old }
        ensures row { slice_get self.old index ≡ Some result }
        ensures rows { self.new ≡ remove self.old index }
    {
        let row = self.rows.remove(index);
        self.handles.remove(row.handle_key(), index);
        self.handles.pull_up(index);
        self.kinds.remove(index);
        self.resources.remove(Some(row.resource_key()), index);
        self.resources.pull_up(index);
        self.names -= row.name_size();
        let _changed = self.changed.remove(index);
        row
    }

    /// Makes each row forget a handle that is disposed of.
    pub fn forget(&mut self, handle: Handle)
        ensures { self.new ≡ forgotten handle self.old }
    {
        while let Some(index) = self.row_of_handle(handle) {
            self.set_handle(index, None);
        }
    }

    /// The index of the i-th row of a type, counted from 1.
    pub fn index_of_ith(&self, kind: ResType, i: usize) -> Option<usize>
        ensures { result ≡ index_of_ith kind i self.now }
    {
        self.kinds.ith(kind, i)
    }

    /// How many bytes the names take in a fork, each with its byte of length.
    pub fn names_size(&self) -> usize
        ensures { result ≡ names_size self.now }
    {
        self.names
    }

    /// For each row its handle, where it is changed. So an update goes over the rows that it writes without reading
    /// them. Each row's type has four bytes.
    pub fn changed_handles(&self) -> &[Option<Handle>]
        ensures handles { result.now ≡ map changed_handle self.now }
        ensures four { AllByRecursion (λ r. length r.resource.kind ≡ 4) self.now }
    {
        &self.changed
    }

    /// How many types there are (CountTypes). Rows of one type are together.
    pub fn count_types(&self) -> usize
        ensures types { result ≡ length (row_types self.now) }
        ensures few { result ≤ length self.now }
    {
        match self.kinds.types() {
            Some(types) => types.len(),
            None => self.kinds.count_types(),
        }
    }

    /// The i-th type, counted from 1, or None where there are fewer (GetIndType).
    pub fn type_of_ith(&self, i: usize) -> Option<ResType>
        ensures { result ≡ ith i (map kind_of (row_types self.now)) }
    {
        match self.kinds.types() {
            Some(types) => ith_type(types, i),
            None => self.type_of_ith_run(i),
        }
    }

    /// The type of the i-th run of rows that are together, counted from 1.
    fn type_of_ith_run(&self, i: usize) -> Option<ResType>
        ensures { result ≡ ith i (map kind_of (row_types self.now)) }
    {
        let mut at = 0;
        let mut left = i;
        while at < self.rows.len() {
            if left == 1 {
                return Some(self.rows[at].kind());
            }
            at = run_end(&self.rows, at);
            left = left.saturating_sub(1);
        }
        None
    }

    /// The least id from 128 on that no row of a type has (UniqueID): at most 8,320, since there are at most 8,192
    /// rows.
    pub fn unique_id(&self, kind: ResType) -> i16
        requires { length self.now ≤ max_rows }
        ensures { result ≡ pos (unique_id kind self.now) }
    {
        // At most 8,192 of the 32,640 ids from 128 on are taken, so one is free.
        let id = self.free_id(kind, FIRST_ID).unwrap();
        id as i16
    }

    /// The least id from this one on that no row of a type has, or None where all up to the largest are taken.
    pub fn free_id(&self, kind: ResType, id: u16) -> Option<u16>
        requires { id ≤ largest_id }
        ensures some { IfSome result (λ free. (id ≤ free) × (free ≤ largest_id) × AreTaken kind id free self.now × IsFree kind free self.now) }
        ensures none { IfNone result (AreTaken kind id (largest_id + 1) self.now) }
    {
        let zero = key_of_resource(kind, 0);
        let free = self.resources.first_free_key(zero + u64::from(id)) - zero;
        if free > MAX_ID {
            return None;
        }
        Some(free as u16)
    }

    /// Whether a row is of a type. The keys of a type and any id follow one another.
    pub fn has_type(&self, kind: ResType) -> bool
        ensures { result ≡ list_any (is_of_type kind) self.now }
    {
        let first = key_of_resource(kind, 0);
        match self.resources.from_key(first).first() {
            Some(pair) => pair.key < first + IDS,
            None => false,
        }
    }

    /// Whether the table of these rows fits a fork: there are at most 8,192, and two bytes hold each offset in the map.
    /// The rows are gone through only where their names together have more bytes than the largest offset of a name.
    pub fn fits(&self) -> bool
        ensures { IsTrue result ↔ RowsFit self.now }
    {
        if self.rows.len() > MAX_ROWS {
            return false;
        }
        let names = 30 + 8 * self.count_types() + 12 * self.rows.len();
        if names > MAX_OFFSET {
            return false;
        }
        self.names <= MAX_NAME_OFFSET || names_fit(&self.rows)
    }
}

impl<D> Rows<D> {
    ghost use Rattle.std.specs.Prelude.{◌≡◌, ◌<◌, ◌≤◌, length, OnOk, OnErr};
    ghost use Rattle.fork_bytes.specs.Fork.{max_rows};
    ghost use Rattle.res_table.specs.Info.{with_info};
    ghost use Rattle.res_table.specs.Rows.{changed_at};

    /// Gives the row at an index, of at most 8,192, this id, and this name where one is given. Without host memory
    /// nothing is changed.
    pub fn set_info(&mut self, index: usize, id: i16, name: Option<Name>) -> Result<(), HostFull>
        requires within { index < length self.old }
        requires few { length self.old ≤ max_rows }
        ensures set { OnOk result (self.new ≡ changed_at index (with_info id name) self.old) }
        ensures same { OnErr result (self.new ≡ self.old) }
    {
        self.resources.reserve(self.rows.len())?;
        let old = self.rows[index].resource_key();
        let less = self.rows[index].name_size();
        self.rows[index].set_info(id, name);
        let new = self.rows[index].resource_key();
        let more = self.rows[index].name_size();
        self.resources.remove(Some(old), index);
        self.resources.add(Some(new), index);
        self.names = self.names - less + more;
        Ok(())
    }
}
