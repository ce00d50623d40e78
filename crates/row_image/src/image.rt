//! The rows of a file as a fork: the bytes of its resources say where those of the rows are, and their handles.

ghost use Rattle.std.specs.Prelude.{◌≡◌, ◌≤◌, List, length, map, IfOk, IsErrOf};
ghost use Rattle.std.specs.List.{AllByRecursion};
ghost use Rattle.fork_bytes.specs.declared.place.Place.{Place};
ghost use Rattle.fork_bytes.specs.Fork.{max_rows};
ghost use Rattle.fork_bytes.specs.Laws.{IsGrouped};
ghost use Rattle.res_table.specs.Rows.{opened_row};
ghost use Rattle.res_table.specs.Saved.{bare};
ghost use Rattle.res_table.specs.declared.chain.ResourceTable.{ResourceTable};
ghost use Rattle.res_table.specs.declared.row.Row.{Row};
ghost use Rattle.row_image.specs.Reading.{row_in, IsReadAs};
ghost use Rattle.row_image.specs.Infos.{image_text, info_resource};
ghost use Rattle.row_image.specs.Images.{HasImage, IsToldRow, as_opened};

use crate::fault::SaveFault;
use crate::info::RowInfo;
use fork_bytes::fault::{ForkFault, WriteFault};
use fork_bytes::place::Place;
use fork_bytes::{read_fork, table, write_rows};
use mac_base::error::HostFull;
use mac_base::name::Name;
use mac_base::resource::Resource;
use res_table::chain::ResourceTable;
use res_table::row::Row;
use res_table::rows::Rows;
use std::alloc::Global;

/// The same name once more, if there is one. It shares the bytes.
fn shared(name: &Option<Name>) -> Result<Option<Name>, HostFull>
    ensures { IfOk result (λ copy. copy ≡ name.now) }
{
    match name {
        Some(name) => Ok(Some(name.clone()?)),
        None => Ok(None),
    }
}

/// The resource that says what a row is.
fn info_resource(row: &Row<Place>) -> Result<Resource<RowInfo>, HostFull>
    ensures resource { IfOk result (λ made. made ≡ info_resource row.now) }
    ensures told { IsToldRow row.now }
{
    let resource = &row.resource;
    let datum = RowInfo::of(row);
    let name = shared(&resource.name)?;
    Ok(Resource {
        kind: resource.kind,
        id: resource.id,
        name,
        attributes: resource.attributes,
        datum,
    })
}

/// The resources that say what rows are.
fn info_rows(alloc: Global, rows: &Rows<Place>) -> Result<Vec<Resource<RowInfo>>, HostFull>
    ensures rows { IfOk result (λ made. made.items ≡ map info_resource rows.now) }
    ensures told { IfOk result (λ _. AllByRecursion IsToldRow rows.now) }
{
    let mut made = Vec::with_capacity(alloc, rows.len())?;
    for index in 0..rows.len() {
        let resource = info_resource(rows.row(index))?;
        made.push(resource)?;
    }
    Ok(made)
}

/// The rows of a file as a fork. The fault is NotSound exactly where no fork can have them.
pub fn image_of(alloc: Global, table: &ResourceTable<Place>) -> Result<Vec<u8>, SaveFault>
    requires { IsGrouped (bare table.now.rows) }
    ensures written { IfOk result (λ image. image.items ≡ image_text table.now) }
    ensures has { IfOk result (λ _. HasImage table.now) }
    ensures refused { IsErrOf result SaveFault.NotSound → ¬ HasImage table.now }
{
    let rows = info_rows(alloc, &table.rows)?;
    match write_rows(alloc, &rows, &table.extra, table.map_attributes) {
        Ok(image) => Ok(image),
        Err(WriteFault::TooBig) => Err(SaveFault::NotSound),
        Err(WriteFault::HostFull) => Err(SaveFault::HostFull),
    }
}

/// The row of which a resource says what it is; NotSound where its bytes don't say it.
fn row_of(resource: &table::Row) -> Result<Row<Place>, SaveFault>
    ensures row { IfOk result (λ row. row_in resource.now ≡ Some row) }
    ensures refused { IsErrOf result SaveFault.NotSound → row_in resource.now ≡ None }
{
    let Some(info) = RowInfo::read(resource.datum.as_slice()) else {
        return Err(SaveFault::NotSound);
    };
    let name = shared(&resource.name)?;
    Ok(Row {
        resource: Resource {
            kind: resource.kind,
            id: resource.id,
            name,
            attributes: resource.attributes,
            datum: info.place,
        },
        handle: info.handle,
    })
}

/// The rows of which resources say what they are.
fn rows_of(alloc: Global, resources: &[table::Row]) -> Result<Vec<Row<Place>>, SaveFault>
    ensures rows { IfOk result (λ rows. map row_in resources.now ≡ map Some rows.items) }
    ensures refused { IsErrOf result SaveFault.NotSound → (rows : List (Row Place)) → map row_in resources.now ≡ map Some rows → ⊥ }
{
    let Ok(mut rows) = Vec::with_capacity(alloc, resources.len()) else {
        return Err(SaveFault::HostFull);
    };
    for resource in resources {
        let row = row_of(resource)?;
        if rows.push(row).is_err() {
            return Err(SaveFault::HostFull);
        }
    }
    Ok(rows)
}

/// The resources of rows.
fn resources_of(alloc: Global, rows: &[Row<Place>]) -> Result<Vec<Resource<Place>>, HostFull>
    ensures { IfOk result (λ resources. map opened_row resources.items ≡ map as_opened rows.now) }
{
    let mut resources = Vec::with_capacity(alloc, rows.len())?;
    for row in rows {
        resources.push(Resource {
            kind: row.resource.kind,
            id: row.resource.id,
            name: shared(&row.resource.name)?,
            attributes: row.resource.attributes,
            datum: row.resource.datum,
        })?;
    }
    Ok(resources)
}

/// Gives rows as they are when a file is opened the handles and the attributes that these have.
fn restore(opened: &mut Rows<Place>, rows: &[Row<Place>])
    requires { opened.old ≡ map as_opened rows.now }
    ensures { opened.new ≡ rows.now }
{
    for (index, row) in rows.iter().enumerate() {
        opened.set_attributes(index, row.resource.attributes);
        opened.set_handle(index, row.handle);
    }
}

/// These rows, at most 8,192, as those of a file.
fn rows_with(alloc: Global, rows: &[Row<Place>]) -> Result<Rows<Place>, HostFull>
    requires { length rows.now ≤ max_rows }
    ensures { IfOk result (λ made. made ≡ rows.now) }
{
    let resources = resources_of(alloc, rows)?;
    let mut made = Rows::opened(alloc, resources)?;
    restore(&mut made, rows);
    Ok(made)
}

/// The table of a file whose rows are said by a fork.
pub fn table_of(alloc: Global, image: &[u8]) -> Result<ResourceTable<Place>, SaveFault>
    ensures again { (t : ResourceTable Place) → HasImage t → image.now ≡ image_text t → IsReadAs result t }
    ensures few { IfOk result (λ t. length t.rows ≤ max_rows) }
    ensures grouped { IfOk result (λ t. IsGrouped (bare t.rows)) }
{
    let fork = match read_fork(alloc, image) {
        Ok(fork) => fork,
        Err(ForkFault::HostFull) => return Err(SaveFault::HostFull),
        Err(_) => return Err(SaveFault::NotSound),
    };
    let rows = rows_of(alloc, fork.rows.as_slice())?;
    Ok(ResourceTable {
        rows: rows_with(alloc, &rows)?,
        extra: fork.extra,
        map_attributes: fork.map_attributes,
    })
}
