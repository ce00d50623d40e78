//! All resources of a fork at once, in the form in which C gives them.

ghost use Rattle.std.specs.Prelude.{◌≡◌, ◌+◌, ◌≤◌, ◌==◌, ◌&&◌, ◌++◌, length, map, take, drop};
ghost use Rattle.std.specs.List.{flat_map};
ghost use Rattle.fork_bytes.specs.Fork.{max_fork, max_rows};
ghost use Rattle.fork_bytes.specs.Rows.{Row};
ghost use Rattle.fork_c.specs.All.{parts_of, parts_in, sizes_in, sizes_of};
ghost use Rattle.fork_c.specs.Told.{IsShown, name_of, shown_row};

use crate::rows::{MfRow, name_of, shown_row};
use crate::told::{read, shown};
use fork_bytes::table::Row;
use mac_base::error::{NO_ERR, OsErr};
use std::alloc::Global;

/// How many resources a fork has, and how many bytes their names and their data have, all together.
#[repr(C)]
#[derive(Clone, Copy)]
pub struct MfSizes {
    pub rows: usize,
    pub names: usize,
    pub contents: usize,
}

/// How much room `mf_rows` needs.
#[unsafe(no_mangle)]
pub extern "C" fn mf_sizes(alloc: Global, fork: &[u8], sizes: &mut MfSizes) -> i16
    ensures { IsShown sizes_in fork.now result sizes.old sizes.new }
{
    match read(alloc, fork) {
        Ok(table) => shown(Ok(sizes_of(table.rows.as_slice())), sizes),
        Err(code) => code,
    }
}

/// All resources in the order of the map, in one reading: a row for each, the bytes of all names, one after the other,
/// and those of all data. `mf_write` takes the same three. paramErr where there is room for more rows or bytes than
/// these or for fewer; then, and after any other refusal, all is as it was.
#[unsafe(no_mangle)]
pub extern "C" fn mf_rows(
    alloc: Global,
    fork: &[u8],
    rows: &mut [MfRow],
    names: &mut [u8],
    contents: &mut [u8],
) -> i16
    ensures { IsShown (parts_in (sizes_of (rows.old, names.old, contents.old))) fork.now result
        (rows.old, names.old, contents.old) (rows.new, names.new, contents.new) }
{
    let table = match read(alloc, fork) {
        Ok(table) => table,
        Err(code) => return code,
    };
    let found = table.rows.as_slice();
    if !fits(sizes_of(found), rows.len(), names.len(), contents.len()) {
        return OsErr::ParamErr.code();
    }
    put_rows(found, rows, names, contents);
    NO_ERR
}

/// How many rows there are, and how many bytes their names and their data have.
fn sizes_of(rows: &[Row]) -> MfSizes
    requires few { length rows.now ≤ max_rows }
    requires small { length (flat_map (λ (row : Row). row.datum) rows.now) ≤ max_fork }
    ensures { result ≡ sizes_of (parts_of rows.now) }
{
    let mut sizes = MfSizes {
        rows: rows.len(),
        names: 0,
        contents: 0,
    };
    for row in rows {
        sizes.names += name_of(row).len();
        sizes.contents += row.datum.as_slice().len();
    }
    sizes
}

/// Whether there is room for just so many rows and bytes.
fn fits(sizes: MfSizes, rows: usize, names: usize, contents: usize) -> bool
    ensures { result ≡ ((sizes.rows == rows) && (sizes.names == names) && (sizes.contents == contents)) }
{
    sizes.rows == rows && sizes.names == names && sizes.contents == contents
}

/// Puts the rows as C is shown them, the bytes of all names one after the other, and those of all data.
fn put_rows(found: &[Row], rows: &mut [MfRow], names: &mut [u8], contents: &mut [u8])
    requires rows { length rows.old ≡ length found.now }
    requires names { length names.old ≡ length (flat_map name_of found.now) }
    requires contents { length contents.old ≡ length (flat_map (λ (row : Row). row.datum) found.now) }
    ensures rows { rows.new ≡ map shown_row found.now }
    ensures names { names.new ≡ flat_map name_of found.now }
    ensures contents { contents.new ≡ flat_map (λ (row : Row). row.datum) found.now }
{
    let mut names_end = 0;
    let mut contents_end = 0;
    for i in 0..found.len() {
        let row = &found[i];
        rows[i] = shown_row(row);
        names_end = put(name_of(row), names, names_end);
        contents_end = put(row.datum.as_slice(), contents, contents_end);
    }
}

/// Puts bytes over others, from a place on. The result is the place after them.
fn put(bytes: &[u8], others: &mut [u8], at: usize) -> usize
    requires { at + length bytes.now ≤ length others.old }
    ensures put { others.new ≡ take at others.old ++ (bytes.now ++ drop (at + length bytes.now) others.old) }
    ensures end { result ≡ at + length bytes.now }
{
    let end = at + bytes.len();
    if at < end {
        others[at..end].copy_from_slice(bytes);
    }
    end
}
