//! The exports: each reads the bytes of a fork, and shows C something of them.

ghost use Rattle.std.specs.Prelude.{length};
ghost use Rattle.fork_c.specs.Told.{IsExtraShown, IsShown, count_in, data_in, name_in, shown_in};

use crate::given::{MfExtra, extra_of};
use crate::rows::{MfRow, data_at, name_at, shown_at};
use crate::told::{read, shown};
use std::alloc::Global;

/// How many resources a fork has.
#[unsafe(no_mangle)]
pub extern "C" fn mf_count(alloc: Global, fork: &[u8], count: &mut usize) -> i16
    ensures { IsShown count_in fork.now result count.old count.new }
{
    match read(alloc, fork) {
        Ok(table) => shown(Ok(table.rows.as_slice().len()), count),
        Err(code) => code,
    }
}

/// One of its resources, from 0 on in the order of its map. resNotFound where there are not so many.
#[unsafe(no_mangle)]
pub extern "C" fn mf_row(alloc: Global, fork: &[u8], index: usize, row: &mut MfRow) -> i16
    ensures { IsShown (shown_in index) fork.now result row.old row.new }
{
    match read(alloc, fork) {
        Ok(table) => shown(shown_at(table.rows.as_slice(), index), row),
        Err(code) => code,
    }
}

/// The name of one of its resources, no bytes where it has none. paramErr where there are more bytes than that or
/// fewer.
#[unsafe(no_mangle)]
pub extern "C" fn mf_name(alloc: Global, fork: &[u8], index: usize, bytes: &mut [u8]) -> i16
    ensures { IsShown (name_in index (length bytes.old)) fork.now result bytes.old bytes.new }
{
    match read(alloc, fork) {
        Ok(table) => name_at(table.rows.as_slice(), index, bytes),
        Err(code) => code,
    }
}

/// The data of one of its resources. paramErr where there are more bytes than these or fewer.
#[unsafe(no_mangle)]
pub extern "C" fn mf_data(alloc: Global, fork: &[u8], index: usize, bytes: &mut [u8]) -> i16
    ensures { IsShown (data_in index (length bytes.old)) fork.now result bytes.old bytes.new }
{
    match read(alloc, fork) {
        Ok(table) => data_at(table.rows.as_slice(), index, bytes),
        Err(code) => code,
    }
}

/// What a fork has beside its resources.
#[unsafe(no_mangle)]
pub extern "C" fn mf_extra(alloc: Global, fork: &[u8], extra: &mut MfExtra) -> i16
    ensures { IsExtraShown fork.now result extra.old extra.new }
{
    match read(alloc, fork) {
        Ok(table) => shown(Ok(extra_of(&table)), extra),
        Err(code) => code,
    }
}
