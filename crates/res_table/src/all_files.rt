//! What all open files have together, where the earliest is first.

ghost use Rattle.std.specs.Prelude.{◌≡◌, ◌<◌, ◌≤◌, ◌+◌, ◌^◌, length, not, Some, None, IfSome, IfNone, if◌then◌else◌};
ghost use Rattle.std.specs.Option.{option_and_then};
ghost use Rattle.res_table.specs.AllFiles.{all_rows, ith_place, has_type, types_in, new_types, all_types, free_in_all};
ghost use Rattle.res_table.specs.Rows.{count_of_type, ith, largest_id, AreTaken, IsFree};

use crate::chain::{OpenFile, RowPlace};
use crate::rows::{FIRST_ID, Rows};
use mac_base::resource::ResType;

/// How many resources of a type some files have.
pub fn count_of_type<D>(files: &[OpenFile<D>], kind: ResType) -> usize
    requires { length (all_rows files.now) < 2 ^ 32 }
    ensures { result ≡ count_of_type kind (all_rows files.now) }
{
    let mut count = 0;
    for file in files {
        count += file.table.rows.count_of_type(kind);
    }
    count
}

/// Where the i-th resource of a type is, counted from 1: those of the latest file come first.
pub fn place_of_ith<D>(files: &[OpenFile<D>], kind: ResType, i: usize) -> Option<RowPlace>
    ensures { result ≡ ith_place kind i files.now }
{
    let mut left = i;
    let mut end = files.len();
    while end > 0 {
        end -= 1;
        let file = &files[end];
        let count = file.table.rows.count_of_type(kind);
        if left <= count {
            let index = file.table.rows.index_of_ith(kind, left)?;
            return Some(RowPlace {
                file: file.number,
                index,
            });
        }
        left -= count;
    }
    None
}

/// Whether some files have a resource of a type.
fn has_type<D>(files: &[OpenFile<D>], kind: ResType) -> bool
    ensures { result ≡ has_type kind files.now }
{
    for file in files {
        if file.table.rows.has_type(kind) {
            return true;
        }
    }
    false
}

/// The i-th type of rows, counted from 1, unless later files have it.
fn new_type<D>(rows: &Rows<D>, later: &[OpenFile<D>], i: usize) -> Option<ResType>
    ensures { result ≡ option_and_then (λ kind. if not (has_type kind later.now) then Some kind else None) (ith i (types_in rows.now)) }
{
    let kind = rows.type_of_ith(i)?;
    if has_type(later, kind) {
        return None;
    }
    Some(kind)
}

/// How many types rows have that later files don't have.
fn count_new_types<D>(rows: &Rows<D>, later: &[OpenFile<D>]) -> usize
    ensures { result ≡ length (new_types rows.now later.now) }
{
    let mut count = 0;
    for index in 0..rows.count_types() {
        if new_type(rows, later, index + 1).is_some() {
            count += 1;
        }
    }
    count
}

/// The i-th type of rows that later files don't have, counted from 1.
fn ith_new_type<D>(rows: &Rows<D>, later: &[OpenFile<D>], i: usize) -> Option<ResType>
    ensures { result ≡ ith i (new_types rows.now later.now) }
{
    let mut left = i;
    for index in 0..rows.count_types() {
        if let Some(kind) = new_type(rows, later, index + 1) {
            if left == 1 {
                return Some(kind);
            }
            left = left.saturating_sub(1);
        }
    }
    None
}

/// How many types some files have: one that several have counts once.
pub fn count_types<D>(files: &[OpenFile<D>]) -> usize
    requires { length (all_rows files.now) < 2 ^ 32 }
    ensures { result ≡ length (all_types files.now) }
{
    let mut count = 0;
    for index in 0..files.len() {
        count += count_new_types(&files[index].table.rows, &files[index + 1..]);
    }
    count
}

/// The i-th type of some files, counted from 1: those of the latest file come first.
pub fn type_of_ith<D>(files: &[OpenFile<D>], i: usize) -> Option<ResType>
    ensures { result ≡ ith i (all_types files.now) }
{
    let mut left = i;
    let mut end = files.len();
    while end > 0 {
        let later = &files[end..];
        end -= 1;
        let rows = &files[end].table.rows;
        let count = count_new_types(rows, later);
        if left <= count {
            return ith_new_type(rows, later, left);
        }
        left -= count;
    }
    None
}

/// Goes through the files once from an id on. All ids before the one that comes out are taken, and where it is the same
/// one, it is free. None where all up to the largest are taken.
fn next_id<D>(files: &[OpenFile<D>], kind: ResType, id: u16) -> Option<u16>
    requires { id ≤ largest_id }
    ensures from { IfSome result (λ next. (id ≤ next) × (next ≤ largest_id)) }
    ensures taken { IfSome result (λ next. AreTaken kind id next (all_rows files.now)) }
    ensures free { IfSome result (λ next. next ≡ id → IsFree kind id (all_rows files.now)) }
    ensures none { IfNone result (AreTaken kind id (largest_id + 1) (all_rows files.now)) }
{
    let mut next = id;
    for file in files {
        next = file.table.rows.free_id(kind, next)?;
    }
    Some(next)
}

/// The least id from 128 on that no resource of a type has in any of some files, if one is left.
pub fn free_id<D>(files: &[OpenFile<D>], kind: ResType) -> Option<u16>
    ensures { result ≡ free_in_all kind files.now }
{
    let mut id = FIRST_ID;
    loop {
        let next = next_id(files, kind, id)?;
        if next == id {
            return Some(id);
        }
        id = next;
    }
}
