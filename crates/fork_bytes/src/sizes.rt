//! How many bytes the parts of a fork have that is written for rows.

ghost use Rattle.std.specs.Prelude.{◌≡◌, ◌<◌, ◌≤◌, ◌-◌, ◌∷◌, length, drop, slice_get, IfSome, IfNone};
ghost use Rattle.std.specs.List.{AllByRecursion};
ghost use Rattle.fork_bytes.specs.declared.layout.TypeCount.{TypeCount};
ghost use Rattle.fork_bytes.specs.Written.{types_of, names_text, NamesFit, PlacesFit};
ghost use Rattle.fork_bytes.specs.Laws.{IsRow};
ghost use Rattle.fork_bytes.specs.Sizes.{text_length, data_size, sized_header, FitSizesWithin};

use crate::datum::Datum;
use crate::layout::{Header, Limits};
use bitflags::Flags;
use mac_base::resource::Resource;

/// The largest offset that a name has: one more says that there is none.
const MAX_NAME_OFFSET: usize = 65534;

/// The largest offset of a list in the map.
const MAX_OFFSET: usize = 65535;

/// The largest place of a datum in the data, for which a reference has three bytes.
const MAX_PLACE: usize = 0xFF_FFFF;

/// Where the data are in a fork that is written: after the header and the extra bytes.
const DATA_OFFSET: u32 = 256;

/// Where the rows end that have the type of the row at `start` and are together with it.
pub(crate) fn run_end<D>(rows: &[Resource<D>], start: usize) -> usize
    requires { start < length rows.now }
    ensures some { start < result }
    ensures within { result ≤ length rows.now }
    ensures run { IfSome (slice_get rows.now start) (λ row.
        types_of (drop start rows.now) ≡ record { kind = row.kind; count = result - start } ∷ types_of (drop result rows.now)) }
{
    let kind = rows[start].kind;
    let mut end = start + 1;
    while end < rows.len() && rows[end].kind == kind {
        end += 1;
    }
    end
}

/// How many types the rows have, where those of one type are together.
pub(crate) fn type_count<D>(rows: &[Resource<D>]) -> usize
    ensures types { result ≡ length (types_of rows.now) }
    ensures few { result ≤ length rows.now }
    ensures four { AllByRecursion (λ (t : TypeCount). length t.kind ≡ 4) (types_of rows.now) }
{
    let mut at = 0;
    let mut count = 0;
    while at < rows.len() {
        let _four = rows[at].kind.bytes();
        at = run_end(rows, at);
        count += 1;
    }
    count
}

/// How many bytes the data has, or None where it has more than these, or three bytes don't hold the place of a datum.
fn data_length<D: Datum>(rows: &[Resource<D>], most: u32) -> Option<usize>
    ensures some { IfSome result (λ n. n ≡ data_size (text_length D.text) rows.now) }
    ensures small { IfSome result (λ n. n ≤ most) }
    ensures fit { IfSome result (λ _. PlacesFit (text_length D.text) 0 rows.now) }
    ensures none { IfNone result (data_size (text_length D.text) rows.now ≤ most → ¬ PlacesFit (text_length D.text) 0 rows.now) }
{
    let most = most as usize;
    let mut total = 0;
    for row in rows {
        if total > MAX_PLACE {
            return None;
        }
        let count = row.datum.count();
        if count > most {
            return None;
        }
        total += 4 + count;
        if total > most {
            return None;
        }
    }
    Some(total)
}

/// What each row is by its type: four bytes of type, numbers in range, and a name of 255 bytes at most. It computes
/// nothing.
fn known<D>(row: &Resource<D>)
    ensures { IsRow row.now }
{
    let _kind = row.kind.bytes();
    let _id = row.id;
    let _attributes = row.attributes.bits();
    if let Some(name) = &row.name {
        let _bytes = name.as_slice();
    }
}

/// How many bytes the name list has, or None where two bytes don't hold the offset of a name. What each row is comes
/// with it.
fn names_length<D>(rows: &[Resource<D>]) -> Option<usize>
    ensures some { IfSome result (λ n. n ≡ length (names_text rows.now)) }
    ensures fit { IfSome result (λ _. NamesFit 0 rows.now) }
    ensures few { IfSome result (λ n. n ≤ 65790) }
    ensures rows { IfSome result (λ _. AllByRecursion IsRow rows.now) }
    ensures none { IfNone result (¬ NamesFit 0 rows.now) }
{
    let mut next = 0;
    for row in rows {
        known(row);
        if let Some(name) = &row.name {
            if next > MAX_NAME_OFFSET {
                return None;
            }
            next += 1 + name.as_slice().len();
        }
    }
    Some(next)
}

/// The header of the fork that is written for rows, or None where they are too big for one. What each row is comes with
/// it.
pub(crate) fn header_of_rows<D: Datum>(rows: &[Resource<D>], limits: Limits) -> Option<Header>
    ensures header { IfSome result (λ header. header ≡ sized_header (text_length D.text) rows.now) }
    ensures fit { IfSome result (λ _. FitSizesWithin limits (text_length D.text) rows.now) }
    ensures rows { IfSome result (λ _. AllByRecursion IsRow rows.now) }
    ensures none { IfNone result (¬ FitSizesWithin limits (text_length D.text) rows.now) }
    ensures four { AllByRecursion (λ (t : TypeCount). length t.kind ≡ 4) (types_of rows.now) }
{
    let types = type_count(rows);
    if rows.len() > limits.rows as usize {
        return None;
    }
    let names_offset = 30 + 8 * types + 12 * rows.len();
    if names_offset > MAX_OFFSET {
        return None;
    }
    let data = data_length(rows, limits.bytes)?;
    let map = names_offset + names_length(rows)?;
    if DATA_OFFSET as usize + data + map > limits.fork as usize {
        return None;
    }
    Some(Header {
        data_offset: DATA_OFFSET,
        map_offset: DATA_OFFSET + data as u32,
        data_length: data as u32,
        map_length: map as u32,
    })
}
