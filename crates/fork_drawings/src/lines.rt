//! The rows of a picture within a picture.

ghost use Rattle.std.specs.Prelude.{◌≡◌, ◌≤◌, ◌<◌, ◌+◌, ◌^◌, IfOk, drop, length, map, max, take};
ghost use Rattle.std.specs.Fn.{iterate};
ghost use Rattle.std.specs.List.{All, range_with_len};
ghost use Rattle.fork_drawings.specs.Lines.{expanded, head_long, next_place, piece};

use crate::packed::unpacked;
use pict_bytes::operands::Bits;
use pict_bytes::plane::{Packing, is_wide, row_end};
use std::alloc::{AllocError, Global};

/// How many bytes count those of a row.
fn head_long(bits: &Bits) -> usize
    ensures is { result ≡ head_long bits.now }
    ensures few { result ≤ 2 }
{
    match bits.packing {
        Packing::None | Packing::NoPadding => 0,
        _ if is_wide(bits.map) => 2,
        _ => 1,
    }
}

/// Where the row after the one at a place is.
fn next_place(bits: &Bits, bytes: &[u8], at: usize) -> usize
    requires { at < 2 ^ 40 }
    ensures is { result ≡ next_place bits.now bytes.now at }
    ensures low { result ≤ max (length bytes.now) at + 65536 }
{
    let row = bits.map.row as usize;
    match bits.packing {
        Packing::None => at + row,
        Packing::NoPadding => at + 3 * (row / 4),
        _ => row_end(bytes, at, is_wide(bits.map)).unwrap_or(bytes.len()),
    }
}

/// Where so many rows begin.
pub(crate) fn places_of(
    alloc: Global,
    bits: &Bits,
    bytes: &[u8],
    count: u16,
) -> Result<Vec<usize>, AllocError>
    requires small { length bytes.now ≤ 16777216 }
    requires low { bits.now.start ≤ 16777216 }
    ensures is { IfOk result (λ places. places.items ≡ map (λ row. iterate (next_place bits.now bytes.now) row bits.now.start) (range_with_len 0 count)) }
    ensures low { IfOk result (λ places. All (λ place. place < 2 ^ 40) places.items) }
{
    let mut places = Vec::new(alloc);
    let mut at = bits.start;
    for _row in 0..count {
        places.push(at)?;
        at = next_place(bits, bytes, at);
    }
    Ok(places)
}

/// The bytes of the row at a place, as they are kept.
fn piece<'a>(bits: &Bits, bytes: &'a [u8], at: usize) -> &'a [u8]
    requires { at < 2 ^ 40 }
    ensures { result.now ≡ piece bits.now bytes.now at }
{
    let start = (at + head_long(bits)).min(bytes.len());
    let rest = &bytes[start..];
    let count = next_place(bits, bytes, at).saturating_sub(at + head_long(bits));
    &rest[..count.min(rest.len())]
}

/// The bytes of the row at a place.
pub(crate) fn line_at(
    alloc: Global,
    bits: &Bits,
    bytes: &[u8],
    at: usize,
) -> Result<Vec<u8>, AllocError>
    requires { at < 2 ^ 40 }
    ensures { IfOk result (λ row. row.items ≡ expanded bits.now.packing bits.now.map (piece bits.now bytes.now at)) }
{
    let piece = piece(bits, bytes, at);
    let wanted = bits.map.row as usize;
    match bits.packing {
        Packing::None | Packing::NoPadding => {
            let mut row = Vec::new(alloc);
            row.extend_from_slice(piece)?;
            Ok(row)
        }
        Packing::Words => unpacked(alloc, 2, wanted, piece),
        _ => unpacked(alloc, 1, wanted, piece),
    }
}
