//! Rows that PackBits packed.

ghost use Rattle.std.specs.Prelude.{◌≡◌, ◌≤◌, ◌++◌, IfOk, OnOk, length, take};
ghost use Rattle.fork_drawings.specs.Packed.{repeated, run, unpacked, used};

use std::alloc::{AllocError, Global};

/// The first bytes, so many of them as there are.
fn front(bytes: &[u8], count: usize) -> &[u8]
    ensures { result.now ≡ take count bytes.now }
{
    &bytes[..count.min(bytes.len())]
}

/// Adds a piece so many times.
fn push_times(row: &mut Vec<u8>, times: u8, piece: &[u8]) -> Result<(), AllocError>
    ensures { OnOk result (row.new.items ≡ row.old.items ++ repeated times piece.now) }
{
    for _time in 0..times {
        row.extend_from_slice(piece)?;
    }
    Ok(())
}

/// Adds what a code stands for, with the bytes after it: units of so many bytes.
fn push_run(row: &mut Vec<u8>, unit: usize, code: u8, rest: &[u8]) -> Result<(), AllocError>
    requires { unit ≤ 2 }
    ensures { OnOk result (row.new.items ≡ row.old.items ++ run unit code rest.now) }
{
    match code {
        0..=127 => row.extend_from_slice(front(rest, unit * (code as usize + 1))),
        128 => Ok(()),
        _ => push_times(row, 255 - code + 2, front(rest, unit)),
    }
}

/// How many bytes after a code belong to it.
fn used(unit: usize, code: u8) -> usize
    requires { unit ≤ 2 }
    ensures is { result ≡ used unit code }
    ensures few { result ≤ 256 }
{
    match code {
        0..=127 => unit * (code as usize + 1),
        128 => 0,
        _ => unit,
    }
}

/// What packed bytes stand for, in units of one byte or two, until there are as many bytes as are wanted.
pub(crate) fn unpacked(
    alloc: Global,
    unit: usize,
    wanted: usize,
    bytes: &[u8],
) -> Result<Vec<u8>, AllocError>
    requires { unit ≤ 2 }
    ensures { IfOk result (λ row. row.items ≡ unpacked unit wanted (length bytes.now) bytes.now) }
{
    let mut row = Vec::new(alloc);
    let mut at = 0;
    for _code in 0..bytes.len() {
        if at >= bytes.len() {
            return Ok(row);
        }
        let count = row.len();
        if count >= wanted {
            return Ok(row);
        }
        push_run(&mut row, unit, bytes[at], &bytes[at + 1..])?;
        at += 1 + used(unit, bytes[at]);
    }
    Ok(row)
}
