//! Where in the data the bytes of the rows are.

ghost use Rattle.std.specs.Prelude.{◌≡◌, ◌<◌, ◌≤◌, ◌+◌, ◌^◌, IfOk, IfErr, OnOk, OnErr};
ghost use Rattle.fork_bytes.specs.Reading.{placed, AreFewBytesWithin};

use crate::fault::{Condition, ForkFault};
use crate::layout::{Header, MapRow};
use crate::place::{Place, PlacedRow};
use mac_base::resource::Resource;

/// Where in the fork the four bytes are that say how many bytes a row has. The fault is BadMap(Places), exactly where
/// they end outside the data.
pub fn length_place(header: Header, row: &MapRow) -> Result<u32, ForkFault>
    requires { header.data_offset + header.data_length < 2 ^ 32 }
    ensures place { IfOk result (λ at. at ≡ header.data_offset + row.now.datum) }
    ensures inside { IfOk result (λ _. row.now.datum + 4 ≤ header.data_length) }
    ensures fails { OnErr result (¬ (row.now.datum + 4 ≤ header.data_length)) }
    ensures fault { IfErr result (λ fault. fault ≡ ForkFault.BadMap Condition.Places) }
{
    if row.datum as usize + 4 > header.data_length as usize {
        return Err(ForkFault::BadMap(Condition::Places));
    }
    Ok(header.data_offset + row.datum)
}

/// The row with the place of its bytes, of which there are so many. The fault is BadMap(Places), exactly where they end
/// outside the data.
pub fn place_row(header: Header, row: MapRow, length: u32) -> Result<PlacedRow, ForkFault>
    requires { header.data_offset + header.data_length < 2 ^ 32 }
    ensures row { IfOk result (λ found. found ≡ placed header length row) }
    ensures inside { IfOk result (λ _. row.datum + 4 + length ≤ header.data_length) }
    ensures fails { OnErr result (¬ (row.datum + 4 + length ≤ header.data_length)) }
    ensures fault { IfErr result (λ fault. fault ≡ ForkFault.BadMap Condition.Places) }
{
    let Resource {
        kind,
        id,
        name,
        attributes,
        datum,
    } = row;
    if datum as usize + 4 + length as usize > header.data_length as usize {
        return Err(ForkFault::BadMap(Condition::Places));
    }
    let offset = header.data_offset + datum + 4;
    Ok(Resource {
        kind,
        id,
        name,
        attributes,
        datum: Place { offset, length },
    })
}

/// Checks that the rows have at most so many bytes together. The fault is BadMap(ByteCount), exactly where they have more.
pub fn check_bytes(rows: &[PlacedRow], most: usize) -> Result<(), ForkFault>
    ensures few { OnOk result (AreFewBytesWithin most rows.now) }
    ensures fails { OnErr result (¬ AreFewBytesWithin most rows.now) }
    ensures fault { IfErr result (λ fault. fault ≡ ForkFault.BadMap Condition.ByteCount) }
{
    let mut left = most;
    for row in rows {
        let count = 4 + row.datum.length as usize;
        if count > left {
            return Err(ForkFault::BadMap(Condition::ByteCount));
        }
        left -= count;
    }
    Ok(())
}
