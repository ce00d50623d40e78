//! Parts of a fork, read from its disk.

ghost use Rattle.std.specs.Prelude.{◌≡◌, ◌<◌, ◌≤◌, ◌+◌, ◌^◌, ◌⊎◌, length, map, IfOk, IfErr, MatchResult};
ghost use Rattle.fork_bytes.specs.Fork.{bytes_at, header_of, data_of, extra_of, HasData};
ghost use Rattle.std.specs.List.{AllByRecursion};
ghost use Rattle.fork_bytes.specs.Reading.{placed_row, HasDatum};
ghost use Rattle.fork_rows.specs.Opening.{IsReadyWith, Reads, HasHeader, EndsBy, FaultsIn, CountsDevice, kinds_in};

use crate::fault::OpenFault;
use byteorder::{BigEndian, ByteOrder};
use fork_bytes::fault::{Condition, ForkFault};
use fork_bytes::layout::{Header, MapRow};
use fork_bytes::place::PlacedRow;
use fork_bytes::{HEADER_LENGTH, extra_bytes, length_place, place_row, read_header};
use fork_disk::store::ForkStore;
use std::alloc::Global;

/// How many bytes the header and the extra bytes have.
const FRONT_LENGTH: usize = 256;

/// What is before the data and the map.
#[derive(Clone, Copy)]
pub(crate) struct Front {
    pub(crate) header: Header,
    pub(crate) extra: [u8; 240],
}

/// Reads so many bytes at a place, for which the host may have no memory.
pub fn read_part<S: ForkStore>(
    alloc: Global,
    store: &mut S,
    at: u32,
    count: u32,
) -> Result<Vec<u8>, OpenFault>
    requires { IsReadyWith S.ForkStore store.old (λ fork. at + count ≤ length fork) }
    ensures reads { S.is_honest store.new → Reads S.ForkStore store.old store.new (λ fork. IfOk result (λ part. part.items ≡ bytes_at count at fork)) }
    ensures long { IfOk result (λ part. length part.items ≡ count) }
    ensures fault { IfErr result (λ fault. (fault ≡ OpenFault.Fork ForkFault.HostFull) ⊎ (fault ≡ OpenFault.Device)) }
    ensures cause { CountsDevice (S.failures store.old) (S.failures store.new) result }
{
    let Ok(mut part) = vec![in alloc; 0; count as usize] else {
        return Err(OpenFault::Fork(ForkFault::HostFull));
    };
    store.read_at(at as u64, &mut part)?;
    Ok(part)
}

/// Reads the header and the extra bytes of a fork of so many bytes, at once.
pub(crate) fn read_front<S: ForkStore>(
    alloc: Global,
    store: &mut S,
    fork_length: usize,
) -> Result<Front, OpenFault>
    requires whole { 16 ≤ fork_length }
    requires long { IsReadyWith S.ForkStore store.old (λ fork. fork_length ≡ length fork) }
    ensures reads { S.is_honest store.new
        → Reads S.ForkStore store.old store.new (λ fork. IfOk result (λ front. (front.header ≡ header_of fork) × (front.extra ≡ extra_of fork))) }
    ensures fault { IfErr result (λ fault. (fault ≡ OpenFault.Fork ForkFault.HostFull) ⊎ (fault ≡ OpenFault.Device)) }
    ensures cause { CountsDevice (S.failures store.old) (S.failures store.new) result }
{
    let count = fork_length.min(FRONT_LENGTH);
    let front = read_part(alloc, store, 0, count as u32)?;
    Ok(Front {
        header: read_header(&front)?,
        extra: extra_bytes(&front[HEADER_LENGTH..]),
    })
}

/// Reads how many bytes a resource has, which gives the place of these.
fn read_row<S: ForkStore>(
    store: &mut S,
    header: Header,
    row: MapRow,
) -> Result<PlacedRow, OpenFault>
    requires small { header.data_offset + header.data_length < 2 ^ 32 }
    requires header { IsReadyWith S.ForkStore store.old (HasHeader header) }
    ensures reads { S.is_honest store.new → Reads S.ForkStore store.old store.new (λ fork. MatchResult result
        (λ found. (found ≡ placed_row fork row) × HasDatum (data_of fork) row) (FaultsIn Condition.Places (¬ HasDatum (data_of fork) row))) }
    ensures kind { IfOk result (λ found. found.kind ≡ row.kind) }
    ensures inside { IfOk result (EndsBy (header.data_offset + header.data_length)) }
    ensures cause { CountsDevice (S.failures store.old) (S.failures store.new) result }
{
    let at = length_place(header, &row)?;
    let mut count = [0; 4];
    store.read_at(at as u64, &mut count)?;
    Ok(place_row(header, row, BigEndian::read_u32(&count))?)
}

/// Reads how many bytes each resource has: four bytes for each.
pub(crate) fn find_rows<S: ForkStore>(
    alloc: Global,
    store: &mut S,
    header: Header,
    rows: Vec<MapRow>,
) -> Result<Vec<PlacedRow>, OpenFault>
    requires small { header.data_offset + header.data_length < 2 ^ 32 }
    requires header { IsReadyWith S.ForkStore store.old (HasHeader header) }
    ensures reads { S.is_honest store.new → Reads S.ForkStore store.old store.new (λ fork. MatchResult result
        (λ found. (found.items ≡ map (placed_row fork) rows.items) × HasData (data_of fork) rows.items)
        (FaultsIn Condition.Places (¬ HasData (data_of fork) rows.items))) }
    ensures count { IfOk result (λ found. length found.items ≡ length rows.items) }
    ensures kinds { IfOk result (λ found. kinds_in found.items ≡ kinds_in rows.items) }
    ensures inside { IfOk result (λ found. AllByRecursion (EndsBy (header.data_offset + header.data_length)) found.items) }
    ensures cause { CountsDevice (S.failures store.old) (S.failures store.new) result }
{
    let mut placed = Vec::new(alloc);
    for row in rows {
        let found = read_row(store, header, row)?;
        if placed.push(found).is_err() {
            return Err(OpenFault::Fork(ForkFault::HostFull));
        }
    }
    Ok(placed)
}
