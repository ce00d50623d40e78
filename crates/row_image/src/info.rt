//! What is said of a row: where its bytes are in the fork, and its handle.

ghost use Rattle.std.specs.Prelude.{◌≡◌, ◌<◌, ◌≤◌, ◌+◌, ◌++◌, ◌^◌, length, IfSome, OnOk};
ghost use Rattle.byteorder.specs.Endian.{big_bytes};
ghost use Rattle.row_image.specs.Reading.{four_at};

use byteorder::{BigEndian, ByteOrder};
use fork_bytes::datum::Datum;
use fork_bytes::place::Place;
use mac_base::error::HostFull;
use mac_base::handle::Handle;
use res_table::row::Row;

/// Where the bytes of a row are in its fork, and its handle, if it has one.
#[derive(Clone, Copy)]
pub struct RowInfo {
    pub place: Place,
    pub handle: Option<Handle>,
}

/// The number in four bytes at an offset.
fn four_at(bytes: &[u8], at: usize) -> u32
    requires { at + 4 ≤ length bytes.now }
    ensures { result ≡ four_at at bytes.now }
{
    BigEndian::read_u32(&bytes[at..])
}

/// Adds a number of four bytes.
fn push_four(bytes: &mut Vec<u8>, number: u32) -> Result<(), HostFull>
    ensures { OnOk result (bytes.new.items ≡ bytes.old.items ++ big_bytes 4 number) }
{
    let mut four = [0; 4];
    BigEndian::write_u32(&mut four, number);
    bytes.extend_from_slice(&four)?;
    Ok(())
}

/// What a number is by its type. It computes nothing.
fn known(number: u32)
    ensures { number < 2 ^ 32 }
{
    let _number = number;
}

/// The same of a handle.
fn known_handle(handle: Option<Handle>)
    ensures { IfSome handle (λ h. h < 2 ^ 32) }
{
    if let Some(handle) = handle {
        known(handle.number());
    }
}

impl RowInfo {
    ghost use Rattle.row_image.specs.Reading.{info_in};
    ghost use Rattle.row_image.specs.Infos.{info_of};
    ghost use Rattle.row_image.specs.Images.{IsTold};

    /// What is said of a row.
    pub(crate) fn of(row: &Row<Place>) -> RowInfo
        ensures info { result ≡ info_of row.now }
        ensures told { IsTold (info_of row.now) }
    {
        let info = RowInfo {
            place: row.resource.datum,
            handle: row.handle,
        };
        known(info.place.offset);
        known(info.place.length);
        known_handle(info.handle);
        info
    }

    /// What bytes say: 8 of a row without a handle, or 12 of one that has one.
    pub(crate) fn read(bytes: &[u8]) -> Option<RowInfo>
        ensures { result ≡ info_in bytes.now }
    {
        let handle = match bytes.len() {
            8 => None,
            12 => Some(Handle::new(four_at(bytes, 8))),
            _ => return None,
        };
        Some(RowInfo {
            place: Place {
                offset: four_at(bytes, 0),
                length: four_at(bytes, 4),
            },
            handle,
        })
    }
}

impl Datum for RowInfo {
    ghost use Rattle.row_image.specs.Infos.{info_text};

    ghost text = { info_text };

    fn count(&self) -> usize {
        match self.handle {
            Some(_) => 12,
            None => 8,
        }
    }

    fn append(&self, fork: &mut Vec<u8>) -> Result<(), HostFull> {
        push_four(fork, self.place.offset)?;
        push_four(fork, self.place.length)?;
        if let Some(handle) = self.handle {
            push_four(fork, handle.number())?;
        }
        Ok(())
    }
}
