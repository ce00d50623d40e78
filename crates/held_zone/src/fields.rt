//! The fields of a zone's header that are the guest's. The Memory Manager's are bkLim, hFstFree, zcbFree and allocPtr:
//! it reads and writes no other. While a zone is awake in a guest's bytes, the guest's fields are put aside.

ghost use Rattle.std.specs.Prelude.{◌≡◌, ◌+◌, ◌≤◌, [], length};
ghost use Rattle.mac_base.specs.HeadKind.{zone_header};
ghost use Rattle.raw_region.specs.Bytes.{part, written};
ghost use Rattle.held_zone.specs.Fields.{AreFields, fielded, fields_in, managed_in, new_fields, with_fields};

use byteorder::{BigEndian, ByteOrder};
use mac_base::size::SLOT_COUNT;
use raw_region::Region;

/// Where a zone's header has purgePtr.
const PURGE_PTR_FIELD: usize = 4;

/// Where it has gzProc, the first of the other fields of the guest.
const GZ_PROC_FIELD: usize = 16;

/// How many bytes purgePtr has.
const PURGE_PTR_SIZE: usize = 4;

/// How many the others have, from gzProc to sparePtr.
const OTHERS_SIZE: usize = 32;

/// Where moreMast is among these.
const MORE_MAST: usize = 4;

/// The fields of a zone's header that are the guest's: purgePtr, and those from gzProc to sparePtr.
#[derive(Clone, Copy)]
pub struct GuestFields {
    purge_ptr: [u8; PURGE_PTR_SIZE],
    others: [u8; OTHERS_SIZE],
}

/// Copies the bytes from `start` on over as many others.
fn read_at(bytes: &[u8], start: usize, others: &mut [u8])
    requires { start + length others.old ≤ length bytes.now }
    ensures { others.new ≡ part bytes.now start (length others.old) }
{
    others.copy_from_slice(&bytes[start..start + others.len()]);
}

/// Writes other bytes over those from `start` on.
fn write_at(bytes: &mut [u8], start: usize, others: &[u8])
    requires { start + length others.now ≤ length bytes.old }
    ensures { bytes.new ≡ written bytes.old start others.now }
{
    bytes[start..start + others.len()].copy_from_slice(others);
}

impl GuestFields {
    /// Those of a new zone: moreMast says 64 master pointers, and all else is zero.
    pub fn new() -> GuestFields
        ensures { result ≡ new_fields }
    {
        let mut others = [0; OTHERS_SIZE];
        BigEndian::write_u16(&mut others[MORE_MAST..], SLOT_COUNT as u16);
        GuestFields {
            purge_ptr: [0; PURGE_PTR_SIZE],
            others,
        }
    }

    /// Those that bytes have.
    pub fn read(bytes: &[u8]) -> GuestFields
        requires { zone_header ≤ length bytes.now }
        ensures { result ≡ fields_in bytes.now }
    {
        let mut purge_ptr = [0; PURGE_PTR_SIZE];
        let mut others = [0; OTHERS_SIZE];
        read_at(bytes, PURGE_PTR_FIELD, &mut purge_ptr);
        read_at(bytes, GZ_PROC_FIELD, &mut others);
        GuestFields { purge_ptr, others }
    }

    /// Writes them in their places.
    pub fn write(&self, bytes: &mut [u8])
        requires { zone_header ≤ length bytes.old }
        ensures { bytes.new ≡ with_fields self.now bytes.old }
    {
        write_at(bytes, PURGE_PTR_FIELD, &self.purge_ptr);
        write_at(bytes, GZ_PROC_FIELD, &self.others);
    }

    /// Writes them in their places in a region, and no other byte.
    #[tactic(auto, using(raw_region::proofs::Rules::upkeep))]
    pub fn write_in(&self, region: &mut Region)
        requires whole { region.old.lent ≡ [] }
        requires long { zone_header ≤ length region.old.bytes }
        ensures region { region.new ≡ fielded self.now region.old }
        ensures fields { AreFields self.now }
    {
        region
            .bytes_mut(PURGE_PTR_FIELD, PURGE_PTR_SIZE)
            .copy_from_slice(&self.purge_ptr);
        region
            .bytes_mut(GZ_PROC_FIELD, OTHERS_SIZE)
            .copy_from_slice(&self.others);
    }
}

/// Puts the guest's fields of a region aside: those of a new zone come in their places.
pub fn put_aside(region: &mut Region) -> GuestFields
    requires whole { region.old.lent ≡ [] }
    requires long { zone_header ≤ length region.old.bytes }
    ensures fields { result ≡ fields_in region.old.bytes }
    ensures region { region.new ≡ managed_in region.old }
{
    let fields = GuestFields::read(region.bytes(0, region.len()));
    GuestFields::new().write_in(region);
    fields
}
