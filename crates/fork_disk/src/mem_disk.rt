//! A disk in memory.

ghost use Rattle.std.specs.Prelude.{◌≡◌, ◌+◌, ◌≤◌, ⊤, [], length, take, OnOk, OnErr, IsOk};
ghost use Rattle.fork_disk.specs.Disk.{bytes_at, put_at, Torn, Counts};

use crate::disk::{DiskFault, ForkDisk};
use crate::failures::Failures;
use std::alloc::Global;

/// A disk in memory. It is honest, and fails only where the host refuses it memory to grow; then nothing has changed.
#[derive(Debug, Drop)]
pub struct MemDisk {
    bytes: Vec<u8>,
    failures: Failures,
}

impl MemDisk {
    /// A disk without bytes.
    pub fn new(alloc: Global) -> MemDisk
        ensures { result.bytes.items ≡ [] }
    {
        MemDisk::from_bytes(Vec::new(alloc))
    }

    /// A disk with these bytes, which grows by the vector's allocator.
    pub fn from_bytes(bytes: Vec<u8>) -> MemDisk
        ensures { result.bytes.items ≡ bytes.items }
    {
        MemDisk {
            bytes,
            failures: Failures::new(),
        }
    }

    /// The bytes, first to last.
    pub fn bytes(&self) -> &[u8]
        ensures { result.now ≡ self.now.bytes.items }
    {
        &self.bytes
    }
}

impl ForkDisk for MemDisk {
    ghost seen = { λ disk. disk.bytes.items };

    ghost is_honest = { λ _. ⊤ };

    ghost is_stable = { λ _. ⊤ };

    ghost failures = { λ disk. disk.failures };

    fn len(&mut self) -> Result<u64, DiskFault>
        ensures value { result ≡ Ok (length self.old.bytes.items) }
        ensures same { self.new ≡ self.old }
    {
        Ok(self.bytes.len() as u64)
    }

    fn read_at(&mut self, at: u64, buffer: &mut [u8]) -> Result<(), DiskFault>
        requires { at + length buffer.old ≤ length self.old.bytes.items }
        ensures succeeds { IsOk result }
        ensures read { buffer.new ≡ bytes_at (length buffer.old) at self.old.bytes.items }
        ensures same { self.new ≡ self.old }
    {
        let start = at as usize;
        buffer.copy_from_slice(&self.bytes[start..start + buffer.len()]);
        Ok(())
    }

    /// Writes over what is there, and past the end. Where the host has no memory for the growth, nothing has changed.
    fn write_at(&mut self, at: u64, bytes: &[u8]) -> Result<(), DiskFault>
        requires { at ≤ length self.old.bytes.items }
        ensures written { OnOk result (self.new.bytes.items ≡ put_at at bytes.now self.old.bytes.items) }
        ensures within { at + length bytes.now ≤ length self.old.bytes.items → IsOk result }
        ensures unchanged { OnErr result (self.new.bytes.items ≡ self.old.bytes.items) }
        ensures torn { OnErr result (Torn at (length bytes.now) self.old.bytes.items self.new.bytes.items) }
        ensures cause { Counts self.old.failures self.new.failures result }
    {
        let start = at as usize;
        let here = bytes.len().min(self.bytes.len() - start);
        let (over, past) = bytes.split_at(here);
        if self.bytes.extend_from_slice(past).is_err() {
            return Err(self.failures.count());
        }
        self.bytes[start..start + here].copy_from_slice(over);
        Ok(())
    }

    fn cut(&mut self, len: u64) -> Result<(), DiskFault>
        requires { len ≤ length self.old.bytes.items }
        ensures succeeds { IsOk result }
        ensures cut { self.new.bytes.items ≡ take len self.old.bytes.items }
        ensures failures { self.new.failures ≡ self.old.failures }
    {
        self.bytes.truncate(len as usize);
        Ok(())
    }

    fn sync(&mut self) -> Result<(), DiskFault>
        ensures succeeds { IsOk result }
        ensures same { self.new ≡ self.old }
    {
        Ok(())
    }
}
