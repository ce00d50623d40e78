//! Blocks of bytes after their number.

ghost use Rattle.std.specs.Prelude.{◌≡◌, ◌++◌, List, ℕ, OnOk};
ghost use Rattle.std.specs.Option.{IsSomeAnd};
ghost use Rattle.saved_files.specs.Saved.{block_text};

use byteorder::{BigEndian, ByteOrder};
use mac_base::error::HostFull;

/// How many bytes the number of a block's bytes has.
const NUMBER: usize = 8;

/// Adds a block.
pub(crate) fn push_block(bytes: &mut Vec<u8>, block: &[u8]) -> Result<(), HostFull>
    ensures { OnOk result (bytes.new.items ≡ bytes.old.items ++ block_text block.now) }
{
    let mut number = [0; NUMBER];
    BigEndian::write_u64(&mut number, block.len() as u64);
    bytes.extend_from_slice(&number)?;
    bytes.extend_from_slice(block)?;
    Ok(())
}

/// The block at the front of bytes, and the bytes after it; None where no block is there.
pub(crate) fn block_at(bytes: &[u8]) -> Option<(&[u8], &[u8])>
    ensures { (block rest : List ℕ) → bytes.now ≡ block_text block ++ rest
        → IsSomeAnd result (λ found. (found.0.now ≡ block) × (found.1.now ≡ rest)) }
{
    if bytes.len() < NUMBER {
        return None;
    }
    let (number, rest) = bytes.split_at(NUMBER);
    let count = BigEndian::read_u64(number);
    if (rest.len() as u64) < count {
        return None;
    }
    Some(rest.split_at(count as usize))
}
