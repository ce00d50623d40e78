//! What is known of every file, for the proofs. These functions compute nothing.

ghost use Rattle.std.specs.Prelude.{◌≡◌, ◌<◌, ◌^◌, length};
ghost use Rattle.mac_write.specs.Bytes.{AreBytes};
ghost use Rattle.mac_write.specs.Parts.{IsFile, view};

use crate::mac_file::MacFile;

/// Bytes are below 256.
fn know_bytes(_bytes: &[u8])
    ensures { AreBytes _bytes.now }
{}

/// A type or a creator has four bytes.
fn know_code(_code: [u8; 4])
    ensures bytes { AreBytes _code }
    ensures four { length _code ≡ 4 }
{}

/// Flags have two bytes.
fn know_flags(_flags: u16)
    ensures { _flags < 2 ^ 16 }
{}

/// What a file is made of is bytes.
pub fn know_file(file: &MacFile)
    ensures { IsFile (view file.now) }
{
    know_bytes(file.name);
    know_bytes(file.comment);
    know_bytes(file.data_fork);
    know_bytes(file.resource_fork);
    know_code(file.finder.kind);
    know_code(file.finder.creator);
    know_flags(file.finder.flags);
}
