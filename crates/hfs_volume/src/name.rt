//! Names of folders and files.

ghost use Rattle.std.specs.Prelude.{◌≡◌, ◌≤◌, length};
ghost use Rattle.hfs_volume.specs.Names.{name_in, name_bytes};

/// A name, in MacRoman: how many bytes it has, 31 at most, and these, with zeros after them.
#[derive(Clone, Copy, Debug, PartialEq, Eq)]
pub struct Name {
    pub length: u8,
    pub bytes: [u8; 31],
}

impl Name {
    /// The name with these bytes.
    pub fn from_bytes(bytes: &[u8]) -> Name
        requires { length bytes.now ≤ 31 }
        ensures { result ≡ name_in bytes.now }
    {
        let mut padded = [0; 31];
        padded[..bytes.len()].copy_from_slice(bytes);
        Name {
            length: bytes.len() as u8,
            bytes: padded,
        }
    }

    /// Its bytes.
    pub fn as_bytes(&self) -> &[u8]
        ensures { result.now ≡ name_bytes self.now }
    {
        &self.bytes[..(self.length as usize).min(31)]
    }
}
