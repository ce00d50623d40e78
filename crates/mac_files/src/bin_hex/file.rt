//! The file of a BinHex text.

ghost use Rattle.std.specs.Prelude.{◌≡◌, ◌≤◌, ◌+◌, take, drop, vec_len};

/// A file with both its forks. Its name and its forks are in one block of memory, that of the decoded bytes.
#[derive(Debug, Drop)]
pub struct BinHexFile {
    /// The bytes that the text stands for.
    pub bytes: Vec<u8>,
    pub name_length: usize,
    pub kind: [u8; 4],
    pub creator: [u8; 4],
    /// The Finder's flags.
    pub flags: u16,
    pub data_length: usize,
    pub resource_length: usize,
    ghost whole: { name_length + 24 + data_length + resource_length ≤ vec_len bytes },
}

impl BinHexFile {
    ghost use Rattle.mac_files.specs.BinHexFiles.{view};

    /// The name, in the characters of a Macintosh.
    pub fn name(&self) -> &[u8]
        ensures { result.now ≡ (view self.now).name }
    {
        &self.bytes[1..1 + self.name_length]
    }

    /// The data fork.
    pub fn data_fork(&self) -> &[u8]
        ensures { result.now ≡ (view self.now).data_fork }
    {
        let start = self.name_length + 22;
        &self.bytes[start..start + self.data_length]
    }

    /// The resource fork.
    pub fn resource_fork(&self) -> &[u8]
        ensures { result.now ≡ (view self.now).resource_fork }
    {
        let start = self.name_length + 24 + self.data_length;
        &self.bytes[start..start + self.resource_length]
    }
}
