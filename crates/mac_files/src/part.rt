//! A part of a file.

ghost use Rattle.std.specs.Prelude.{◌≡◌, length, true};

/// A part of a file: where it begins, and how many bytes it has.
#[derive(Clone, Copy, Debug, PartialEq, Eq)]
pub struct Part {
    pub offset: usize,
    pub length: usize,
}

impl Part {
    ghost use Rattle.mac_files.specs.Parts.{bytes_of, has_bytes, lies_within};

    /// The bytes of the part. One of no bytes lies within any file.
    pub fn bytes(self, file: &[u8]) -> &[u8]
        requires { lies_within (length file.now) self ≡ true }
        ensures { result.now ≡ bytes_of self file.now }
    {
        if self.length == 0 {
            return &file[..0];
        }
        &file[self.offset..self.offset + self.length]
    }

    /// Whether the part lies within a file of so many bytes.
    pub(crate) fn lies_within(self, length: usize) -> bool
        ensures { result ≡ lies_within length self }
    {
        self.length == 0 || self.length <= length && self.offset <= length - self.length
    }

    /// The part, or None if it has no bytes.
    pub(crate) fn if_any(self) -> Option<Part>
        ensures { result ≡ has_bytes self }
    {
        if self.length == 0 { None } else { Some(self) }
    }
}
