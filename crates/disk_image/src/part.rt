//! Partitions.

ghost use Rattle.std.specs.Prelude.{◌≡◌, ◌<◌, ◌==◌, length, position, IfSome};
ghost use Rattle.disk_image.specs.Maps.{small, text_of, is_letter, is_kind, is_volume};

/// A partition: its number in the map, from 1 on, its name and type with zeros after them, and where on the disk it
/// begins and how many bytes it has.
#[derive(Clone, Copy)]
pub struct Part {
    pub number: u16,
    pub name: [u8; 32],
    pub kind: [u8; 32],
    pub start: u64,
    pub count: u64,
}

/// Where the first zero is.
fn find_zero(bytes: &[u8]) -> Option<usize>
    ensures value { result ≡ position (λ byte. byte == 0) bytes.now }
    ensures inside { IfSome result (λ place. place < length bytes.now) }
{
    bytes.iter().position(|byte| *byte == 0)
}

/// The bytes before the first zero.
fn text_of(bytes: &[u8]) -> &[u8]
    ensures { result.now ≡ text_of bytes.now }
{
    match find_zero(bytes) {
        Some(end) => &bytes[..end],
        None => bytes,
    }
}

/// The small letter of a letter.
fn small(byte: u8) -> u8
    ensures { result ≡ small byte }
{
    if 65 <= byte && byte <= 90 {
        byte + 32
    } else {
        byte
    }
}

/// Whether these are the same letter.
fn is_letter(first: u8, second: u8) -> bool
    ensures { result ≡ is_letter first second }
{
    small(first) == second
}

/// Whether a type is this, which has no capital letters.
fn is_kind(kind: &[u8], text: &[u8]) -> bool
    ensures { result ≡ is_kind kind.now text.now }
{
    let kind_text = text_of(kind);
    if kind_text.len() != text.len() {
        return false;
    }
    for (index, byte) in kind_text.iter().enumerate() {
        if !is_letter(*byte, text[index]) {
            return false;
        }
    }
    true
}

impl Part {
    /// Its name, in MacRoman.
    pub fn name(&self) -> &[u8]
        ensures { result.now ≡ text_of self.now.name }
    {
        text_of(&self.name)
    }

    /// Its type.
    pub fn kind(&self) -> &[u8]
        ensures { result.now ≡ text_of self.now.kind }
    {
        text_of(&self.kind)
    }

    /// Whether its type is that of a volume.
    #[tactic(auto, unfolding(crate::specs::Maps::is_volume))]
    pub fn is_volume(&self) -> bool
        ensures { result ≡ is_volume self.now }
    {
        is_kind(&self.kind, b"apple_hfs")
            || is_kind(&self.kind, b"apple_hfsx")
            || is_kind(&self.kind, b"apple_mfs")
            || is_kind(&self.kind, b"tfs1")
    }
}
