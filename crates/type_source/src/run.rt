//! Runs of bytes of one sort.

ghost use Rattle.std.specs.Prelude.{◌≡◌};
ghost use Rattle.std.specs.List.{prefix_len};
ghost use Rattle.type_source.specs.Tokens.{after_run, goes_on, is_blank, is_digit, is_letter, run_of};

/// The bytes that a run goes on with.
#[derive(Clone, Copy)]
pub(crate) enum Run {
    /// Letters, digits and `_`.
    Word,
    /// What is in a line.
    Line,
    /// What may be between these quotes: no control character, no backslash, and not the quote.
    Quoted(u8),
}

/// Whether a byte is a blank, a tab or the end of a line.
pub(crate) fn is_blank(byte: u8) -> bool
    ensures { result ≡ is_blank byte }
{
    byte == b' ' || byte == b'\t' || byte == b'\n' || byte == b'\r'
}

/// Whether a byte is a letter or `_`.
pub(crate) fn is_letter(byte: u8) -> bool
    ensures { result ≡ is_letter byte }
{
    byte >= b'A' && byte <= b'Z' || byte >= b'a' && byte <= b'z' || byte == b'_'
}

/// Whether a byte is a decimal digit.
pub(crate) fn is_digit(byte: u8) -> bool
    ensures { result ≡ is_digit byte }
{
    byte >= b'0' && byte <= b'9'
}

impl Run {
    /// Whether a run goes on with this byte.
    fn goes_on(self, byte: u8) -> bool
        ensures { result ≡ goes_on self byte }
    {
        match self {
            Run::Word => is_letter(byte) || is_digit(byte),
            Run::Line => byte != b'\n' && byte != b'\r',
            Run::Quoted(quote) => byte >= b' ' && byte != b'\\' && byte != quote,
        }
    }

    /// How many bytes a text begins with that are of this run.
    fn count(self, text: &[u8]) -> usize
        ensures { result ≡ prefix_len (goes_on self) text.now }
    {
        let mut count = 0;
        for byte in text {
            if !self.goes_on(*byte) {
                return count;
            }
            count += 1;
        }
        count
    }

    /// The run that a text begins with, which may be empty, and the text after it.
    pub(crate) fn split(self, text: &[u8]) -> (&[u8], &[u8])
        ensures run { result.0.now ≡ run_of self text.now }
        ensures rest { result.1.now ≡ after_run self text.now }
    {
        let count = self.count(text);
        text.split_at(count)
    }
}
