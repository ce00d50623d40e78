//! Blanks, comments and words.

ghost use Rattle.std.specs.Prelude.{◌≡◌, option_map};
ghost use Rattle.fork_rez.specs.Reading.{Gives, after_blanks, after_word, is_blank, is_map, skipped, skipping, word_at};

use crate::fault::{Expected, ReadError, refused};

/// What a comment begins with that has the map's bytes.
pub(crate) const MAP_WORD: &[u8] = b"/*resfork: the map's 240 extra bytes and its attributes";

/// Where a text is between two words.
#[derive(Clone, Copy)]
pub(crate) enum Skipping {
    /// In blanks.
    Between,
    /// After the first `/` of a comment.
    Slash,
    /// In a comment that ends with the line.
    Line,
    /// In a comment that ends with `*/`.
    Block,
    /// After a `*` in such a comment.
    Star,
}

/// Whether a byte is a blank, a tab or the end of a line.
fn is_blank(byte: u8) -> bool
    ensures { result ≡ is_blank byte }
{
    byte == b' ' || byte == b'\t' || byte == b'\n' || byte == b'\r'
}

impl Skipping {
    /// Where a text is after this byte, or None where the byte is no part of blanks and comments.
    fn after(self, byte: u8) -> Option<Skipping>
        ensures { result ≡ skipping self byte }
    {
        match self {
            Skipping::Between if is_blank(byte) => Some(Skipping::Between),
            Skipping::Between if byte == b'/' => Some(Skipping::Slash),
            Skipping::Between => None,
            Skipping::Slash if byte == b'*' => Some(Skipping::Block),
            Skipping::Slash if byte == b'/' => Some(Skipping::Line),
            Skipping::Slash => None,
            Skipping::Line if byte == b'\n' || byte == b'\r' => Some(Skipping::Between),
            Skipping::Line => Some(Skipping::Line),
            Skipping::Block if byte == b'*' => Some(Skipping::Star),
            Skipping::Block => Some(Skipping::Block),
            Skipping::Star if byte == b'/' => Some(Skipping::Between),
            Skipping::Star if byte == b'*' => Some(Skipping::Star),
            Skipping::Star => Some(Skipping::Block),
        }
    }

    /// Whether the comment with the map's bytes begins here.
    fn is_map(self, text: &[u8]) -> bool
        ensures { result ≡ is_map self text.now }
    {
        match self {
            Skipping::Between => after_word(MAP_WORD, text).is_some(),
            Skipping::Slash | Skipping::Line | Skipping::Block | Skipping::Star => false,
        }
    }

    /// The text from here on, where no comment is open.
    fn end(self, text: &[u8]) -> Result<&[u8], ReadError>
        ensures { Gives (λ rest. rest.now) result (skipped self text.now) }
    {
        match self {
            Skipping::Between | Skipping::Line => Ok(text),
            Skipping::Slash | Skipping::Block | Skipping::Star => {
                Err(refused(text, Expected::CommentEnd))
            }
        }
    }
}

/// The text after blanks and comments, among which the comment with the map's bytes isn't passed over.
#[tactic(auto, unfolding(crate::specs::Reading::after_blanks))]
pub(crate) fn after_blanks(text: &[u8]) -> Result<&[u8], ReadError>
    ensures { Gives (λ rest. rest.now) result (after_blanks text.now) }
{
    let mut at = Skipping::Between;
    let mut rest = text;
    while let Some((byte, after)) = rest.split_first() {
        if at.is_map(rest) {
            return Err(refused(rest, Expected::MapFirst));
        }
        let Some(next) = at.after(*byte) else {
            return at.end(rest);
        };
        at = next;
        rest = after;
    }
    at.end(rest)
}

/// The text after a word, if it begins with it.
pub(crate) fn after_word<'a>(word: &[u8], text: &'a [u8]) -> Option<&'a [u8]>
    ensures { option_map (λ rest. rest.now) result ≡ after_word word.now text.now }
{
    text.strip_prefix(word)
}

/// The text after blanks, comments and this word, without which something else is expected.
#[tactic(auto, unfolding(crate::specs::Reading::word_at))]
pub(crate) fn word_at<'a>(
    word: &[u8],
    expected: Expected,
    text: &'a [u8],
) -> Result<&'a [u8], ReadError>
    ensures { Gives (λ rest. rest.now) result (word_at word.now expected text.now) }
{
    let start = after_blanks(text)?;
    match after_word(word, start) {
        Some(rest) => Ok(rest),
        None => Err(refused(start, expected)),
    }
}
