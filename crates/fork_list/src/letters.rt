//! How letters that aren't ASCII are shown.

/// How the bytes of types and names that aren't ASCII are shown.
#[derive(Clone, Copy)]
pub enum Letters {
    /// As the characters that they are in MacRoman.
    Roman,
    /// As `\x` and two hexadecimal digits.
    Raw,
}
