//! The tokens of a text.

ghost use Rattle.std.specs.Prelude.{◌≡◌, IfSome};
ghost use Rattle.type_source.specs.Tokens.{byte_of};

/// A mark of one byte.
#[derive(Clone, Copy, Debug, PartialEq, Eq)]
pub enum Mark {
    OpenBrace,
    CloseBrace,
    OpenBracket,
    CloseBracket,
    OpenParenthesis,
    CloseParenthesis,
    Semicolon,
    Comma,
    Colon,
    Equals,
    Minus,
}

impl Mark {
    /// The mark that this byte is, if it is one.
    pub(crate) fn of(byte: u8) -> Option<Mark>
        ensures { IfSome result (λ mark. byte_of mark ≡ byte) }
    {
        match byte {
            b'{' => Some(Mark::OpenBrace),
            b'}' => Some(Mark::CloseBrace),
            b'[' => Some(Mark::OpenBracket),
            b']' => Some(Mark::CloseBracket),
            b'(' => Some(Mark::OpenParenthesis),
            b')' => Some(Mark::CloseParenthesis),
            b';' => Some(Mark::Semicolon),
            b',' => Some(Mark::Comma),
            b':' => Some(Mark::Colon),
            b'=' => Some(Mark::Equals),
            b'-' => Some(Mark::Minus),
            _ => None,
        }
    }

    /// The byte of this mark.
    pub(crate) fn byte(self) -> u8
        ensures { result ≡ byte_of self }
    {
        match self {
            Mark::OpenBrace => b'{',
            Mark::CloseBrace => b'}',
            Mark::OpenBracket => b'[',
            Mark::CloseBracket => b']',
            Mark::OpenParenthesis => b'(',
            Mark::CloseParenthesis => b')',
            Mark::Semicolon => b';',
            Mark::Comma => b',',
            Mark::Colon => b':',
            Mark::Equals => b'=',
            Mark::Minus => b'-',
        }
    }
}

/// A part of a text, between blanks and comments.
#[derive(Clone, Copy)]
pub enum Token<'a> {
    /// A word of the language, or a name.
    Word(&'a [u8]),
    /// A function: the name after `$$`.
    Function(&'a [u8]),
    /// A number in digits.
    Number(u32),
    /// The bytes between single quotes.
    Single(&'a [u8]),
    /// The bytes between double quotes.
    Double(&'a [u8]),
    Mark(Mark),
}
