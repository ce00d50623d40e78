//! The text of a character in pieces, for what has no memory.

ghost use Rattle.std.specs.Prelude.{◌≡◌, ◌<◌, ◌^◌, ◌%◌, ◌++◌, true, IsTrue};
ghost use Rattle.std.specs.Fmt.{digit_glyph, digits};
ghost use Rattle.path_text.specs.FileNames.{coded, escaped};
ghost use Rattle.path_text.specs.Harm.{is_harmful};
ghost use Rattle.path_text.specs.Pieces.{after_digits, before_digits, mark_before};

use crate::harm::is_harmful;

/// A text in three pieces, one after the other.
#[derive(Clone, Copy)]
pub struct Pieces<'a> {
    pub before: &'static [u8],
    pub code: &'a [u8],
    pub after: &'static [u8],
}

/// The last digit of a number to the base 16.
fn digit(number: u32) -> u8
    ensures { result ≡ digit_glyph true (number % 16) }
{
    let low = (number % 16) as u8;
    if low < 10 {
        b'0' + low
    } else {
        b'A' - 10 + low
    }
}

/// The digits of a number to the base 16, at the end of these bytes.
fn digits(number: u32, room: &mut [u8; 4]) -> &[u8]
    requires { number < 2 ^ 16 }
    ensures { result.now ≡ digits 16 true number }
{
    let second = number / 16;
    let third = second / 16;
    let fourth = third / 16;
    *room = [digit(fourth), digit(third), digit(second), digit(number)];
    if second == 0 {
        return &room[3..];
    }
    if third == 0 {
        return &room[2..];
    }
    if fourth == 0 {
        return &room[1..];
    }
    &room[..]
}

/// What is before the digits of a character that does harm.
fn before_digits(code: u32) -> &'static [u8]
    ensures { result.now ≡ before_digits code }
{
    if code < 16 {
        b"\\x0"
    } else if code < 128 {
        b"\\x"
    } else {
        b"\\u{"
    }
}

/// What is after them.
fn after_digits(code: u32) -> &'static [u8]
    ensures { result.now ≡ after_digits code }
{
    if code < 128 { b"" } else { b"}" }
}

/// A character that does harm, in pieces, of which one is in these bytes.
fn coded(character: char, room: &mut [u8; 4]) -> Pieces<'_>
    requires { IsTrue (is_harmful character) }
    ensures { result.before.now ++ (result.code.now ++ result.after.now) ≡ coded character }
{
    let code = u32::from(character);
    Pieces {
        before: before_digits(code),
        code: digits(code, room),
        after: after_digits(code),
    }
}

/// A character of a name between double quotes, in pieces, of which one is in these bytes: what writes them one after
/// the other needs no memory.
pub fn quoted(character: char, room: &mut [u8; 4]) -> Pieces<'_>
    ensures { result.before.now ++ (result.code.now ++ result.after.now) ≡ escaped character }
{
    if character != '"' && character != '\\' && is_harmful(character) {
        return coded(character, room);
    }
    Pieces {
        before: mark_before(character),
        code: character.encode_utf8(room).as_bytes(),
        after: b"",
    }
}

/// What is before a character that does no harm.
fn mark_before(character: char) -> &'static [u8]
    ensures { result.now ≡ mark_before character }
{
    if character == '"' || character == '\\' {
        b"\\"
    } else {
        b""
    }
}
