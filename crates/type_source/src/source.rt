//! A whole text of declarations.

ghost use Rattle.std.specs.Prelude.{◌≡◌, IfOk, IfErr};
ghost use Rattle.type_source.specs.Types.{IsSource};

use crate::fault::{Expected, Fault, ReadError};
use crate::lexing::tokens_of;
use crate::place::{Place, place_at};
use crate::types::{DeclaredType, types_at};
use std::alloc::Global;
use std::fmt;
use thiserror::Error;

/// The most bytes that a text may have: 1 MiB.
pub const MOST_BYTES: usize = 1048576;

/// Where a text declares no type, and what is expected there.
#[derive(Clone, Copy, Debug, PartialEq, Eq)]
pub struct Refusal {
    pub place: Place,
    pub expected: Expected,
}

impl fmt::Display for Refusal {
    fn fmt<W: fmt::Write>(&self, f: &mut fmt::Formatter<W>) -> fmt::Result {
        let line = self.place.line;
        let column = self.place.column;
        let expected = self.expected;
        write!(f, "line {line}, column {column}: {expected}")
    }
}

/// Why a text isn't read.
#[derive(Clone, Copy, Debug, Error)]
pub enum SourceError {
    /// It declares something else in a place.
    #[error("{0}")]
    Refused(Refusal),
    /// The host has no memory.
    #[error("the host has no memory")]
    HostFull,
}

/// What is expected where so many bytes of a text are left.
fn refused_at(text: &[u8], left: usize, expected: Expected) -> SourceError {
    SourceError::Refused(Refusal {
        place: place_at(text, left),
        expected,
    })
}

/// How many bytes are left where so many tokens are.
fn left_of(lefts: &[usize], tokens: usize) -> usize {
    match lefts.len().checked_sub(tokens) {
        Some(index) if index < lefts.len() => lefts[index],
        _ => 0,
    }
}

/// The types that a text declares, in the order of the text.
///
/// A text has at most 1 MiB. At most 300 fields, cases and braces are in one another and one after the other, and at
/// most 300 names and types one after the other. What isn't read yet is refused: functions other than `$$CountOf`,
/// labels, texts that are always the same, backslashes in quotes, an array that isn't the next one to be counted, and
/// what the preprocessor reads. It's proved that a text declares the types that are returned. That an error has the
/// first place from which on the text declares none, is tested.
pub fn types_of(alloc: Global, text: &[u8]) -> Result<Vec<DeclaredType>, SourceError>
    ensures { IfOk result (λ types. IsSource types.items text.now) }
{
    if text.len() > MOST_BYTES {
        return Err(refused_at(text, text.len() - MOST_BYTES, Expected::Shorter));
    }
    let lexed = match tokens_of(alloc, text) {
        Ok(lexed) => lexed,
        Err(ReadError::HostFull) => return Err(SourceError::HostFull),
        Err(ReadError::Refused(fault)) => return Err(refused_at(text, fault.left, fault.expected)),
    };
    match types_at(alloc, lexed.tokens.as_slice()) {
        Ok(types) => Ok(types),
        Err(ReadError::HostFull) => Err(SourceError::HostFull),
        Err(ReadError::Refused(fault)) => {
            let left = left_of(lexed.lefts.as_slice(), fault.left);
            Err(refused_at(text, left, fault.expected))
        }
    }
}

#[cfg(test)]
mod tests {
    use super::*;
    use crate::built_in::BUILT_IN;
    use crate::types::{Kind, meaning_of};
    use std::test::Fail;

    /// Resources by Inside Macintosh's pictures of their bytes, and how many parts each has.
    const RESOURCES: &[(&[u8; 4], &[u8], usize)] = &[
        (b"STR ", b"\x02Hi", 1),
        (b"STR#", b"\x00\x02\x02Hi\x00", 3),
        (b"TEXT", b"Read me", 1),
        (b"vers", b"\x07\x01\x80\x00\x00\x00\x037.1\x037.1", 7),
        (b"MBAR", b"\x00\x01\x00\x80", 2),
        (
            b"MENU",
            b"\x00\x80\x00\x00\x00\x00\x00\x00\x00\x00\xff\xff\xff\xff\x04File\x04Open\x00O\x00\x00\x00",
            13,
        ),
        (
            b"ALRT",
            b"\x00\x28\x00\x28\x00\xa0\x01\x90\x00\x80\x44\x44",
            18,
        ),
        (
            b"DITL",
            b"\x00\x00\x00\x00\x00\x00\x00\x14\x00\x14\x00\x28\x00\x50\x04\x02OK",
            8,
        ),
        (
            b"BNDL",
            b"TEST\x00\x00\x00\x00FREF\x00\x00\x00\x00\x00\x80",
            7,
        ),
        (b"FREF", b"APPL\x00\x00\x00", 3),
        (b"SIZE", b"\x58\x80\x00\x06\x00\x00\x00\x04\x00\x00", 18),
        (b"PAT ", b"\xaa\x55\xaa\x55\xaa\x55\xaa\x55", 1),
        (b"TMPL", b"\x05CountOCNT", 3),
    ];

    #[test]
    fn built_in_types(rt: HostRuntime) -> Result<(), Fail> {
        let alloc = rt.alloc();
        let types = types_of(alloc, BUILT_IN)?;
        assert_eq!(rt; types.len(), 30);
        for (kind, bytes, parts) in RESOURCES {
            let declaration = meaning_of(&types, Kind(**kind), 128).ok_or("no type")?;
            let value = declaration.decode(alloc, bytes)?;
            assert_eq!(rt; value.len(), *parts);
            let again = declaration.encode(alloc, &value)?;
            assert_eq!(rt; again.as_slice(), *bytes);
        }
        Ok(())
    }

    /// Texts that declare none, and where.
    const REFUSED: &[(&[u8], usize, usize)] = &[
        (b"type 'ABCD' { integer; }", 1, 25),
        (b"type 'ABCD' {\n  integr;\n};", 2, 3),
        (b"type 'ABC' { };", 1, 6),
        (b"/* no end", 1, 1),
        (b"type 'ABCD' { byte = 256; };", 1, 22),
        (b"type 'ABCD' { integer = $$ArrayIndex(A); };", 1, 25),
        (b"type 'ABCD' { string; byte; };", 1, 23),
        (b"\r\ntype 'ABCD' { pstring[256]; };", 2, 22),
    ];

    #[test]
    fn refused_texts(rt: HostRuntime) -> Result<(), Fail> {
        for (text, line, column) in REFUSED {
            let Err(SourceError::Refused(refusal)) = types_of(rt.alloc(), text) else {
                return Err(Fail::from("it was read"));
            };
            assert_eq!(rt; refusal.place.line, *line);
            assert_eq!(rt; refusal.place.column, *column);
        }
        Ok(())
    }
}
