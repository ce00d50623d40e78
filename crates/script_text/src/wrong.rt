//! What is wrong with a line that is none. The words are for a reader: what they say is tested, and no clause speaks of
//! it.

use crate::names::Names;
use crate::operand::{
    are_printable, hexadecimal_digit, id_or_variable, is_name, number_or_variable,
};
use crate::script::MAX_LINES;
use crate::statement::{assigned_name, first_word};
use crate::token::{MAX_TOKENS, Token};
use script_lang::CallName;
use std::fmt;
use thiserror::Error;

/// The longest name of a variable, in bytes.
const LONGEST_NAME: usize = 31;

/// The first bytes of a word, as many as a name may have, and then zeros.
#[derive(Clone, Copy, Debug, PartialEq, Eq)]
pub struct Word([u8; LONGEST_NAME]);

impl Word {
    /// The first bytes of this word.
    fn of(word: &[u8]) -> Word {
        let mut bytes = [0; LONGEST_NAME];
        for (place, byte) in bytes.iter_mut().zip(word) {
            *place = *byte;
        }
        Word(bytes)
    }
}

/// Bytes that are no printable ASCII are shown as `?`.
impl fmt::Display for Word {
    fn fmt<W: fmt::Write>(&self, f: &mut fmt::Formatter<W>) -> fmt::Result {
        for byte in &self.0 {
            let letter = match *byte {
                0 => return Ok(()),
                b'!'..=b'~' => char::from(*byte),
                _ => '?',
            };
            write!(f, "{letter}")?;
        }
        Ok(())
    }
}

/// How an operand is written.
#[derive(Clone, Copy, Debug, PartialEq, Eq, Error)]
pub enum OperandKind {
    #[error("a number up to 4294967295, or a name")]
    Number,
    #[error("a number up to 4294967295, a name, or left out")]
    OptionalNumber,
    #[error("bytes: \"text\" or $\"4869\"")]
    Bytes,
    #[error("bytes: \"text\" or $\"4869\", or left out")]
    OptionalBytes,
    #[error("a number from -32768 to 32767, or a name")]
    Id,
    #[error("a type of four bytes: 'ICN#' or $\"49434E23\"")]
    Type,
}

/// What is wrong with the first line that is none.
#[derive(Clone, Copy, Debug, PartialEq, Eq, Error)]
pub enum Wrong {
    /// The text has too many bytes.
    #[error("a script has at most 1048576 bytes; make two of it")]
    TooLong,
    /// The text has too many lines.
    #[error("a script has at most 65536 lines; make two of it")]
    TooManyLines,
    /// A quote has no second one.
    #[error("a quote is open; close it in the same line")]
    OpenQuote,
    /// Two words, or a word and a quote, have nothing between them.
    #[error("a blank is missing before or after a quote")]
    NoBlank,
    /// There are more words and marks than any line has.
    #[error("the line has more words than any call takes")]
    TooManyWords,
    /// There is no word where the name of a call is wanted.
    #[error("a line is a call, as `ZoneMap` or `h = NewHandle 100`, or begins with `gz`")]
    NoCall,
    /// There is no call of this name.
    #[error("unknown call {0}")]
    UnknownCall(Word),
    /// This can't be the name of a variable.
    #[error("{0} is no name: a letter, and then up to 30 letters, digits and underscores")]
    NoName(Word),
    /// This call gives nothing that a line may assign.
    #[error("{0} gives nothing to assign")]
    GivesNothing(Word),
    /// No line before assigns this name.
    #[error("{0} is not assigned in a line before")]
    NotAssigned(Word),
    /// This call takes something else in this place.
    #[error("operand {place} of {call} has to be {kind}")]
    Operand {
        call: Word,
        place: usize,
        kind: OperandKind,
    },
    /// This call takes fewer operands.
    #[error("{call} takes no more than {most} operand(s)")]
    TooManyOperands {
        call: Word,
        most: usize,
    },
    /// An answer of the grow-zone procedure is written otherwise.
    #[error("gz takes a number or a name, and then up to 8 calls of DisposeHandle, DisposePtr or EmptyHandle, parted by `;`")]
    Answer,
}

/// Whether a line ends between two quotes. A `#` outside of quotes ends what is looked at.
fn is_quote_open(line: &[u8]) -> bool {
    let mut quote = None;
    for byte in line {
        match (quote, *byte) {
            (None, b'#') => return false,
            (None, b'\'' | b'"') => quote = Some(*byte),
            (Some(first), second) if first == second => quote = None,
            _ => {}
        }
    }
    quote.is_some()
}

/// What is wrong with a line of this number that isn't parted into words, where these tokens of it were read.
pub(crate) fn what_is_unread(number: u32, line: &[u8], tokens: &[Token<'_>]) -> Wrong {
    if number > MAX_LINES {
        Wrong::TooManyLines
    } else if is_quote_open(line) {
        Wrong::OpenQuote
    } else if tokens.len() >= MAX_TOKENS {
        Wrong::TooManyWords
    } else {
        Wrong::NoBlank
    }
}

/// How the operands of a call are written, in order.
fn kinds(call: CallName) -> &'static [OperandKind] {
    use OperandKind::{Bytes, Id, Number, OptionalBytes, OptionalNumber, Type};
    match call {
        CallName::Plain(_) => &[],
        CallName::Number(_) => &[Number],
        CallName::TwoNumbers(_) => &[Number, Number],
        CallName::ThreeNumbers(_) => &[Number, Number, Number],
        CallName::BlockMove => &[Number, Number, Number, Number, Number],
        CallName::Bytes(_) => &[Number, Number, Bytes],
        CallName::Resource(_) => &[Type, Id],
        CallName::GetIndResource => &[Type, Number],
        CallName::Kind(_) => &[Type],
        CallName::AddResource => &[Number, Type, Id, OptionalBytes],
        CallName::File(_) => &[OptionalNumber],
    }
}

/// Whether digits are hexadecimal, two for each byte.
fn are_digits_of_bytes(digits: &[u8]) -> bool {
    digits.len() % 2 == 0
        && digits
            .iter()
            .all(|digit| hexadecimal_digit(*digit).is_some())
}

/// Whether a token, or none, is an operand of this kind.
fn fits(kind: OperandKind, token: Option<&Token<'_>>, names: &Names<'_>) -> bool {
    use OperandKind::{Bytes, Id, Number, OptionalBytes, OptionalNumber, Type};
    let Some(token) = token else {
        return matches!(kind, OptionalBytes | OptionalNumber);
    };
    match (kind, *token) {
        (Number | OptionalNumber, token) => number_or_variable(token, names).is_some(),
        (Id, token) => id_or_variable(token, names).is_some(),
        (Bytes | OptionalBytes, Token::Double(inner)) => are_printable(inner),
        (Bytes | OptionalBytes, Token::Hexadecimal(digits)) => are_digits_of_bytes(digits),
        (Type, Token::Single(inner)) => inner.len() == 4 && are_printable(inner),
        (Type, Token::Hexadecimal(digits)) => digits.len() == 8 && are_digits_of_bytes(digits),
        _ => false,
    }
}

/// The name that a token is, if no line before assigns it.
fn unassigned(token: Option<&Token<'_>>, names: &Names<'_>) -> Option<Word> {
    match token {
        Some(Token::Word(word)) if is_name(word) && names.find(word).is_none() => {
            Some(Word::of(word))
        }
        _ => None,
    }
}

/// What is wrong with the token, or none, that isn't the operand of this kind in this place of a call.
fn wrong_operand(
    call: &[u8],
    place: usize,
    kind: OperandKind,
    token: Option<&Token<'_>>,
    names: &Names<'_>,
) -> Wrong {
    use OperandKind::{Id, Number, OptionalNumber};
    if let (Number | OptionalNumber | Id, Some(name)) = (kind, unassigned(token, names)) {
        return Wrong::NotAssigned(name);
    }
    Wrong::Operand {
        call: Word::of(call),
        place,
        kind,
    }
}

/// What is wrong with tokens that aren't the operands of these kinds.
fn wrong_operands(
    call: &[u8],
    kinds: &[OperandKind],
    tokens: &[Token<'_>],
    names: &Names<'_>,
) -> Wrong {
    for (place, kind) in kinds.iter().enumerate() {
        let token = tokens.get(place);
        if !fits(*kind, token, names) {
            return wrong_operand(call, place + 1, *kind, token, names);
        }
    }
    Wrong::TooManyOperands {
        call: Word::of(call),
        most: kinds.len(),
    }
}

/// What is wrong with the tokens after `gz`.
fn wrong_answer(tokens: &[Token<'_>], names: &Names<'_>) -> Wrong {
    for (place, token) in tokens.iter().enumerate() {
        // The value is first, and each call has a name, an operand and a mark.
        let is_operand = place == 0 || place % 3 == 2;
        if let (true, Some(name)) = (is_operand, unassigned(Some(token), names)) {
            return Wrong::NotAssigned(name);
        }
    }
    Wrong::Answer
}

/// What is wrong with a line of these tokens that is none, where these names have been assigned.
pub(crate) fn what_is_wrong(line: &[Token<'_>], names: &Names<'_>) -> Wrong {
    let (assigned, rest) = assigned_name(line);
    let Some((word, operands)) = first_word(rest) else {
        return Wrong::NoCall;
    };
    if assigned.is_none() && word == b"gz".as_slice() {
        return wrong_answer(operands, names);
    }
    let Some(call) = CallName::named(word) else {
        return Wrong::UnknownCall(Word::of(word));
    };
    match assigned {
        Some(name) if !is_name(name) => Wrong::NoName(Word::of(name)),
        Some(_) if !call.signature().is_assignable => Wrong::GivesNothing(Word::of(word)),
        _ => wrong_operands(word, kinds(call), operands, names),
    }
}
