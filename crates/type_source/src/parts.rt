//! The fields of a type.

ghost use Rattle.std.specs.Prelude.{◌≡◌, List, codes, IfOk, IfSome};
ghost use Rattle.res_types.specs.Texts.{width_of};
ghost use Rattle.type_source.specs.Spelling.{AreIntegers, Braced, Cases, IsKeyField, Keyed, One, Row, Spells, SpellsCount, SpellsCountOf, SpellsFields, SpellsIntegers, SpellsLess, SpellsMark, SpellsNumberType, SpellsPiece, StartsAny, StartsArray, StartsCountOf, StartsNamed, StartsWord, bits_of_field};
ghost use Rattle.type_source.specs.declared.token.Token.{Token};

use crate::fault::{Expected, ReadError, refused};
use crate::number::{number_field, number_rest, number_type};
use crate::texts::{DeclaredText, text_at};
use crate::token::{Mark, Token};
use crate::words::{
    after_mark, after_name, after_word, bracketed, deeper, mark_at, name_at, number_at,
};
use crate::zeros::zeros_at;
use res_types::declaration::{Declaration, Tail};
use res_types::field;
use res_types::field::{Count, CountSize, Field, Key, NumberField, NumberForm, Zeros};
use std::alloc::Global;

/// A part of a declaration.
#[derive(Drop)]
pub(crate) enum Piece {
    Field(Field),
    /// What goes on to the last bit.
    Tail(Tail),
}

/// The size of a count of this width.
fn size_of(width: u8) -> Option<CountSize>
    ensures { IfSome result (λ size. width_of size ≡ width) }
{
    match width {
        8 => Some(CountSize::Byte),
        16 => Some(CountSize::Integer),
        32 => Some(CountSize::Longint),
        _ => None,
    }
}

/// Whether one less is counted: nothing, or `- 1`.
fn less_at<'s, 'a>(tokens: &'s [Token<'a>]) -> Result<(bool, &'s [Token<'a>]), ReadError>
    ensures { IfOk result (λ x. SpellsLess x.0 tokens.now x.1.now) }
{
    let Some(one) = after_mark(Mark::Minus, tokens) else {
        return Ok((false, tokens));
    };
    match number_at(one)? {
        (1, rest) => Ok((true, rest)),
        _ => Err(refused(one, Expected::One)),
    }
}

/// The tokens after `= $$CountOf (`, if they begin with `=` and a function. No other function is read.
fn after_count_of<'s, 'a>(tokens: &'s [Token<'a>]) -> Result<Option<&'s [Token<'a>]>, ReadError>
    ensures { IfOk result (λ found. IfSome found (λ rest. StartsCountOf tokens.now rest.now)) }
{
    let Some(mid) = after_mark(Mark::Equals, tokens) else {
        return Ok(None);
    };
    let Some((Token::Function(function), inner)) = mid.split_first() else {
        return Ok(None);
    };
    if !function.eq_ignore_ascii_case(b"CountOf") {
        return Err(refused(mid, Expected::CountOf));
    }
    let rest = mark_at(Mark::OpenParenthesis, inner)?;
    Ok(Some(rest))
}

/// The array that is counted, and whether it's one less, if tokens begin with `=` and a function.
fn count_of<'s, 'a>(
    tokens: &'s [Token<'a>],
) -> Result<Option<(&'a [u8], bool, &'s [Token<'a>])>, ReadError>
    ensures { IfOk result (λ found. IfSome found (λ x. SpellsCountOf x.0.now x.1 tokens.now x.2.now)) }
{
    let Some(mid) = after_count_of(tokens)? else {
        return Ok(None);
    };
    let (name, rest) = name_at(mid)?;
    let rest = mark_at(Mark::CloseParenthesis, rest)?;
    let (less_one, rest) = less_at(rest)?;
    let rest = mark_at(Mark::Semicolon, rest)?;
    Ok(Some((name, less_one, rest)))
}

/// A number that counts the elements of an array, and the array's name, if the tokens after the number's type say so.
fn count_at<'s, 'a>(
    width: u8,
    form: NumberForm,
    tokens: &'s [Token<'a>],
    start: &'s [Token<'a>],
) -> Result<Option<(Count, &'a [u8], &'s [Token<'a>])>, ReadError>
    requires { SpellsNumberType width form tokens.now start.now }
    ensures { IfOk result (λ found. IfSome found (λ x. SpellsCount x.0 x.1.now tokens.now x.2.now)) }
{
    let Some((name, less_one, rest)) = count_of(start)? else {
        return Ok(None);
    };
    match size_of(width) {
        Some(size) => Ok(Some((Count { size, less_one }, name, rest))),
        None => Err(refused(tokens, Expected::CountSize)),
    }
}

/// The tokens after `array`, or `wide array`, if they begin with it.
fn after_array<'s, 'a>(tokens: &'s [Token<'a>]) -> Option<&'s [Token<'a>]>
    ensures { IfSome result (λ rest. StartsArray tokens.now rest.now) }
{
    match after_word(b"wide", tokens) {
        Some(mid) => after_word(b"array", mid),
        None => after_word(b"array", tokens),
    }
}

/// The tokens after an array's word and this name, if they begin so.
fn after_named<'s, 'a>(name: &[u8], tokens: &'s [Token<'a>]) -> Option<&'s [Token<'a>]>
    ensures { IfSome result (λ rest. StartsNamed name.now tokens.now rest.now) }
{
    match after_array(tokens) {
        Some(mid) => after_word(name, mid),
        None => None,
    }
}

/// The tokens after an array's name, which it may not have.
fn after_any<'s, 'a>(tokens: &'s [Token<'a>], start: &'s [Token<'a>]) -> &'s [Token<'a>]
    requires { StartsArray tokens.now start.now }
    ensures { StartsAny tokens.now result.now }
{
    let Some((_, rest)) = after_name(start) else {
        return start;
    };
    rest
}

/// Whether fields end here: at a brace, at another case, at the end, and at an array that is awaited.
fn is_end<'s, 'a>(awaited: Option<&[u8]>, tokens: &'s [Token<'a>]) -> bool {
    if let Some(name) = awaited
        && after_named(name, tokens).is_some()
    {
        return true;
    }
    match tokens.split_first() {
        Some((Token::Mark(Mark::CloseBrace), _)) | None => true,
        Some(_) => after_word(b"case", tokens).is_some(),
    }
}

/// The number that ends the elements of an array.
fn mark_of<'s, 'a>(
    alloc: Global,
    tokens: &'s [Token<'a>],
) -> Result<(field::Mark, &'s [Token<'a>]), ReadError>
    ensures { IfOk result (λ x. SpellsMark x.0 tokens.now x.1.now) }
{
    let (field, rest) = number_field(alloc, tokens)?;
    match field.only {
        Some(value) => {
            let width = field.width;
            Ok((field::Mark { width, value }, rest))
        }
        None => Err(refused(tokens, Expected::ArrayEnd)),
    }
}

/// An array without a count, after its elements: it goes on to the last bit, or a number ends it.
fn list_end<'s, 'a>(
    alloc: Global,
    tokens: &'s [Token<'a>],
    start: &'s [Token<'a>],
    body: Field,
    rest: &'s [Token<'a>],
) -> Result<(Piece, &'s [Token<'a>]), ReadError>
    requires start { StartsAny tokens.now start.now }
    requires body { Braced (Spells body Row) start.now rest.now }
    ensures { IfOk result (λ x. SpellsPiece x.0 tokens.now x.1.now) }
{
    if is_end(None, rest) {
        return Ok((Piece::Tail(Tail::Elements(body)), rest));
    }
    let (mark, after) = mark_of(alloc, rest)?;
    let body = Box::new(alloc, body)?;
    Ok((Piece::Field(Field::Marked(mark, body)), after))
}

/// How many integers a word stands for: of a point, or of a rectangle.
fn integers_at<'s, 'a>(tokens: &'s [Token<'a>]) -> Result<Option<(u32, &'s [Token<'a>])>, ReadError>
    ensures { IfOk result (λ found. IfSome found (λ x. SpellsIntegers x.0 tokens.now x.1.now)) }
{
    if let Some(rest) = after_word(b"point", tokens) {
        let rest = mark_at(Mark::Semicolon, rest)?;
        return Ok(Some((2, rest)));
    }
    if let Some(rest) = after_word(b"rect", tokens) {
        let rest = mark_at(Mark::Semicolon, rest)?;
        return Ok(Some((4, rest)));
    }
    Ok(None)
}

/// So many integers.
fn integers(alloc: Global, count: u32) -> Result<Field, ReadError>
    ensures { IfOk result (λ field. AreIntegers count field) }
{
    let number = NumberField {
        width: 16,
        only: None,
        form: NumberForm::Signed,
        names: Vec::new(alloc),
    };
    let number = Box::new(alloc, Field::Number(number))?;
    Ok(Field::Repeated(count, number))
}

/// A part that has no other in it: zeros, a text, a point or a rectangle.
fn plain_piece<'s, 'a>(
    alloc: Global,
    tokens: &'s [Token<'a>],
) -> Result<Option<(Piece, &'s [Token<'a>])>, ReadError>
    ensures { IfOk result (λ found. IfSome found (λ x. SpellsPiece x.0 tokens.now x.1.now)) }
{
    if let Some((zeros, rest)) = zeros_at(tokens)? {
        return Ok(Some((Piece::Field(Field::Zeros(zeros)), rest)));
    }
    if let Some((text, rest)) = text_at(tokens)? {
        let piece = match text {
            DeclaredText::Field(form, style) => Piece::Field(Field::Text(form, style)),
            DeclaredText::Tail(style) => Piece::Tail(Tail::Text(style)),
        };
        return Ok(Some((piece, rest)));
    }
    let Some((count, rest)) = integers_at(tokens)? else {
        return Ok(None);
    };
    let field = integers(alloc, count)?;
    Ok(Some((Piece::Field(field), rest)))
}

/// A field that may be before a key, and its bits: a number, or a fill.
fn small_field<'s, 'a>(
    alloc: Global,
    tokens: &'s [Token<'a>],
) -> Result<(Field, u32, &'s [Token<'a>]), ReadError>
    ensures field { IfOk result (λ x. Spells x.0 One tokens.now x.2.now) }
    ensures bits { IfOk result (λ x. bits_of_field x.0 ≡ Some x.1) }
{
    match zeros_at(tokens)? {
        Some((Zeros::Fill(bits), rest)) => Ok((Field::Zeros(Zeros::Fill(bits)), bits, rest)),
        Some(_) => Err(refused(tokens, Expected::BeforeKey)),
        None => {
            let (field, rest) = number_field(alloc, tokens)?;
            let bits = field.width as u32;
            Ok((Field::Number(field), bits, rest))
        }
    }
}

/// The number that is a key, and the key of the case of this name, so many bits after its first one.
fn key_at<'s, 'a>(
    alloc: Global,
    name: &[u8],
    at: u32,
    tokens: &'s [Token<'a>],
    start: &'s [Token<'a>],
) -> Result<(Key, Field, &'s [Token<'a>]), ReadError>
    requires { StartsWord (codes "key") tokens.now start.now }
    ensures name { IfOk result (λ x. x.0.name.items ≡ name.now) }
    ensures at { IfOk result (λ x. x.0.offset ≡ at) }
    ensures field { IfOk result (λ x. IsKeyField x.0 x.1 tokens.now x.2.now) }
{
    let (field, rest) = number_field(alloc, start)?;
    let Some(value) = field.only else {
        return Err(refused(tokens, Expected::KeyNumber));
    };
    let name = Vec::from_slice(alloc, name)?;
    let width = field.width;
    let offset = at;
    let key = Key {
        offset,
        width,
        value,
        name,
    };
    Ok((key, Field::Number(field), rest))
}

/// What is spelled by a field and then by other fields.
fn joined(alloc: Global, field: Field, others: Declaration) -> Result<Declaration, ReadError>
    ensures { IfOk result (λ all. (before mid after : List Token) → Spells field One before mid → SpellsFields others mid after → SpellsFields all before after) }
{
    let first = Box::new(alloc, field)?;
    let second = Box::new(alloc, others.fields)?;
    let fields = Field::Then(first, second);
    let tail = others.tail;
    Ok(Declaration { fields, tail })
}

/// Fields after which none goes on to the last bit.
#[cycle(parts)]
fn row<'s, 'a>(
    alloc: Global,
    depth: u32,
    awaited: Option<&'a [u8]>,
    tokens: &'s [Token<'a>],
) -> Result<(Field, &'s [Token<'a>]), ReadError>
    ensures { IfOk result (λ x. Spells x.0 Row tokens.now x.1.now) }
{
    let (declaration, rest) = fields(alloc, depth, awaited, tokens)?;
    let Declaration { fields, tail } = declaration;
    match tail {
        Tail::Nothing => Ok((fields, rest)),
        Tail::Text(_) | Tail::Elements(_) => Err(refused(rest, Expected::Last)),
    }
}

/// Fields between braces, and a semicolon.
#[cycle(parts)]
fn braced<'s, 'a>(
    alloc: Global,
    depth: u32,
    tokens: &'s [Token<'a>],
) -> Result<(Field, &'s [Token<'a>]), ReadError>
    ensures { IfOk result (λ x. Braced (Spells x.0 Row) tokens.now x.1.now) }
{
    let inner = mark_at(Mark::OpenBrace, tokens)?;
    let (field, rest) = row(alloc, depth, None, inner)?;
    let rest = mark_at(Mark::CloseBrace, rest)?;
    let rest = mark_at(Mark::Semicolon, rest)?;
    Ok((field, rest))
}

/// An array after its word.
#[cycle(parts)]
fn array_at<'s, 'a>(
    alloc: Global,
    depth: u32,
    tokens: &'s [Token<'a>],
    start: &'s [Token<'a>],
) -> Result<(Piece, &'s [Token<'a>]), ReadError>
    requires { StartsArray tokens.now start.now }
    ensures { IfOk result (λ x. SpellsPiece x.0 tokens.now x.1.now) }
{
    if let Some((count, mid)) = bracketed(start)? {
        let (body, rest) = braced(alloc, depth, mid)?;
        let body = Box::new(alloc, body)?;
        return Ok((Piece::Field(Field::Repeated(count, body)), rest));
    }
    let start = after_any(tokens, start);
    let (body, rest) = braced(alloc, depth, start)?;
    list_end(alloc, tokens, start, body, rest)
}

/// A switch after its word.
#[cycle(parts)]
fn switch_at<'s, 'a>(
    alloc: Global,
    depth: u32,
    tokens: &'s [Token<'a>],
    start: &'s [Token<'a>],
) -> Result<(Piece, &'s [Token<'a>]), ReadError>
    requires { StartsWord (codes "switch") tokens.now start.now }
    ensures { IfOk result (λ x. SpellsPiece x.0 tokens.now x.1.now) }
{
    let inner = mark_at(Mark::OpenBrace, start)?;
    let (field, rest) = cases(alloc, depth, inner)?;
    let closed = mark_at(Mark::CloseBrace, rest)?;
    let after = mark_at(Mark::Semicolon, closed)?;
    match field {
        Field::Case(key, chosen, other) => {
            Ok((Piece::Field(Field::Case(key, chosen, other)), after))
        }
        _ => Err(refused(inner, Expected::Case)),
    }
}

/// The cases that are left.
#[cycle(parts)]
fn cases<'s, 'a>(
    alloc: Global,
    depth: u32,
    tokens: &'s [Token<'a>],
) -> Result<(Field, &'s [Token<'a>]), ReadError>
    ensures { IfOk result (λ x. Spells x.0 Cases tokens.now x.1.now) }
{
    let Some(start) = after_word(b"case", tokens) else {
        return Ok((Field::NoCase, tokens));
    };
    let depth = deeper(depth, tokens)?;
    let (name, rest) = name_at(start)?;
    let mid = mark_at(Mark::Colon, rest)?;
    let (key, chosen, rest) = keyed(alloc, depth, name, 0, mid)?;
    let (other, rest) = cases(alloc, depth, rest)?;
    let chosen = Box::new(alloc, chosen)?;
    let other = Box::new(alloc, other)?;
    Ok((Field::Case(key, chosen, other), rest))
}

/// The fields of the case of this name, so many bits after its first one, and its key, which is among them.
#[cycle(parts)]
fn keyed<'s, 'a>(
    alloc: Global,
    depth: u32,
    name: &'a [u8],
    at: u32,
    tokens: &'s [Token<'a>],
) -> Result<(Key, Field, &'s [Token<'a>]), ReadError>
    ensures name { IfOk result (λ x. x.0.name.items ≡ name.now) }
    ensures fields { IfOk result (λ x. Spells x.1 (Keyed x.0 at) tokens.now x.2.now) }
{
    if let Some(start) = after_word(b"key", tokens) {
        let (key, field, rest) = key_at(alloc, name, at, tokens, start)?;
        let (others, rest) = row(alloc, depth, None, rest)?;
        let first = Box::new(alloc, field)?;
        let second = Box::new(alloc, others)?;
        return Ok((key, Field::Then(first, second), rest));
    }
    let depth = deeper(depth, tokens)?;
    let (field, bits, rest) = small_field(alloc, tokens)?;
    let Some(next) = at.checked_add(bits) else {
        return Err(refused(tokens, Expected::Length));
    };
    let (key, others, rest) = keyed(alloc, depth, name, next, rest)?;
    let first = Box::new(alloc, field)?;
    let second = Box::new(alloc, others)?;
    Ok((key, Field::Then(first, second), rest))
}

/// The fields after a count, and the array that it counts.
#[cycle(parts)]
fn counted<'s, 'a>(
    alloc: Global,
    depth: u32,
    count: Count,
    name: &'a [u8],
    tokens: &'s [Token<'a>],
    start: &'s [Token<'a>],
) -> Result<(Piece, &'s [Token<'a>]), ReadError>
    requires { SpellsCount count name.now tokens.now start.now }
    ensures { IfOk result (λ x. SpellsPiece x.0 tokens.now x.1.now) }
{
    let (between, mid) = row(alloc, depth, Some(name), start)?;
    let Some(inner) = after_named(name, mid) else {
        return Err(refused(mid, Expected::Counted));
    };
    let (body, rest) = braced(alloc, depth, inner)?;
    let between = Box::new(alloc, between)?;
    let body = Box::new(alloc, body)?;
    Ok((Piece::Field(Field::Counted(count, between, body)), rest))
}

/// A number, or one that counts with what it counts.
#[cycle(parts)]
fn number_piece<'s, 'a>(
    alloc: Global,
    depth: u32,
    tokens: &'s [Token<'a>],
) -> Result<(Piece, &'s [Token<'a>]), ReadError>
    ensures { IfOk result (λ x. SpellsPiece x.0 tokens.now x.1.now) }
{
    let (width, form, start) = number_type(tokens)?;
    if let Some((count, name, rest)) = count_at(width, form, tokens, start)? {
        return counted(alloc, depth, count, name, tokens, rest);
    }
    let (field, rest) = number_rest(alloc, width, form, start)?;
    Ok((Piece::Field(Field::Number(field)), rest))
}

/// A part of a declaration.
#[cycle(parts)]
fn piece_at<'s, 'a>(
    alloc: Global,
    depth: u32,
    tokens: &'s [Token<'a>],
) -> Result<(Piece, &'s [Token<'a>]), ReadError>
    ensures { IfOk result (λ x. SpellsPiece x.0 tokens.now x.1.now) }
{
    if let Some((piece, rest)) = plain_piece(alloc, tokens)? {
        return Ok((piece, rest));
    }
    if let Some(start) = after_array(tokens) {
        return array_at(alloc, depth, tokens, start);
    }
    if let Some(start) = after_word(b"switch", tokens) {
        return switch_at(alloc, depth, tokens, start);
    }
    number_piece(alloc, depth, tokens)
}

/// Fields up to where they end, and what goes on to the last bit after them. So many may be in one another and one
/// after the other.
#[cycle(parts)]
pub(crate) fn fields<'s, 'a>(
    alloc: Global,
    depth: u32,
    awaited: Option<&'a [u8]>,
    tokens: &'s [Token<'a>],
) -> Result<(Declaration, &'s [Token<'a>]), ReadError>
    ensures { IfOk result (λ x. SpellsFields x.0 tokens.now x.1.now) }
{
    if is_end(awaited, tokens) {
        let fields = Field::Nothing;
        let tail = Tail::Nothing;
        return Ok((Declaration { fields, tail }, tokens));
    }
    let depth = deeper(depth, tokens)?;
    let (piece, rest) = piece_at(alloc, depth, tokens)?;
    match piece {
        Piece::Tail(tail) => {
            let fields = Field::Nothing;
            Ok((Declaration { fields, tail }, rest))
        }
        Piece::Field(field) => {
            let (others, end) = fields(alloc, depth, awaited, rest)?;
            let all = joined(alloc, field, others)?;
            Ok((all, end))
        }
    }
}
