//! The types that a text declares.

ghost use Rattle.std.specs.Prelude.{◌≡◌, List, [], ◌++◌, IfOk, IfSome, OnOk, option_map, reverse};
ghost use Rattle.type_source.specs.declared.types.DeclaredType.{DeclaredType};
ghost use Rattle.type_source.specs.Types.{SpellsId, SpellsIds, SpellsKind, SpellsMeaning, SpellsOneId, SpellsType, SpellsTypes, fits, has_id, id_of, meaning_of};

use crate::fault::{Expected, ReadError, refused};
use crate::number::{Constant, constant_at};
use crate::parts::fields;
use crate::token::{Mark, Token};
use crate::words::{MOST_PARTS, after_mark, after_word, deeper, mark_at};
use res_types::declaration::Declaration;
use std::alloc::Global;

/// The four bytes by which a type is known, as `STR#`.
#[derive(Clone, Copy, Debug, PartialEq, Eq)]
pub struct Kind(pub [u8; 4]);

/// The ids from the first to the last.
#[derive(Clone, Copy, Debug, PartialEq, Eq)]
pub struct Ids {
    pub first: i16,
    pub last: i16,
}

/// Another type, of this id or of the same.
#[derive(Clone, Copy, Debug, PartialEq, Eq)]
pub struct Other {
    pub kind: Kind,
    pub id: Option<i16>,
}

/// What the resources of a type are.
#[derive(Debug, Drop)]
pub enum Meaning {
    Fields(Declaration),
    /// What those of another type are, which was declared before.
    As(Other),
}

/// A type as a text declares it.
#[derive(Debug, Drop)]
pub struct DeclaredType {
    pub kind: Kind,
    /// The ids of its resources: all, or some alone.
    pub ids: Option<Ids>,
    pub meaning: Meaning,
}

impl Ids {
    /// Whether an id is one of these.
    fn has(self, id: i16) -> bool
        ensures { result ≡ has_id self id }
    {
        self.first <= id && id <= self.last
    }
}

impl DeclaredType {
    /// Whether a resource is of this type.
    fn fits(&self, kind: Kind, id: i16) -> bool
        ensures { result ≡ fits self.now kind id }
    {
        self.kind == kind
            && match self.ids {
                Some(ids) => ids.has(id),
                None => true,
            }
    }
}

/// What a resource of this type and id is: as the last declaration says that fits it. What is as another type is as
/// the declarations before say that.
#[tactic(auto, using(crate::proofs::Listed::latest))]
pub fn meaning_of(types: &[DeclaredType], kind: Kind, id: i16) -> Option<&Declaration>
    ensures { option_map (λ found. found.now) result ≡ meaning_of (reverse types.now) kind id }
{
    let mut rest = types;
    let mut kind = kind;
    let mut id = id;
    while let Some((last, before)) = rest.split_last() {
        rest = before;
        if last.fits(kind, id) {
            match &last.meaning {
                Meaning::Fields(declaration) => return Some(declaration),
                Meaning::As(other) => {
                    kind = other.kind;
                    id = other.id.unwrap_or(id);
                }
            }
        }
    }
    None
}

/// A type of four characters between single quotes.
fn kind_at<'s, 'a>(tokens: &'s [Token<'a>]) -> Result<(Kind, &'s [Token<'a>]), ReadError>
    ensures { IfOk result (λ x. SpellsKind x.0 tokens.now x.1.now) }
{
    match tokens.split_first() {
        Some((Token::Single(bytes), rest)) if bytes.len() == 4 => {
            let mut kind = [0; 4];
            kind.copy_from_slice(bytes);
            Ok((Kind(kind), rest))
        }
        _ => Err(refused(tokens, Expected::Kind)),
    }
}

/// The id that a constant is.
fn id_of(constant: Constant) -> Option<i16>
    ensures { IfSome result (λ id. id_of constant ≡ id) }
{
    match constant {
        Constant::Number(number) if number <= 32767 => Some(number as i16),
        Constant::Below(number) if number <= 32768 => Some((-(number as i64)) as i16),
        Constant::Number(_) | Constant::Below(_) => None,
    }
}

/// An id.
fn id_at<'s, 'a>(tokens: &'s [Token<'a>]) -> Result<(i16, &'s [Token<'a>]), ReadError>
    ensures { IfOk result (λ x. SpellsId x.0 tokens.now x.1.now) }
{
    let (constant, rest) = constant_at(tokens)?;
    match id_of(constant) {
        Some(id) => Ok((id, rest)),
        None => Err(refused(tokens, Expected::Id)),
    }
}

/// The ids of a type's resources, if some are said.
fn ids_at<'s, 'a>(tokens: &'s [Token<'a>]) -> Result<(Option<Ids>, &'s [Token<'a>]), ReadError>
    ensures { IfOk result (λ x. SpellsIds x.0 tokens.now x.1.now) }
{
    let Some(start) = after_mark(Mark::OpenParenthesis, tokens) else {
        return Ok((None, tokens));
    };
    let (first, mid) = id_at(start)?;
    if let Some(next) = after_mark(Mark::Colon, mid) {
        let (last, rest) = id_at(next)?;
        let rest = mark_at(Mark::CloseParenthesis, rest)?;
        return Ok((Some(Ids { first, last }), rest));
    }
    let rest = mark_at(Mark::CloseParenthesis, mid)?;
    Ok((Some(Ids { first, last: first }), rest))
}

/// The id of another type, if one is said.
fn one_id_at<'s, 'a>(tokens: &'s [Token<'a>]) -> Result<(Option<i16>, &'s [Token<'a>]), ReadError>
    ensures { IfOk result (λ x. SpellsOneId x.0 tokens.now x.1.now) }
{
    let Some(start) = after_mark(Mark::OpenParenthesis, tokens) else {
        return Ok((None, tokens));
    };
    let (id, rest) = id_at(start)?;
    let rest = mark_at(Mark::CloseParenthesis, rest)?;
    Ok((Some(id), rest))
}

/// What the resources of a type are: fields between braces, or `as` and another type.
fn meaning_at<'s, 'a>(
    alloc: Global,
    tokens: &'s [Token<'a>],
) -> Result<(Meaning, &'s [Token<'a>]), ReadError>
    ensures { IfOk result (λ x. SpellsMeaning x.0 tokens.now x.1.now) }
{
    if let Some(mid) = after_word(b"as", tokens) {
        let (kind, rest) = kind_at(mid)?;
        let (id, rest) = one_id_at(rest)?;
        let rest = mark_at(Mark::Semicolon, rest)?;
        return Ok((Meaning::As(Other { kind, id }), rest));
    }
    let inner = mark_at(Mark::OpenBrace, tokens)?;
    let (declaration, rest) = fields(alloc, MOST_PARTS, None, inner)?;
    let rest = mark_at(Mark::CloseBrace, rest)?;
    let rest = mark_at(Mark::Semicolon, rest)?;
    Ok((Meaning::Fields(declaration), rest))
}

/// A type as it is declared.
fn type_at<'s, 'a>(
    alloc: Global,
    tokens: &'s [Token<'a>],
) -> Result<(DeclaredType, &'s [Token<'a>]), ReadError>
    ensures { IfOk result (λ x. SpellsType x.0 tokens.now x.1.now) }
{
    let Some(start) = after_word(b"type", tokens) else {
        return Err(refused(tokens, Expected::Type));
    };
    let (kind, rest) = kind_at(start)?;
    let (ids, rest) = ids_at(rest)?;
    let (meaning, rest) = meaning_at(alloc, rest)?;
    Ok((DeclaredType { kind, ids, meaning }, rest))
}

/// Adds all types of a text's tokens, so many at most.
fn push_types<'s, 'a>(
    alloc: Global,
    most: u32,
    types: &mut Vec<DeclaredType>,
    tokens: &'s [Token<'a>],
) -> Result<(), ReadError>
    ensures { OnOk result ((added : List DeclaredType) × (types.new.items ≡ types.old.items ++ added) × SpellsTypes added tokens.now []) }
{
    if tokens.is_empty() {
        return Ok(());
    }
    let most = deeper(most, tokens)?;
    let (declared, rest) = type_at(alloc, tokens)?;
    types.push(declared)?;
    push_types(alloc, most, types, rest)?;
    Ok(())
}

/// All types of a text's tokens.
pub(crate) fn types_at<'s, 'a>(
    alloc: Global,
    tokens: &'s [Token<'a>],
) -> Result<Vec<DeclaredType>, ReadError>
    ensures { IfOk result (λ types. SpellsTypes types.items tokens.now []) }
{
    let mut types = Vec::new(alloc);
    push_types(alloc, MOST_PARTS, &mut types, tokens)?;
    Ok(types)
}
