//! The types of resources that have texts, as Inside Macintosh and Rez's types declare them.

ghost use Rattle.std.specs.Prelude.{◌≡◌, ◌∷◌, ◌++◌, [], IfOk, OnOk, length, map};
ghost use Rattle.std.specs.List.{push};
ghost use Rattle.fork_texts.specs.Kinds.{Bits, End, Onward, Pad, Several, UpTo, control_words, field_words, item_list_words, known, menu_words, pascal, position, seen, string_list_words, tail_words, version_words, window_front, words_of, Rest};
ghost use Rattle.res_types.specs.declared.field.CountSize.TheVariants.{Integer};

use mac_base::resource::ResType;
use res_types::declaration::{Declaration, Tail};
use res_types::field::{
    Count, CountSize, Field, Mark, NumberField, NumberForm, TextForm, TextStyle, Zeros,
};
use std::alloc::{AllocError, Global};

/// How the texts of a resource are called, in their order.
#[derive(Clone, Copy)]
pub enum Naming {
    /// The only one is the resource's text.
    Whole,
    /// The only one is its title.
    Title,
    /// A short one and a long one.
    ShortAndLong,
    /// By numbers from 1 on.
    Numbered,
    /// A title, and then numbers from 1 on.
    TitleAndNumbered,
    /// By numbers from 1 on, those of the items of a dialog. Only some items have a text.
    DialogItems,
}

/// A type of resources that have texts.
#[derive(Drop)]
pub struct TextType {
    pub kind: ResType,
    pub naming: Naming,
    pub declaration: Declaration,
}

/// A text after a byte that counts it.
const PASCAL: Field = Field::Text(TextForm::Counted(CountSize::Byte), TextStyle::Letters);

/// A number in so many bits.
fn number(alloc: Global, width: u8) -> Field
    ensures { field_words result ≡ Bits width ∷ [] }
{
    Field::Number(NumberField {
        width,
        only: None,
        form: NumberForm::Signed,
        names: Vec::new(alloc),
    })
}

/// One field, and then others.
fn then(alloc: Global, first: Field, others: Field) -> Result<Field, AllocError>
    ensures { IfOk result (λ field. field_words field ≡ field_words first ++ field_words others) }
{
    Ok(Field::Then(Box::new(alloc, first)?, Box::new(alloc, others)?))
}

/// Numbers in so many bits each, and then other fields.
fn numbers_then(alloc: Global, widths: &[u8], others: Field) -> Result<Field, AllocError>
    ensures { IfOk result (λ field. field_words field ≡ map (λ width. Bits width) widths.now ++ field_words others) }
{
    match widths.split_first() {
        Some((first, widths)) => {
            let fields = numbers_then(alloc, widths, others)?;
            then(alloc, number(alloc, *first), fields)
        }
        None => Ok(others),
    }
}

/// A count of 16 bits, and so many elements.
fn counted(alloc: Global, less_one: bool, element: Field) -> Result<Field, AllocError>
    ensures { IfOk result (λ field. field_words field ≡ Several (record { size = Integer; less_one = less_one }) ∷ (field_words element ++ End ∷ [])) }
{
    let count = Count {
        size: CountSize::Integer,
        less_one,
    };
    Ok(Field::Counted(
        count,
        Box::new(alloc, Field::Nothing)?,
        Box::new(alloc, element)?,
    ))
}

/// Elements up to a byte that is 0.
fn ended(alloc: Global, element: Field) -> Result<Field, AllocError>
    ensures { IfOk result (λ field. field_words field ≡ UpTo (record { width = 8; value = 0 }) ∷ (field_words element ++ End ∷ [])) }
{
    let mark = Mark { width: 8, value: 0 };
    Ok(Field::Marked(mark, Box::new(alloc, element)?))
}

/// A type whose fields are all.
fn whole(fields: Field) -> Declaration
    ensures { words_of result ≡ field_words fields }
{
    Declaration {
        fields,
        tail: Tail::Nothing,
    }
}

/// A type of a dialog or a window: after its fields is where it is put on the screen, if System 7 is to do that.
fn positioned(alloc: Global, fields: Field) -> Result<Declaration, AllocError>
    ensures { IfOk result (λ declaration. words_of declaration ≡ field_words fields ++ position) }
{
    let position = then(alloc, Field::Zeros(Zeros::AlignWord), number(alloc, 16))?;
    Ok(Declaration {
        fields,
        tail: Tail::Elements(position),
    })
}

/// 'TEXT': all bytes.
fn text() -> Declaration
    ensures { words_of result ≡ Rest ∷ [] }
{
    Declaration {
        fields: Field::Nothing,
        tail: Tail::Text(TextStyle::Letters),
    }
}

/// 'STR#': a count, and the strings.
fn string_list(alloc: Global) -> Result<Declaration, AllocError>
    ensures { IfOk result (λ declaration. words_of declaration ≡ string_list_words) }
{
    Ok(whole(counted(alloc, false, PASCAL)?))
}

/// 'MENU': id, width, height, the id of its procedure, a filler, which items are enabled, and the title. Then the
/// items: each has a text, an icon, a key, a mark and a style.
fn menu(alloc: Global) -> Result<Declaration, AllocError>
    ensures { IfOk result (λ declaration. words_of declaration ≡ menu_words) }
{
    let item = then(
        alloc,
        PASCAL,
        numbers_then(alloc, &[8, 8, 8], number(alloc, 8))?,
    )?;
    let texts = then(alloc, PASCAL, ended(alloc, item)?)?;
    Ok(whole(numbers_then(alloc, &[16, 16, 16, 16, 16, 32], texts)?))
}

/// 'DITL': one less than the count, and the items. Each has a place for a handle, a rectangle, its type, and its text
/// or other data, up to a whole word.
fn item_list(alloc: Global) -> Result<Declaration, AllocError>
    ensures { IfOk result (λ declaration. words_of declaration ≡ item_list_words) }
{
    let data = then(alloc, PASCAL, Field::Zeros(Zeros::AlignWord))?;
    let item = numbers_then(alloc, &[32, 16, 16, 16, 16, 8], data)?;
    Ok(whole(counted(alloc, true, item)?))
}

/// 'WIND': a rectangle, the id of its procedure, whether it is visible, whether it has a box to close it (each with a
/// filler), a number for the program, and the title.
fn window(alloc: Global) -> Result<Declaration, AllocError>
    ensures { IfOk result (λ declaration. words_of declaration ≡ window_front (pascal ∷ position)) }
{
    let fields = numbers_then(alloc, &[16, 16, 16, 16, 16, 8, 8, 8, 8, 32], PASCAL)?;
    positioned(alloc, fields)
}

/// 'DLOG': the same, but before the title is the id of its items.
fn dialog(alloc: Global) -> Result<Declaration, AllocError>
    ensures { IfOk result (λ declaration. words_of declaration ≡ window_front (Bits 16 ∷ pascal ∷ position)) }
{
    let fields = numbers_then(alloc, &[16, 16, 16, 16, 16, 8, 8, 8, 8, 32, 16], PASCAL)?;
    positioned(alloc, fields)
}

/// 'CNTL': a rectangle, its value, whether it is visible (with a filler), the greatest and the least value, the id of
/// its procedure, a number for the program, and the title.
fn control(alloc: Global) -> Result<Declaration, AllocError>
    ensures { IfOk result (λ declaration. words_of declaration ≡ control_words) }
{
    Ok(whole(numbers_then(alloc, &[16, 16, 16, 16, 16, 8, 8, 16, 16, 16, 32], PASCAL)?))
}

/// 'vers': the version's number in two bytes, its stage, which one it is of this stage, the country, and its texts.
fn version(alloc: Global) -> Result<Declaration, AllocError>
    ensures { IfOk result (λ declaration. words_of declaration ≡ version_words) }
{
    let texts = then(alloc, PASCAL, PASCAL)?;
    Ok(whole(numbers_then(alloc, &[8, 8, 8, 8, 16], texts)?))
}

/// Adds a type.
fn push_type(
    types: &mut Vec<TextType>,
    kind: [u8; 4],
    naming: Naming,
    declaration: Declaration,
) -> Result<(), AllocError>
    ensures { OnOk result (map seen types.new.items ≡ push (map seen types.old.items) (kind, naming, words_of declaration)) }
{
    types.push(TextType {
        kind: ResType::new(kind),
        naming,
        declaration,
    })?;
    Ok(())
}

/// The types of resources that have texts: strings, lists of strings, texts, menus, the items, windows and controls of
/// dialogs, and versions. The only error is that the host has no memory.
pub fn text_types(alloc: Global) -> Result<Vec<TextType>, AllocError>
    ensures { IfOk result (λ types. map seen types.items ≡ known) }
{
    let mut types = Vec::new(alloc);
    push_type(&mut types, *b"STR ", Naming::Whole, whole(PASCAL))?;
    push_type(&mut types, *b"STR#", Naming::Numbered, string_list(alloc)?)?;
    push_type(&mut types, *b"TEXT", Naming::Whole, text())?;
    push_type(&mut types, *b"MENU", Naming::TitleAndNumbered, menu(alloc)?)?;
    push_type(&mut types, *b"DITL", Naming::DialogItems, item_list(alloc)?)?;
    push_type(&mut types, *b"DLOG", Naming::Title, dialog(alloc)?)?;
    push_type(&mut types, *b"WIND", Naming::Title, window(alloc)?)?;
    push_type(&mut types, *b"CNTL", Naming::Title, control(alloc)?)?;
    push_type(&mut types, *b"vers", Naming::ShortAndLong, version(alloc)?)?;
    Ok(types)
}
