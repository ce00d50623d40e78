//! The fields of a type.

/// How a number is shown.
#[derive(Clone, Copy, Debug, PartialEq, Eq)]
pub enum NumberForm {
    /// As `true` or `false`.
    Boolean,
    /// As a character.
    Character,
    /// In binary digits.
    Binary,
    /// In octal digits.
    Octal,
    /// In decimal digits, with a sign.
    Signed,
    /// In decimal digits, without a sign.
    Unsigned,
    /// In hexadecimal digits.
    Hexadecimal,
    /// As the characters of its bytes.
    Literal,
}

/// A number that has a name.
#[derive(Debug, Drop)]
pub struct NamedNumber {
    pub name: Vec<u8>,
    pub value: u32,
}

/// A number in so many bits, at most 32, the highest bit first.
#[derive(Debug, Drop)]
pub struct NumberField {
    pub width: u8,
    /// The number that it always is, if it is always the same. A value doesn't have it.
    pub only: Option<u32>,
    pub form: NumberForm,
    pub names: Vec<NamedNumber>,
}

/// The size of a count.
#[derive(Clone, Copy, Debug, PartialEq, Eq)]
pub enum CountSize {
    /// 8 bits.
    Byte,
    /// 16 bits.
    Integer,
    /// 32 bits.
    Longint,
}

/// How many bytes a text has, and how they are written.
#[derive(Clone, Copy, Debug, PartialEq, Eq)]
pub enum TextForm {
    /// So many bytes.
    Fixed(u32),
    /// A count, and then so many bytes: `pstring`, `wstring`.
    Counted(CountSize),
    /// Bytes that aren't 0, and then a 0: `cstring`.
    Ended,
    /// A byte that counts, so many bytes, and zeros: after the byte so many in all, `pstring[n]`.
    CountedWithin(u8),
    /// Bytes that aren't 0, and then zeros, at least one: so many in all, `cstring[n]`.
    EndedWithin(u32),
}

/// How a text is shown.
#[derive(Clone, Copy, Debug, PartialEq, Eq)]
pub enum TextStyle {
    /// In letters.
    Letters,
    /// In hexadecimal digits.
    Hexadecimal,
}

/// Bits that are 0.
#[derive(Clone, Copy, Debug, PartialEq, Eq)]
pub enum Zeros {
    /// So many.
    Fill(u32),
    /// Up to the next multiple of 8 bits, from the first bit of the resource on.
    AlignByte,
    /// Up to the next multiple of 16 bits.
    AlignWord,
    /// Up to the next multiple of 32 bits.
    AlignLong,
}

/// How many elements there are, or one less, as `$$CountOf(..)` and `$$CountOf(..) - 1`. Of no element, one less is the
/// greatest number of that size.
#[derive(Clone, Copy, Debug, PartialEq, Eq)]
pub struct Count {
    pub size: CountSize,
    pub less_one: bool,
}

/// A number that ends a list of elements, none of which begins with it.
#[derive(Clone, Copy, Debug, PartialEq, Eq)]
pub struct Mark {
    pub width: u8,
    pub value: u32,
}

/// The number by which the fields of a case are known, so many bits after their first one.
#[derive(Debug, Drop)]
pub struct Key {
    pub offset: u32,
    pub width: u8,
    pub value: u32,
    pub name: Vec<u8>,
}

/// Fields, in their order.
#[derive(Debug, Drop)]
pub enum Field {
    /// None.
    Nothing,
    /// The first, and then the second.
    Then(Box<Field>, Box<Field>),
    Number(NumberField),
    Text(TextForm, TextStyle),
    Zeros(Zeros),
    /// So many elements, each of these fields.
    Repeated(u32, Box<Field>),
    /// A count, fields, and so many elements.
    Counted(Count, Box<Field>, Box<Field>),
    /// Elements, and then the mark.
    Marked(Mark, Box<Field>),
    /// The fields of the case, or else the other cases.
    Case(Key, Box<Field>, Box<Field>),
    /// No case is left.
    NoCase,
}
