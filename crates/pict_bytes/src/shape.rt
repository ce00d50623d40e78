//! How many bytes the operands of an opcode have.

ghost use Rattle.std.specs.Prelude.{◌≡◌, ◌<◌};
ghost use Rattle.pict_bytes.specs.Shapes.{bits_shape, drawn_shape, first_shape, shape_of};

/// How the dots of a picture within a picture are kept.
#[derive(Clone, Copy, Debug, PartialEq, Eq)]
pub enum Storage {
    /// A bit map or a pixel map with a table of colours: rows as they are.
    Plain,
    /// The same, packed.
    Packed,
    /// A pixel map whose dots are colours.
    Direct,
}

/// What the operands of an opcode are, as far as their length.
#[derive(Clone, Copy, Debug, PartialEq, Eq)]
pub enum Shape {
    /// So many bytes.
    Fixed(u16),
    /// So many bytes, one that counts letters, and the letters.
    Text(u16),
    /// So many bytes, two that count those after them, and these.
    Counted(u16),
    /// Four bytes that count those after them, and these.
    Long,
    /// A region or a polygon, whose first two bytes count all of it.
    Sized,
    /// A pattern in colour.
    Pattern,
    /// A picture, which may have a region as its mask.
    Bits { storage: Storage, is_masked: bool },
}

/// The shapes of the opcodes below $30.
const FIRST: [Shape; 48] = [
    Shape::Fixed(0),
    Shape::Sized,
    Shape::Fixed(8),
    Shape::Fixed(2),
    Shape::Fixed(1),
    Shape::Fixed(2),
    Shape::Fixed(4),
    Shape::Fixed(4),
    Shape::Fixed(2),
    Shape::Fixed(8),
    Shape::Fixed(8),
    Shape::Fixed(4),
    Shape::Fixed(4),
    Shape::Fixed(2),
    Shape::Fixed(4),
    Shape::Fixed(4),
    Shape::Fixed(8),
    Shape::Fixed(1),
    Shape::Pattern,
    Shape::Pattern,
    Shape::Pattern,
    Shape::Fixed(2),
    Shape::Fixed(2),
    Shape::Fixed(0),
    Shape::Fixed(0),
    Shape::Fixed(0),
    Shape::Fixed(6),
    Shape::Fixed(6),
    Shape::Fixed(0),
    Shape::Fixed(6),
    Shape::Fixed(0),
    Shape::Fixed(6),
    Shape::Fixed(8),
    Shape::Fixed(4),
    Shape::Fixed(6),
    Shape::Fixed(2),
    Shape::Counted(0),
    Shape::Counted(0),
    Shape::Counted(0),
    Shape::Counted(0),
    Shape::Text(4),
    Shape::Text(1),
    Shape::Text(1),
    Shape::Text(2),
    Shape::Counted(0),
    Shape::Counted(0),
    Shape::Counted(0),
    Shape::Counted(0),
];

/// The shape of an opcode below $30.
fn first_shape(code: u16) -> Shape
    ensures { result ≡ first_shape code }
{
    FIRST.get(code as usize).copied().unwrap_or(Shape::Fixed(0))
}

/// The shape of an opcode from $30 to $8F, by its first digit and whether it draws what the one before it drew.
fn drawn_shape(family: u16, is_same: bool) -> Shape
    ensures { result ≡ drawn_shape family is_same }
{
    match (family, is_same) {
        (6, true) => Shape::Fixed(4),
        (_, true) => Shape::Fixed(0),
        (6, false) => Shape::Fixed(12),
        (7 | 8, false) => Shape::Sized,
        (_, false) => Shape::Fixed(8),
    }
}

/// The shape of an opcode from $90 to $9F.
fn bits_shape(code: u16) -> Shape
    ensures { result ≡ bits_shape code }
{
    let storage = match code / 2 {
        0x48 => Storage::Plain,
        0x4C => Storage::Packed,
        0x4D => Storage::Direct,
        _ => return Shape::Counted(0),
    };
    Shape::Bits {
        storage,
        is_masked: code % 2 == 1,
    }
}

/// The shape of an opcode's operands (Inside Macintosh: Imaging With QuickDraw, appendix A, "Picture Opcodes").
pub fn shape_of(code: u16) -> Shape
    ensures { result ≡ shape_of code }
{
    match code {
        0..=0x2F => first_shape(code),
        0x30..=0x8F => drawn_shape(code / 16, code % 16 >= 8),
        0x90..=0x9F => bits_shape(code),
        0xA0 => Shape::Fixed(2),
        0xA1 => Shape::Counted(2),
        0xA2..=0xAF => Shape::Counted(0),
        0xB0..=0xCF => Shape::Fixed(0),
        0xD0..=0xFE => Shape::Long,
        0xFF => Shape::Fixed(0),
        0x100..=0x7FFF => Shape::Fixed(2 * (code / 256)),
        0x8000..=0x80FF => Shape::Fixed(0),
        _ => Shape::Long,
    }
}
