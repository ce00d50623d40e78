//! Which opcodes would draw something, and aren't drawn.

ghost use Rattle.std.specs.Prelude.{◌≡◌, ◌≤◌, count_by, length};
ghost use Rattle.std.specs.List.{list_any};
ghost use Rattle.fork_drawings.specs.Lacking.{beside, counted, has_map, is_drawn, is_left, is_line, is_move, is_quicktime, is_shape, is_text, lacking, undrawn_in};

use crate::bytes::two_at;
use crate::drawing::bits_of;
use crate::fault::Fault;
use crate::undrawn::Undrawn;
use pict_bytes::sequence::Opcode;
use pict_bytes::shape::Shape;
use pict_bytes::shape_of;

/// The opcode that moves the origin.
const ORIGIN: u16 = 0x0C;

/// Whether an opcode draws a line.
fn is_line(code: u16) -> bool
    ensures { result ≡ is_line code }
{
    0x20 <= code && code <= 0x23
}

/// Whether an opcode draws a text.
fn is_text(code: u16) -> bool
    ensures { result ≡ is_text code }
{
    0x28 <= code && code <= 0x2B
}

/// Whether an opcode draws a shape of a family, which is its first digit. What it draws, as a frame, is its second: of
/// each eight the last three are reserved.
fn is_shape(family: u16, code: u16) -> bool
    ensures { result ≡ is_shape family code }
{
    code / 16 == family && code % 8 < 5
}

/// Whether an opcode draws an image of QuickTime.
fn is_quicktime(code: u16) -> bool
    ensures { result ≡ is_quicktime code }
{
    code == 0x8200 || code == 0x8201
}

/// Whether an opcode moves the origin.
fn is_move(bytes: &[u8], opcode: Opcode) -> bool
    ensures { result ≡ is_move bytes.now opcode }
{
    let start = opcode.start as usize;
    opcode.code == ORIGIN && (0 < two_at(bytes, start) || 0 < two_at(bytes, start + 2))
}

/// Whether an opcode of this shape has a map.
fn has_map(shape: Shape) -> bool
    ensures { result ≡ has_map shape }
{
    matches!(shape, Shape::Bits { .. })
}

/// Whether an opcode has a map that is drawn.
fn is_drawn(bytes: &[u8], opcode: Opcode) -> bool
    requires { length bytes.now ≤ 16777216 }
    ensures { result ≡ is_drawn bytes.now opcode }
{
    bits_of(bytes, opcode).is_some()
}

/// Whether an opcode has a map that isn't drawn.
fn is_left(bytes: &[u8], opcode: Opcode) -> bool
    requires { length bytes.now ≤ 16777216 }
    ensures { result ≡ is_left bytes.now opcode }
{
    has_map(shape_of(opcode.code)) && bits_of(bytes, opcode).is_none()
}

/// How many opcodes draw lines.
fn count_lines(opcodes: &[Opcode]) -> usize
    ensures { result ≡ count_by (λ opcode. is_line opcode.code) opcodes.now }
{
    opcodes.iter().filter(|opcode| is_line(opcode.code)).count()
}

/// How many opcodes draw texts.
fn count_texts(opcodes: &[Opcode]) -> usize
    ensures { result ≡ count_by (λ opcode. is_text opcode.code) opcodes.now }
{
    opcodes.iter().filter(|opcode| is_text(opcode.code)).count()
}

/// How many opcodes draw shapes of a family.
fn count_shapes(opcodes: &[Opcode], family: u16) -> usize
    ensures { result ≡ count_by (λ opcode. is_shape family opcode.code) opcodes.now }
{
    opcodes
        .iter()
        .filter(|opcode| is_shape(family, opcode.code))
        .count()
}

/// How many opcodes draw images of QuickTime.
fn count_images(opcodes: &[Opcode]) -> usize
    ensures { result ≡ count_by (λ opcode. is_quicktime opcode.code) opcodes.now }
{
    opcodes
        .iter()
        .filter(|opcode| is_quicktime(opcode.code))
        .count()
}

/// How many opcodes move the origin.
fn count_moves(bytes: &[u8], opcodes: &[Opcode]) -> usize
    ensures { result ≡ count_by (is_move bytes.now) opcodes.now }
{
    opcodes
        .iter()
        .filter(|opcode| is_move(bytes, **opcode))
        .count()
}

/// How many opcodes have maps that aren't drawn.
fn count_left(bytes: &[u8], opcodes: &[Opcode]) -> usize
    requires { length bytes.now ≤ 16777216 }
    ensures { result ≡ count_by (is_left bytes.now) opcodes.now }
{
    opcodes
        .iter()
        .filter(|opcode| is_left(bytes, **opcode))
        .count()
}

/// Whether a map is drawn.
fn has_drawn(bytes: &[u8], opcodes: &[Opcode]) -> bool
    requires { length bytes.now ≤ 16777216 }
    ensures { result ≡ list_any (is_drawn bytes.now) opcodes.now }
{
    opcodes.iter().any(|opcode| is_drawn(bytes, *opcode))
}

/// How many opcodes of each kind aren't drawn.
fn counted(bytes: &[u8], opcodes: &[Opcode]) -> Undrawn
    requires { length bytes.now ≤ 16777216 }
    ensures { result ≡ counted bytes.now opcodes.now }
{
    Undrawn {
        lines: count_lines(opcodes),
        rectangles: count_shapes(opcodes, 3),
        round_rectangles: count_shapes(opcodes, 4),
        ovals: count_shapes(opcodes, 5),
        arcs: count_shapes(opcodes, 6),
        polygons: count_shapes(opcodes, 7),
        regions: count_shapes(opcodes, 8),
        texts: count_texts(opcodes),
        maps: count_left(bytes, opcodes),
        images: count_images(opcodes),
        moves: count_moves(bytes, opcodes),
    }
}

/// What isn't drawn, if something isn't.
fn undrawn_in(bytes: &[u8], opcodes: &[Opcode]) -> Option<Undrawn>
    requires { length bytes.now ≤ 16777216 }
    ensures { result ≡ undrawn_in bytes.now opcodes.now }
{
    let undrawn = counted(bytes, opcodes);
    if undrawn.is_empty() {
        None
    } else {
        Some(undrawn)
    }
}

/// What isn't drawn beside some maps, if there are some. A fault says that there are none.
fn beside(undrawn: Option<Undrawn>, has_some: bool) -> Result<Option<Undrawn>, Fault>
    ensures { result ≡ beside undrawn has_some }
{
    match undrawn {
        None => Ok(None),
        Some(undrawn) if has_some => Ok(Some(undrawn)),
        Some(undrawn) => Err(Fault::Nothing(undrawn)),
    }
}

/// What of opcodes isn't drawn, if something isn't. A fault says that it is all of them.
pub(crate) fn lacking(bytes: &[u8], opcodes: &[Opcode]) -> Result<Option<Undrawn>, Fault>
    requires { length bytes.now ≤ 16777216 }
    ensures { result ≡ lacking bytes.now opcodes.now }
{
    beside(undrawn_in(bytes, opcodes), has_drawn(bytes, opcodes))
}
