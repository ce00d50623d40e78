//! What of a picture isn't drawn.

ghost use Rattle.std.specs.Prelude.{◌≡◌};

use std::fmt;

/// How many opcodes of each kind would draw something, and aren't drawn.
#[derive(Clone, Copy, Debug, PartialEq, Eq)]
pub struct Undrawn {
    pub lines: usize,
    pub rectangles: usize,
    /// Rectangles with round corners.
    pub round_rectangles: usize,
    pub ovals: usize,
    pub arcs: usize,
    pub polygons: usize,
    pub regions: usize,
    pub texts: usize,
    /// Bit maps and pixel maps whose mode is neither srcCopy nor ditherCopy.
    pub maps: usize,
    /// Images of QuickTime.
    pub images: usize,
    /// What moves the origin of all that is drawn after it, which is drawn as if nothing did.
    pub moves: usize,
}

/// How many there are of a kind, and what one and several of it are called.
#[derive(Clone, Copy)]
struct Part {
    count: usize,
    one: &'static str,
    many: &'static str,
}

impl Part {
    /// So many of a kind, and its names.
    fn new(count: usize, one: &'static str, many: &'static str) -> Part
        ensures count { result.count ≡ count }
        ensures one { result.one.now ≡ one.now }
        ensures many { result.many.now ≡ many.now }
    {
        Part { count, one, many }
    }

    /// What so many of the kind are called.
    fn name(&self) -> &'static str {
        if self.count == 1 { self.one } else { self.many }
    }
}

impl Undrawn {
    ghost use Rattle.std.specs.Prelude.{map};
    ghost use Rattle.fork_drawings.specs.Lacking.{counts, is_empty};

    /// Each kind: how many there are, and its names.
    fn parts(&self) -> [Part; 11]
        ensures { map (λ part. part.count) result ≡ counts self.now }
    {
        [
            Part::new(self.lines, "line", "lines"),
            Part::new(self.rectangles, "rectangle", "rectangles"),
            Part::new(
                self.round_rectangles,
                "rounded rectangle",
                "rounded rectangles",
            ),
            Part::new(self.ovals, "oval", "ovals"),
            Part::new(self.arcs, "arc", "arcs"),
            Part::new(self.polygons, "polygon", "polygons"),
            Part::new(self.regions, "region", "regions"),
            Part::new(self.texts, "text", "texts"),
            Part::new(self.maps, "map in another mode", "maps in other modes"),
            Part::new(self.images, "QuickTime image", "QuickTime images"),
            Part::new(self.moves, "move of the origin", "moves of the origin"),
        ]
    }

    /// Whether there are none.
    pub(crate) fn is_empty(&self) -> bool
        ensures { result ≡ is_empty self.now }
    {
        self.parts().iter().all(|part| part.count == 0)
    }
}

/// What is between one kind and the next, where so many are left.
fn joint(left: usize) -> &'static str {
    match left {
        0 => "",
        1 => " and ",
        _ => ", ",
    }
}

impl fmt::Display for Undrawn {
    fn fmt<W: fmt::Write>(&self, f: &mut fmt::Formatter<W>) -> fmt::Result {
        let parts = self.parts();
        let mut left = parts.iter().filter(|part| part.count > 0).count();
        for part in &parts {
            if part.count > 0 {
                let count = part.count;
                let name = part.name();
                left = left.saturating_sub(1);
                let joint = joint(left);
                write!(f, "{count} {name}{joint}")?;
            }
        }
        Ok(())
    }
}
