//! The pixels of a picture.

/// A colour.
#[derive(Clone, Copy, Debug, PartialEq, Eq)]
pub struct Colour {
    pub red: u8,
    pub green: u8,
    pub blue: u8,
}

/// A pixel of a picture. One that isn't seen has a colour, too: a cursor inverts the screen where that is black.
#[derive(Clone, Copy, Debug, PartialEq, Eq)]
pub struct Pixel {
    pub colour: Colour,
    pub is_seen: bool,
}
