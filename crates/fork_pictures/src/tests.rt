//! Tests of what no contract says: that memory that is there is enough; and a PNG file that zlib's own program wrote.

use crate::fault::{Fault, NotDrawn};
use crate::kind::{IconColours, IconSize, Kind};
use crate::picture::Picture;
use crate::pixel::{Colour, Pixel};
use crate::{kind_of, picture_of, png_file};
use std::alloc::Global;
use std::test::Fail;

/// A 'clut' of two colours.
const TABLE: [u8; 24] = [
    0, 0, 0, 7, 0, 0, 0, 1, 0, 0, 0x12, 0x34, 0x56, 0x78, 0x9A, 0xBC, 0, 1, 0xFE, 0xDC, 0xBA, 0x98,
    0x76, 0x54,
];

/// Its PNG file, as Python's zlib makes the data at level 0.
const FILE: [u8; 77] = [
    137, 80, 78, 71, 13, 10, 26, 10, 0, 0, 0, 13, 73, 72, 68, 82, 0, 0, 0, 2, 0, 0, 0, 1, 8, 6, 0,
    0, 0, 244, 34, 127, 138, 0, 0, 0, 20, 73, 68, 65, 84, 120, 1, 1, 9, 0, 246, 255, 0, 18, 86,
    154, 255, 254, 186, 118, 255, 19, 155, 5, 47, 14, 214, 205, 129, 0, 0, 0, 0, 73, 69, 78, 68,
    174, 66, 96, 130,
];

/// The picture of a resource without another.
fn drawn(alloc: Global, kind: &[u8; 4], bytes: &[u8]) -> Result<Picture, NotDrawn> {
    let Some(kind) = kind_of(*kind) else {
        return Err(NotDrawn::Fault(Fault::Type(0)));
    };
    picture_of(alloc, kind, bytes, None)
}

#[test]
fn table_of_colours_is_a_file(rt: HostRuntime) -> Result<(), Fail> {
    let alloc = rt.alloc();
    let picture = drawn(alloc, b"clut", &TABLE)?;
    let file = png_file(alloc, &picture)?;
    assert_eq!(rt; file.as_slice(), FILE.as_slice());
    Ok(())
}

#[test]
fn icon_has_the_mask_of_its_family(rt: HostRuntime) -> Result<(), Fail> {
    let alloc = rt.alloc();
    let mut family = [0; 48];
    family[24] = 0x40;
    let mut icon = [0; 192];
    icon[1] = 35;
    let kind = Kind::InColour(IconSize::Mini, IconColours::All);
    let picture = picture_of(alloc, kind, &icon, Some(&family))?;
    let colour = Colour {
        red: 255,
        green: 0,
        blue: 0,
    };
    let seen = Pixel {
        colour,
        is_seen: true,
    };
    assert_eq!(rt; picture.pixels().get(1).copied(), Some(seen));
    assert!(rt;
        picture
            .pixels()
            .iter()
            .filter(|pixel| pixel.is_seen)
            .count()
            == 1
    );
    Ok(())
}

#[test]
fn picture_is_enlarged(rt: HostRuntime) -> Result<(), Fail> {
    let alloc = rt.alloc();
    let picture = drawn(alloc, b"PAT ", &[128, 0, 0, 0, 0, 0, 0, 0])?;
    let large = picture.scaled(alloc, 3)?;
    assert_eq!(rt; (large.width(), large.height()), (24, 24));
    assert!(rt;
        large
            .pixels()
            .iter()
            .filter(|pixel| pixel.colour.red == 0)
            .count()
            == 9
    );
    Ok(())
}
