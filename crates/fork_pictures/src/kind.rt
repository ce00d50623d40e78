//! The kinds of pictures.

ghost use Rattle.std.specs.Prelude.{◌≡◌};
ghost use Rattle.fork_pictures.specs.Kinds.{kind_of, mask_type};

/// The size of an icon.
#[derive(Clone, Copy, Debug, PartialEq, Eq)]
pub enum IconSize {
    /// 32 pixels wide and high.
    Large,
    /// 16 pixels wide and high.
    Small,
    /// 16 pixels wide, and 12 high.
    Mini,
}

/// How many colours an icon in colour has.
#[derive(Clone, Copy, Debug, PartialEq, Eq)]
pub enum IconColours {
    Sixteen,
    All,
}

/// A type of resources that are pictures.
#[derive(Clone, Copy, Debug, PartialEq, Eq)]
pub enum Kind {
    /// 'ICON': an icon without a mask.
    Icon,
    /// 'ICN#', 'ics#', 'icm#': an icon and its mask.
    Masked(IconSize),
    /// 'icl4', 'ics4', 'icm4', 'icl8', 'ics8', 'icm8': an icon whose mask is that of the 'ICN#', 'ics#' or 'icm#' with
    /// the same id.
    InColour(IconSize, IconColours),
    /// 'SICN': small icons, each below the one before.
    SmallIcons,
    /// 'CURS': a cursor and its mask.
    Cursor,
    /// 'PAT ': a pattern.
    Pattern,
    /// 'PAT#': patterns, each below the one before.
    Patterns,
    /// 'cicn': an icon with its own size and colours, and its mask.
    ColourIcon,
    /// 'crsr': a cursor in colour and its mask.
    ColourCursor,
    /// 'ppat': a pattern in colour.
    ColourPattern,
    /// 'clut': a table of colours, a pixel for each.
    ColourTable,
    /// 'pltt': a palette, a pixel for each colour.
    Palette,
}

impl Kind {
    /// The type of the resource, of the same id, that has the mask of an icon in colour. Other kinds have none.
    pub fn mask_type(self) -> Option<[u8; 4]>
        ensures { result ≡ mask_type self }
    {
        match self {
            Kind::InColour(IconSize::Large, _) => Some(*b"ICN#"),
            Kind::InColour(IconSize::Small, _) => Some(*b"ics#"),
            Kind::InColour(IconSize::Mini, _) => Some(*b"icm#"),
            _ => None,
        }
    }
}

/// The kind of the resources of a type, or None where they aren't drawn.
pub fn kind_of(kind: [u8; 4]) -> Option<Kind>
    ensures { result ≡ kind_of kind }
{
    match &kind {
        b"ICON" => Some(Kind::Icon),
        b"ICN#" => Some(Kind::Masked(IconSize::Large)),
        b"ics#" => Some(Kind::Masked(IconSize::Small)),
        b"icm#" => Some(Kind::Masked(IconSize::Mini)),
        b"icl4" => Some(Kind::InColour(IconSize::Large, IconColours::Sixteen)),
        b"ics4" => Some(Kind::InColour(IconSize::Small, IconColours::Sixteen)),
        b"icm4" => Some(Kind::InColour(IconSize::Mini, IconColours::Sixteen)),
        b"icl8" => Some(Kind::InColour(IconSize::Large, IconColours::All)),
        b"ics8" => Some(Kind::InColour(IconSize::Small, IconColours::All)),
        b"icm8" => Some(Kind::InColour(IconSize::Mini, IconColours::All)),
        b"SICN" => Some(Kind::SmallIcons),
        b"CURS" => Some(Kind::Cursor),
        b"PAT " => Some(Kind::Pattern),
        b"PAT#" => Some(Kind::Patterns),
        b"cicn" => Some(Kind::ColourIcon),
        b"crsr" => Some(Kind::ColourCursor),
        b"ppat" => Some(Kind::ColourPattern),
        b"clut" => Some(Kind::ColourTable),
        b"pltt" => Some(Kind::Palette),
        _ => None,
    }
}
