//! The places of texts in a resource.

ghost use Rattle.std.specs.Prelude.{◌≡◌, ◌==◌, ◌+◌, ◌<◌, ◌^◌, if◌then◌else◌, IfSome, None, Some};
ghost use Rattle.fork_texts.specs.Places.{after, has_text, place_at, start, text_place};

use crate::kinds::Naming;
use res_types::value::Part;

/// Where a text is in its resource.
#[derive(Clone, Copy)]
pub enum Place {
    /// It is the resource's name.
    Name,
    /// It is all that the resource has.
    Whole,
    /// It is the title.
    Title,
    /// It is the short one of two.
    Short,
    /// It is the long one of two.
    Long,
    /// It is the one with this number, from 1 on.
    Numbered(usize),
}

/// What is before a part of a resource.
#[derive(Clone, Copy)]
pub(crate) struct Before {
    pub naming: Naming,
    /// How many texts.
    pub texts: usize,
    /// The last number, or 0.
    pub number: u32,
}

/// Whether an item of a dialog has a text: a button, a check box, a radio button, a static text or an edit text (Inside
/// Macintosh: Macintosh Toolbox Essentials, chapter 6). The highest bit says that it is disabled.
fn has_text(kind: u32) -> bool
    ensures { result ≡ has_text kind }
{
    matches!(kind % 128, 4 | 5 | 6 | 8 | 16)
}

/// The n-th of some places.
fn only(texts: usize, place: Place) -> Option<Place>
    ensures { result ≡ (if texts == 0 then Some place else None) }
{
    if texts == 0 { Some(place) } else { None }
}

impl Before {
    /// What is before the first part.
    pub fn start(naming: Naming) -> Before
        ensures { result ≡ start naming }
    {
        Before {
            naming,
            texts: 0,
            number: 0,
        }
    }

    /// The place of a text that comes next, if it has one.
    fn text_place(&self) -> Option<Place>
        requires { self.now.texts < 2 ^ 63 }
        ensures { result ≡ text_place self.now.naming self.now.texts self.now.number }
    {
        match self.naming {
            Naming::Whole => only(self.texts, Place::Whole),
            Naming::Title => only(self.texts, Place::Title),
            Naming::ShortAndLong if self.texts == 0 => Some(Place::Short),
            Naming::ShortAndLong => only(self.texts - 1, Place::Long),
            Naming::Numbered => Some(Place::Numbered(self.texts + 1)),
            Naming::TitleAndNumbered if self.texts == 0 => Some(Place::Title),
            Naming::TitleAndNumbered => Some(Place::Numbered(self.texts)),
            Naming::DialogItems if has_text(self.number) => Some(Place::Numbered(self.texts + 1)),
            Naming::DialogItems => None,
        }
    }

    /// The place of the part that comes next, if it is a text that has one.
    pub fn place(&self, part: &Part) -> Option<Place>
        requires { self.now.texts < 2 ^ 63 }
        ensures { result ≡ place_at self.now part.now }
    {
        match part {
            Part::Text(_) => self.text_place(),
            Part::Number(_) | Part::Elements(_) | Part::Case(_) => None,
        }
    }

    /// What is before the part after this one.
    pub fn after(self, part: &Part) -> Before
        requires { self.texts < 2 ^ 63 }
        ensures { result ≡ after self part.now }
    {
        match part {
            Part::Text(_) => Before {
                texts: self.texts + 1,
                ..self
            },
            Part::Number(number) => Before {
                number: *number,
                ..self
            },
            Part::Elements(_) | Part::Case(_) => self,
        }
    }
}
