//! A text of a resource, and where it is.

ghost use Rattle.std.specs.Prelude.{◌≡◌, ◌&&◌, IfOk, bytes_eq, true, ◌↔◌};
ghost use Rattle.fork_texts.specs.Putting.{with_entry_text};
ghost use Rattle.fork_texts.specs.Texts.{is_at, same_place};

use crate::place::Place;
use fork_change::row::ResourceId;
use res_types::value::Text;
use std::alloc::{AllocError, Global};

/// A text, and where it is.
#[derive(Drop)]
pub struct Entry {
    pub what: ResourceId,
    pub place: Place,
    /// Its bytes, in MacRoman.
    pub text: Text,
}

/// A copy of bytes.
pub(crate) fn text_from(alloc: Global, bytes: &[u8]) -> Result<Text, AllocError>
    ensures { IfOk result (λ text. text ≡ bytes.now) }
{
    Ok(Text::new(bytes.to_vec(alloc)?))
}

/// Whether places are the same.
fn same_place(some: Place, other: Place) -> bool
    ensures { result ≡ same_place some other }
{
    match (some, other) {
        (Place::Numbered(some), Place::Numbered(other)) => some == other,
        (Place::Name, Place::Name)
        | (Place::Whole, Place::Whole)
        | (Place::Title, Place::Title)
        | (Place::Short, Place::Short)
        | (Place::Long, Place::Long) => true,
        _ => false,
    }
}

impl Entry {
    /// Whether it is where another one is.
    pub(crate) fn is_at(&self, other: &Entry) -> bool
        ensures { result ≡ is_at self.now other.now }
    {
        self.what.kind == other.what.kind
            && self.what.id == other.what.id
            && same_place(self.place, other.place)
    }

    /// Whether it is where another one is, and has its text.
    fn is_same(&self, other: &Entry) -> bool
        ensures { result ≡ (is_at self.now other.now && bytes_eq self.now.text other.now.text) }
    {
        self.is_at(other) && self.text.as_slice() == other.text.as_slice()
    }

    /// The same place with a text.
    pub(crate) fn copy_with(&self, alloc: Global, text: &[u8]) -> Result<Entry, AllocError>
        ensures { IfOk result (λ entry. entry ≡ with_entry_text self.now text.now) }
    {
        Ok(Entry {
            what: self.what,
            place: self.place,
            text: text_from(alloc, text)?,
        })
    }
}

/// Whether these are the same texts in the same places.
pub(crate) fn same_entries(some: &[Entry], others: &[Entry]) -> bool
    ensures { (result ≡ true) ↔ (some.now ≡ others.now) }
{
    if some.len() != others.len() {
        return false;
    }
    for at in 0..some.len() {
        if !some[at].is_same(&others[at]) {
            return false;
        }
    }
    true
}
