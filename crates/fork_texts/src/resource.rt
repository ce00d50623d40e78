//! The texts among the parts of a resource.

ghost use Rattle.std.specs.Prelude.{◌≡◌, ◌++◌, ◌<◌, ◌^◌, IfOk, OnOk, length, option_copied};
ghost use Rattle.fork_texts.specs.Kinds.{type_of};
ghost use Rattle.fork_texts.specs.Places.{place_at, start};
ghost use Rattle.fork_texts.specs.Texts.{filled, part_put, shown, shown_part, texts_left};

use crate::entry::{Entry, text_from};
use crate::kinds::TextType;
use crate::place::{Before, Place};
use fork_change::row::ResourceId;
use mac_base::resource::ResType;
use res_types::value::Part;
use std::alloc::{AllocError, Global};

/// The type of resources that is called so, if it is one of those that have texts.
pub(crate) fn type_of(types: &[TextType], kind: ResType) -> Option<&TextType>
    ensures { option_copied result ≡ type_of types.now kind }
{
    types.iter().find(|one| one.kind == kind)
}

/// Adds the text of a part, if it is one that has a place.
fn push_shown(
    alloc: Global,
    entries: &mut Vec<Entry>,
    what: &ResourceId,
    before: &Before,
    part: &Part,
) -> Result<(), AllocError>
    requires { before.now.texts < 2 ^ 63 }
    ensures { OnOk result (entries.new.items ≡ entries.old.items ++ shown_part what.now (place_at before.now part.now) part.now) }
{
    let Some(place) = before.place(part) else {
        return Ok(());
    };
    let Part::Text(text) = part else {
        return Ok(());
    };
    entries.push(Entry {
        what: *what,
        place,
        text: text_from(alloc, text.as_slice())?,
    })?;
    Ok(())
}

/// Adds the texts of the parts of a resource, those that have a place.
pub(crate) fn push_texts(
    alloc: Global,
    entries: &mut Vec<Entry>,
    what: &ResourceId,
    one: &TextType,
    parts: &[Part],
) -> Result<(), AllocError>
    ensures { OnOk result (entries.new.items ≡ entries.old.items ++ shown what.now (start one.now.naming) parts.now) }
{
    let mut before = Before::start(one.naming);
    for part in parts {
        push_shown(alloc, entries, what, &before, part)?;
        before = before.after(part);
    }
    Ok(())
}

/// Gives a part the first of these texts, where it has a place. The result is the texts after that.
fn put_text<'a>(
    alloc: Global,
    place: Option<Place>,
    part: &mut Part,
    texts: &'a [Entry],
) -> Result<&'a [Entry], AllocError>
    ensures part { OnOk result (part.new ≡ part_put place part.old texts.entry.now) }
    ensures left { IfOk result (λ left. left.now ≡ texts_left place texts.entry.now) }
{
    match (place, texts.split_first()) {
        (Some(_), Some((first, others))) => {
            *part = Part::Text(text_from(alloc, first.text.as_slice())?);
            Ok(others)
        }
        _ => Ok(texts),
    }
}

/// Gives the parts of a resource these texts, one after the other, where a text has a place. All else stays.
pub(crate) fn fill(
    alloc: Global,
    one: &TextType,
    parts: &mut Vec<Part>,
    texts: &[Entry],
) -> Result<(), AllocError>
    ensures { OnOk result (parts.new.items ≡ filled (start one.now.naming) parts.old.items texts.now) }
{
    let mut before = Before::start(one.naming);
    let mut left = texts;
    for at in 0..parts.len() {
        let place = before.place(&parts[at]);
        before = before.after(&parts[at]);
        left = put_text(alloc, place, &mut parts[at], left)?;
    }
    Ok(())
}
