//! Tags, with their attributes.

ghost use Rattle.std.specs.Prelude.{◌≡◌, ◌++◌, OnOk, map};
ghost use Rattle.html_text.specs.Texts.{attribute_text, attributes_text, end_tag, name_of, pair_of, start_tag, tag_name};

use crate::text::push_text;
use std::alloc::AllocError;

/// The elements of a page.
#[derive(Clone, Copy, Debug, PartialEq, Eq)]
pub enum Tag {
    Article,
    Audio,
    Code,
    Details,
    Division,
    FigureCaption,
    Figure,
    Heading2,
    Heading3,
    Image,
    Paragraph,
    Preformatted,
    Section,
    Span,
    Summary,
}

impl Tag {
    /// Its name.
    fn name(self) -> &'static str
        ensures { result.now ≡ tag_name self }
    {
        match self {
            Tag::Article => "article",
            Tag::Audio => "audio",
            Tag::Code => "code",
            Tag::Details => "details",
            Tag::Division => "div",
            Tag::FigureCaption => "figcaption",
            Tag::Figure => "figure",
            Tag::Heading2 => "h2",
            Tag::Heading3 => "h3",
            Tag::Image => "img",
            Tag::Paragraph => "p",
            Tag::Preformatted => "pre",
            Tag::Section => "section",
            Tag::Span => "span",
            Tag::Summary => "summary",
        }
    }
}

/// The attributes of an element.
#[derive(Clone, Copy, Debug, PartialEq, Eq)]
pub enum AttributeName {
    /// What is read in place of a picture.
    Alternative,
    Class,
    /// That a sound has a player, whatever the value is.
    Controls,
    Id,
    /// What an element is called where it can't be seen.
    Label,
    /// Where a picture or a sound is.
    Source,
    Width,
}

impl AttributeName {
    /// Its name.
    fn name(self) -> &'static str
        ensures { result.now ≡ name_of self }
    {
        match self {
            AttributeName::Alternative => "alt",
            AttributeName::Class => "class",
            AttributeName::Controls => "controls",
            AttributeName::Id => "id",
            AttributeName::Label => "aria-label",
            AttributeName::Source => "src",
            AttributeName::Width => "width",
        }
    }
}

/// An attribute, with its value in UTF-8.
#[derive(Clone, Copy)]
pub struct Attribute<'a> {
    pub name: AttributeName,
    pub value: &'a [u8],
}

/// Adds an attribute.
fn push_attribute(page: &mut Vec<u8>, attribute: &Attribute<'_>) -> Result<(), AllocError>
    ensures { OnOk result (page.new.items ≡ page.old.items ++ attribute_text (pair_of attribute.now)) }
{
    page.push(b' ')?;
    page.extend_from_slice(attribute.name.name().as_bytes())?;
    page.extend_from_slice(b"=\"")?;
    push_text(page, attribute.value)?;
    page.push(b'"')?;
    Ok(())
}

/// Adds attributes.
fn push_attributes(page: &mut Vec<u8>, attributes: &[Attribute<'_>]) -> Result<(), AllocError>
    ensures { OnOk result (page.new.items ≡ page.old.items ++ attributes_text (map pair_of attributes.now)) }
{
    for attribute in attributes {
        push_attribute(page, attribute)?;
    }
    Ok(())
}

/// Adds the tag at which an element begins. An error comes where the host has no memory: a part of the tag may have been
/// added then.
pub fn push_start(
    page: &mut Vec<u8>,
    tag: Tag,
    attributes: &[Attribute<'_>],
) -> Result<(), AllocError>
    ensures { OnOk result (page.new.items ≡ page.old.items ++ start_tag tag (map pair_of attributes.now)) }
{
    page.push(b'<')?;
    page.extend_from_slice(tag.name().as_bytes())?;
    push_attributes(page, attributes)?;
    page.push(b'>')?;
    Ok(())
}

/// Adds the tag at which an element ends. An error comes as above.
pub fn push_end(page: &mut Vec<u8>, tag: Tag) -> Result<(), AllocError>
    ensures { OnOk result (page.new.items ≡ page.old.items ++ end_tag tag) }
{
    page.extend_from_slice(b"</")?;
    page.extend_from_slice(tag.name().as_bytes())?;
    page.push(b'>')?;
    Ok(())
}
