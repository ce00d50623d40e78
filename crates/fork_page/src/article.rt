//! A resource on a page.

ghost use Rattle.std.specs.Prelude.{◌≡◌, ◌++◌, IfOk, OnOk, Some, option_map, string_bytes};
ghost use Rattle.fork_page.specs.Articles.{article, body, compressed, element, hidden, picture, player, player_start, source_text, title_text};
ghost use Rattle.fork_page.specs.Shown.{IsShown};

use crate::shown::{FRONT, Shown, shown_of};
use base64::engine::general_purpose::STANDARD;
use fork_bytes::table::Row;
use fork_list::letters::Letters;
use fork_list::{NamePart, Quoted};
use html_text::{Attribute, AttributeName, Tag, push_end, push_start, push_text};
use mac_base::resource::ResType;
use std::alloc::{AllocError, Global};
use std::fmt;

/// The title of a resource: its type, its id, and its name if it has one.
#[derive(Clone, Copy)]
struct Title<'a> {
    kind: ResType,
    id: i16,
    name: Option<&'a [u8]>,
}

impl fmt::Display for Title<'_> {
    ghost output = { λ t. Some (title_text t.kind t.id (option_map (λ name. name.now) t.name)) };

    fn fmt<W: fmt::Write>(&self, f: &mut fmt::Formatter<W>) -> fmt::Result {
        let four = self.kind.bytes();
        let kind = Quoted::single(Letters::Roman, &four);
        let id = self.id;
        let name = NamePart::new(Letters::Roman, self.name);
        write!(f, "{kind} {id}{name}")
    }
}

/// Adds an element that has a text alone.
#[tactic(auto, unfolding(crate::specs::Articles::element))]
pub(crate) fn push_element(page: &mut Vec<u8>, tag: Tag, text: &str) -> Result<(), AllocError>
    ensures { OnOk result (page.new.items ≡ page.old.items ++ element tag text.now) }
{
    push_start(page, tag, &[])?;
    push_text(page, text.as_bytes())?;
    push_end(page, tag)
}

/// Where a file within the page is, after what kind of file it is.
fn source_of(alloc: Global, kind: &str, file: &[u8]) -> Result<String, AllocError>
    ensures { IfOk result (λ source. string_bytes source ≡ source_text kind.now file.now) }
{
    let mut source = String::from_str(alloc, kind)?;
    STANDARD.encode_string(file, &mut source)?;
    Ok(source)
}

/// Adds a picture, which has the title where it can't be seen.
fn push_picture(
    alloc: Global,
    page: &mut Vec<u8>,
    png: &[u8],
    title: &str,
) -> Result<(), AllocError>
    ensures { OnOk result (page.new.items ≡ page.old.items ++ picture png.now title.now) }
{
    let source = source_of(alloc, "data:image/png;base64,", png)?;
    let attributes = [
        Attribute {
            name: AttributeName::Source,
            value: source.as_bytes(),
        },
        Attribute {
            name: AttributeName::Alternative,
            value: title.as_bytes(),
        },
    ];
    push_start(page, Tag::Image, &attributes)
}

/// Adds the tag at which the player of a sound begins, which is called by the title.
#[tactic(auto, unfolding(crate::specs::Articles::player_start))]
fn push_player_start(
    alloc: Global,
    page: &mut Vec<u8>,
    wav: &[u8],
    title: &str,
) -> Result<(), AllocError>
    ensures { OnOk result (page.new.items ≡ page.old.items ++ player_start wav.now title.now) }
{
    let source = source_of(alloc, "data:audio/wav;base64,", wav)?;
    let attributes = [
        Attribute {
            name: AttributeName::Controls,
            value: b"",
        },
        Attribute {
            name: AttributeName::Label,
            value: title.as_bytes(),
        },
        Attribute {
            name: AttributeName::Source,
            value: source.as_bytes(),
        },
    ];
    push_start(page, Tag::Audio, &attributes)
}

/// Adds the player of a sound, which is called by the title.
fn push_player(alloc: Global, page: &mut Vec<u8>, wav: &[u8], title: &str) -> Result<(), AllocError>
    ensures { OnOk result (page.new.items ≡ page.old.items ++ player wav.now title.now) }
{
    push_player_start(alloc, page, wav, title)?;
    push_end(page, Tag::Audio)
}

/// Adds that a resource is compressed, and how many bytes it would have.
fn push_compressed(alloc: Global, page: &mut Vec<u8>, unpacked: usize) -> Result<(), AllocError>
    ensures { OnOk result (page.new.items ≡ page.old.items ++ compressed unpacked) }
{
    let text = format!(in alloc; "compressed, {unpacked} bytes unpacked")?;
    push_element(page, Tag::Paragraph, &text)
}

/// Adds hexadecimal digits, which are hidden until they are asked for.
fn push_digits(page: &mut Vec<u8>, summary: &str, digits: &str) -> Result<(), AllocError>
    ensures { OnOk result (page.new.items ≡ page.old.items ++ hidden summary.now digits.now) }
{
    push_start(page, Tag::Details, &[])?;
    push_element(page, Tag::Summary, summary)?;
    push_element(page, Tag::Preformatted, digits)?;
    push_end(page, Tag::Details)
}

/// Adds what is shown of a resource with so many bytes.
fn push_body(
    alloc: Global,
    page: &mut Vec<u8>,
    shown: &Shown,
    title: &str,
    length: usize,
) -> Result<(), AllocError>
    ensures { OnOk result (page.new.items ≡ page.old.items ++ body title.now length shown.now) }
{
    match shown {
        Shown::Picture(png) => push_picture(alloc, page, png, title),
        Shown::Sound(wav) => push_player(alloc, page, wav, title),
        Shown::Text(text) => push_element(page, Tag::Preformatted, text),
        Shown::Compressed(unpacked) => push_compressed(alloc, page, *unpacked),
        Shown::Digits(digits) => {
            let first = length.min(FRONT);
            let summary = format!(in alloc; "the first {first} bytes")?;
            push_digits(page, &summary, digits)
        }
    }
}

/// Adds a resource: its title, how many bytes it has, and what is shown of it.
fn push_shown(alloc: Global, page: &mut Vec<u8>, row: &Row, shown: &Shown) -> Result<(), AllocError>
    ensures { OnOk result (page.new.items ≡ page.old.items ++ article row.now shown.now) }
{
    let name = match &row.name {
        Some(name) => Some(name.as_slice()),
        None => None,
    };
    let title = Title {
        kind: row.kind,
        id: row.id,
        name,
    };
    let title = format!(in alloc; "{title}")?;
    let length = row.datum.as_slice().len();
    let size = format!(in alloc; "{length} bytes")?;
    push_start(page, Tag::Article, &[])?;
    push_element(page, Tag::Heading3, &title)?;
    push_element(page, Tag::Paragraph, &size)?;
    push_body(alloc, page, shown, &title, length)?;
    push_end(page, Tag::Article)
}

/// Adds a resource among these.
pub(crate) fn push_article(
    alloc: Global,
    page: &mut Vec<u8>,
    rows: &[Row],
    row: &Row,
) -> Result<(), AllocError>
    ensures { OnOk result ((shown : Shown) × IsShown rows.now row.now shown × (page.new.items ≡ page.old.items ++ article row.now shown)) }
{
    let shown = shown_of(alloc, rows, row)?;
    push_shown(alloc, page, row, &shown)
}
