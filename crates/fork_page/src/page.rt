//! Pages of several files.

ghost use Rattle.std.specs.Prelude.{◌≡◌, ◌++◌, IfOk, List, OnOk, string_bytes};
ghost use Rattle.fork_page.specs.Pages.{AddsFile, AreArticles};

use crate::article::{push_article, push_element};
use crate::frame::{FOOT, HEAD};
use fork_bytes::table::Row;
use html_text::{Tag, push_end, push_start};
use std::alloc::{AllocError, Global};

/// A file on a page: its name, what it is, and its resources.
#[derive(Clone, Copy)]
pub struct PageFile<'a> {
    pub name: &'a str,
    pub facts: &'a str,
    pub rows: &'a [Row<'a>],
}

/// A page of no file yet. An error comes where the host has no memory.
pub fn new_page(alloc: Global) -> Result<Vec<u8>, AllocError>
    ensures { IfOk result (λ page. page.items ≡ HEAD.now) }
{
    let mut page = Vec::new(alloc);
    page.extend_from_slice(HEAD.as_bytes())?;
    Ok(page)
}

/// Adds the resources of a file, each.
fn push_articles(alloc: Global, page: &mut Vec<u8>, rows: &[Row]) -> Result<(), AllocError>
    ensures { OnOk result (AreArticles rows.now rows.now page.old.items page.new.items) }
{
    for row in rows {
        push_article(alloc, page, rows, row)?;
    }
    Ok(())
}

/// Adds a file. An error comes where the host has no memory: a part of the file may have been added then.
pub fn push_file(alloc: Global, page: &mut Vec<u8>, file: &PageFile<'_>) -> Result<(), AllocError>
    ensures { OnOk result (AddsFile file.now.name.now file.now.facts.now file.now.rows.now page.old.items page.new.items) }
{
    push_start(page, Tag::Section, &[])?;
    push_element(page, Tag::Heading2, file.name)?;
    push_element(page, Tag::Paragraph, file.facts)?;
    push_articles(alloc, page, file.rows)?;
    push_end(page, Tag::Section)
}

/// Ends a page.
pub fn end_page(page: &mut Vec<u8>) -> Result<(), AllocError>
    ensures { OnOk result (page.new.items ≡ page.old.items ++ FOOT.now) }
{
    page.extend_from_slice(FOOT.as_bytes())
}
