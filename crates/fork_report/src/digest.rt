//! Digests of resources and of forks.

ghost use Rattle.std.specs.Prelude.{◌≡◌, ◌++◌, ◌∷◌, [], length, IfOk, OnOk, option_map, string_bytes};
ghost use Rattle.fork_list.specs.Compressed.{unpacked_length};
ghost use Rattle.fork_list.specs.Listing.{row_text};
ghost use Rattle.fork_report.specs.Digests.{digest_line, digest_listing, digest_text};

use fork_answer::request::Choice;
use fork_bytes::table::Row;
use fork_list::letters::Letters;
use fork_list::{RowText, is_chosen, unpacked_length};
use mac_base::resource::ResType;
use sha2::{Digest, Sha256};
use std::alloc::{AllocError, Global};

/// The SHA-256 digest of bytes, in hexadecimal digits.
pub(crate) fn digest_text(alloc: Global, bytes: &[u8]) -> Result<String, AllocError>
    ensures { IfOk result (λ text. string_bytes text ≡ digest_text bytes.now) }
{
    hex::encode(alloc, Sha256::digest(bytes))
}

/// The bytes of a resource's name, if it has one.
fn name_of<'a>(row: &'a Row<'_>) -> Option<&'a [u8]>
    ensures { option_map (λ name. name.now) result ≡ row.now.name }
{
    match &row.name {
        Some(name) => Some(name.as_slice()),
        None => None,
    }
}

/// Adds the line of a resource, with the digest of its bytes.
fn push_line(
    alloc: Global,
    text: &mut String,
    letters: Letters,
    row: &Row,
) -> Result<(), AllocError>
    ensures { OnOk result (string_bytes text.new ≡ string_bytes text.old
        ++ (row_text length unpacked_length letters row.now ++ (32 ∷ (digest_text row.now.datum ++ 10 ∷ [])))) }
{
    let line = RowText {
        letters,
        kind: row.kind,
        id: row.id,
        count: row.datum.as_slice().len(),
        attributes: row.attributes,
        name: name_of(row),
        unpacked: unpacked_length(row.attributes, row.datum.as_slice()),
    };
    let digest = digest_text(alloc, row.datum.as_slice())?;
    writeln!(text, "{line} {digest}")
}

/// Adds the line of a resource, with the digest of its bytes, if its type is chosen.
fn push_chosen(
    alloc: Global,
    text: &mut String,
    letters: Letters,
    kinds: &[ResType],
    row: &Row,
) -> Result<(), AllocError>
    ensures { OnOk result (string_bytes text.new ≡ string_bytes text.old ++ digest_line letters kinds.now row.now) }
{
    if is_chosen(kinds, row.kind) {
        push_line(alloc, text, letters, row)?;
    }
    Ok(())
}

/// A list of resources as `listing` makes it, with the digest of its bytes at the end of each line.
pub(crate) fn digest_listing(
    alloc: Global,
    letters: Letters,
    kinds: &[ResType],
    rows: &[Row],
) -> Result<String, AllocError>
    ensures { IfOk result (λ text. string_bytes text ≡ digest_listing letters kinds.now rows.now) }
{
    let mut text = String::new(alloc);
    for row in rows {
        push_chosen(alloc, &mut text, letters, kinds, row)?;
    }
    Ok(text)
}
