//! Files that the manifest doesn't name, by their paths.

ghost use Rattle.std.specs.Prelude.{◌≡◌, ◌<◌, ◌≤◌, ◌^◌, IfErr, IfOk, IfSome, OnOk, length, map};
ghost use Rattle.std.specs.List.{insert};
ghost use Rattle.fork_folder.specs.Added.{AreAdded, AreNotAdded, IsAdded, IsNamedSo, IsNotAdded, count_at, is_path, with_entry};

use crate::file_name::FileName;
use crate::folder::{MarkedName, PlainName};
use crate::rows::{Entry, PackFault};
use bitflags::Flags;
use mac_base::name::Name;
use mac_base::resource::{ResAttrs, ResType};
use std::alloc::{AllocError, Global};

/// What the path of a file says: the resource, and which one it is of those with its type and id, from 0 on.
#[derive(Drop)]
struct Named {
    entry: Entry,
    n: usize,
}

/// What the name of a file says of its resource.
#[derive(Drop)]
struct FileText {
    id: i16,
    n: usize,
    name: Option<Name>,
    ghost few: { n < 2 ^ 63 },
}

/// The byte that the names of files and folders show first, and what is after it: `%` and two hexadecimal digits are
/// one.
fn first_byte(text: &[u8]) -> Option<(u8, &[u8])> {
    match text {
        [b'%', high, low, rest @ ..] => {
            let high = char::from(*high).to_digit(16)?;
            let low = char::from(*low).to_digit(16)?;
            Some(((16 * high + low) as u8, rest))
        }
        [byte, rest @ ..] => Some((*byte, rest)),
        [] => None,
    }
}

/// The bytes that a part of a name shows, up to a `%` without digits.
fn bytes_shown(alloc: Global, text: &[u8]) -> Result<Vec<u8>, AllocError> {
    let mut bytes = Vec::new(alloc);
    let mut left = text;
    for _byte in 0..text.len() {
        let Some((byte, rest)) = first_byte(left) else {
            break;
        };
        bytes.push(byte)?;
        left = rest;
    }
    Ok(bytes)
}

/// The type that the name of a folder shows: `~` is passed over, and `_` is a blank.
fn kind_shown(alloc: Global, folder: &str) -> Result<Option<ResType>, AllocError> {
    let mut letters = Vec::new(alloc);
    for byte in folder.as_bytes() {
        match *byte {
            b'~' => {}
            b'_' => letters.push(b' ')?,
            byte => letters.push(byte)?,
        }
    }
    match bytes_shown(alloc, letters.as_slice())?.as_slice() {
        [first, second, third, fourth] => {
            Ok(Some(ResType::new([*first, *second, *third, *fourth])))
        }
        _ => Ok(None),
    }
}

/// The id that a text shows, and which one it is of those with one type and id.
fn number_shown(text: &str) -> Option<(i16, usize)>
    ensures { IfSome result (λ number. number.1 < 2 ^ 63) }
{
    let Some((id, count)) = text.split_once('.') else {
        return Some((text.parse::<i16>().ok()?, 0));
    };
    let count = count.parse::<u32>().ok()?;
    Some((id.parse::<i16>().ok()?, count.checked_sub(1)? as usize))
}

/// What the name of a file shows: ID NAME.bin, with `.N` after the id of the N-th one.
fn file_shown(alloc: Global, file: &str) -> Result<Option<FileText>, AllocError> {
    let Some(text) = file.strip_suffix(".bin") else {
        return Ok(None);
    };
    let (number, name) = match text.split_once(' ') {
        Some((number, name)) => (number, Some(name)),
        None => (text, None),
    };
    let Some((id, n)) = number_shown(number) else {
        return Ok(None);
    };
    let name = match name {
        Some(name) => Name::new(alloc, bytes_shown(alloc, name.as_bytes())?.as_slice())?,
        None => None,
    };
    Ok(Some(FileText { id, n, name }))
}

/// Whether a path is that of such a file, in either folder of a type.
fn is_path_of(alloc: Global, path: &str, kind: ResType, text: &FileText) -> Result<bool, AllocError>
    ensures { IfOk result (λ holds. holds ≡ is_path path.now kind text.now.id text.now.n text.now.name) }
{
    let name = match &text.name {
        Some(name) => Some(name.as_slice()),
        None => None,
    };
    let file = FileName::new(text.id, text.n, name);
    let plain = PlainName(kind);
    let marked = MarkedName(kind);
    let plain = format!(in alloc; "{plain}/{file}")?;
    let marked = format!(in alloc; "{marked}/{file}")?;
    Ok(plain.as_str() == path || marked.as_str() == path)
}

/// What the path of a file says of its resource, as `unpack` names files. None of another path.
fn named_by(alloc: Global, path: &str) -> Result<Option<Named>, AllocError>
    ensures { IfOk result (λ found. IfSome found (λ named. IsNamedSo path.now named.entry named.n)) }
{
    let Some((folder, file)) = path.split_once('/') else {
        return Ok(None);
    };
    let Some(kind) = kind_shown(alloc, folder)? else {
        return Ok(None);
    };
    let Some(text) = file_shown(alloc, file)? else {
        return Ok(None);
    };
    if !is_path_of(alloc, path, kind, &text)? {
        return Ok(None);
    }
    let FileText { id, n, name } = text;
    let entry = Entry {
        kind,
        id,
        name,
        attributes: ResAttrs::empty(),
        file: String::from_str(alloc, path)?,
    };
    Ok(Some(Named { entry, n }))
}

/// How many of these entries have the type and the id of this one.
fn count_same(entries: &[Entry], new: &Entry) -> usize
    ensures { result ≡ count_at new.now.kind new.now.id entries.now }
{
    entries
        .iter()
        .filter(|entry| entry.kind == new.kind && entry.id == new.id)
        .count()
}

/// Where one more entry of this type goes: after the last one of its type, or at the end where there is none of it.
fn end_of_type(entries: &[Entry], kind: ResType) -> usize
    ensures within { result ≤ length entries.now }
    ensures added { (new : Entry) → new.kind ≡ kind → insert entries.now result new ≡ with_entry new entries.now }
{
    let mut end = entries.len();
    while end > 0 {
        if entries[end - 1].kind == kind {
            return end;
        }
        end -= 1;
    }
    entries.len()
}

/// Adds the entry of the file of a path.
fn add(alloc: Global, entries: &mut Vec<Entry>, path: &str) -> Result<(), PackFault>
    ensures added { OnOk result (IsAdded path.now entries.old.items entries.new.items) }
    ensures refused { IfErr result (IsNotAdded path.now entries.old.items) }
{
    let Some(Named { entry, n }) = named_by(alloc, path)? else {
        return Err(PackFault::Unnamed(String::from_str(alloc, path)?));
    };
    if count_same(entries.as_slice(), &entry) != n {
        return Err(PackFault::Taken(String::from_str(alloc, path)?));
    }
    let end = end_of_type(entries.as_slice(), entry.kind);
    entries.insert(end, entry)?;
    Ok(())
}

/// Entries, and those of the files of these paths, each after the last of its type: its type, its id and its name are
/// those that its path says, and it has no attributes. The first path is refused that `unpack` doesn't give, or that says
/// another number than that of the entries before it which have its type and id.
#[tactic(auto, using(crate::proofs::Adding::added_at))]
pub fn with_added(
    alloc: Global,
    entries: Vec<Entry>,
    paths: &[&str],
) -> Result<Vec<Entry>, PackFault>
    ensures added { IfOk result (λ new. AreAdded (map (λ path. path.now) paths.now) entries.items new.items) }
    ensures refused { IfErr result (AreNotAdded (map (λ path. path.now) paths.now) entries.items) }
{
    let mut entries = entries;
    for path in paths {
        add(alloc, &mut entries, path)?;
    }
    Ok(entries)
}
