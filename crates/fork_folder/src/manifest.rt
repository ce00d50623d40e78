//! What `resources.json` says.

ghost use Rattle.std.specs.Prelude.{◌≡◌, ◌↔◌, IfErr, IfOk, IfSome, IsSome, None, Some, length, map, option_map, string_bytes};
ghost use Rattle.std.specs.List.{AllByRecursion, AllPass, list_any};
ghost use Rattle.hex.specs.Hex.{is_hex_digit};
ghost use Rattle.fork_list.specs.Roman.{roman_text};
ghost use Rattle.serde_json.specs.Data.{Data};
ghost use Rattle.serde_json.specs.Read.{read};
ghost use Rattle.fork_folder.specs.Json.{IsBad, IsManifestIn, IsNoManifest, IsPackingIn, IsUnreadText};
ghost use Rattle.fork_folder.specs.Manifest.{IsHexOf, Says, SaysFork};
ghost use Rattle.fork_folder.specs.Packed.{listed};
ghost use Rattle.fork_folder.specs.PackedAgain.{entry_of};
ghost use Rattle.fork_folder.specs.Unpacked.{file_row, unpacked_file};
ghost use Rattle.fork_folder.specs.declared.manifest.Manifest.{Manifest};
ghost use Rattle.fork_folder.specs.declared.rows.PackFault.TheVariants.{BadEntry};
ghost use Rattle.fork_folder.specs.Paths.{IsInFolder, IsRefusedPath, is_dots, is_end, is_inside, is_plain};

use crate::files::File;
use crate::json::manifest_in;
use crate::rows::{Entry, Flaw, PackFault};
use bitflags::Flags;
use fork_bytes::table::Row;
use fork_list::{bytes_of, text_of};
use hex::FromHex;
use mac_base::name::Name;
use mac_base::resource::{ResAttrs, ResType};
use serde_json::Value;
use std::alloc::{AllocError, Global};

/// What the manifest says of a resource, whose bytes are those of the file of this path in the folder. Type and name are
/// MacRoman, as UTF-8.
#[derive(Debug, Drop)]
pub struct Resource {
    pub kind: String,
    pub id: i16,
    pub name: Option<String>,
    pub attributes: u8,
    pub file: String,
}

/// What is written of the file that a fork is from: its container, and what that says of it. The dates count seconds as
/// the container does. What packs a folder passes over it.
#[derive(Debug, Drop)]
pub struct Origin {
    pub container: Option<String>,
    pub kind: Option<String>,
    pub creator: Option<String>,
    pub flags: Option<u16>,
    pub created: Option<u32>,
    pub modified: Option<u32>,
}

impl Origin {
    /// That of a file of which nothing is said.
    pub fn nothing() -> Origin
        ensures { result ≡ record { container = None; kind = None; creator = None; flags = None; created = None; modified = None } }
    {
        Origin {
            container: None,
            kind: None,
            creator: None,
            flags: None,
            created: None,
            modified: None,
        }
    }
}

/// What `resources.json` says of a fork: all but its resources' bytes.
#[derive(Debug, Drop)]
pub struct Manifest {
    /// The 240 bytes for the system and the application, in hexadecimal digits.
    pub extra: String,
    pub map_attributes: u16,
    pub resources: Vec<Resource>,
}

/// What is packed: the resources with the paths of their files, and all else of the fork.
#[derive(Drop)]
pub struct Packing {
    pub entries: Vec<Entry>,
    /// The 112 bytes for the system and the 128 for the application.
    pub extra: [u8; 240],
    pub map_attributes: u16,
}

/// Four bytes that a text in UTF-8 shows. None where it doesn't show four, or has a character that MacRoman lacks.
fn four_of(alloc: Global, text: &str) -> Result<Option<[u8; 4]>, AllocError>
    ensures { IfOk result (λ found. IfSome found (λ four. roman_text four ≡ text.now)) }
{
    let Some(bytes) = bytes_of(alloc, text)? else {
        return Ok(None);
    };
    match bytes.as_slice() {
        [first, second, third, fourth] => Ok(Some([*first, *second, *third, *fourth])),
        _ => Ok(None),
    }
}

/// The name of a resource. None where MacRoman lacks a character, or it has more than 255.
fn name_of(alloc: Global, text: &str) -> Result<Option<Name>, AllocError>
    ensures { IfOk result (λ found. IfSome found (λ name. roman_text name ≡ text.now)) }
{
    match bytes_of(alloc, text)? {
        Some(bytes) => Ok(Name::new(alloc, bytes.as_slice())?),
        None => Ok(None),
    }
}

/// Whether a path is a folder's name and a file's, both of which lead nowhere else.
fn is_inside(path: &str) -> bool
    ensures { result ≡ is_inside path.now }
{
    match path.split_once('/') {
        Some((folder, name)) => is_plain(folder.as_bytes()) && is_plain(name.as_bytes()),
        None => false,
    }
}

/// Whether a byte can't be in the name of a file: it ends a part of a path, or the path.
fn is_end(byte: u8) -> bool
    ensures { result ≡ is_end byte }
{
    byte == b'/' || byte == 0
}

/// Whether one of these bytes is such.
fn has_end(part: &[u8]) -> bool
    ensures { result ≡ list_any is_end part.now }
{
    part.iter().any(|byte| is_end(*byte))
}

/// Whether a part of a path names the folder itself or the one above.
fn is_dots(part: &[u8]) -> bool
    ensures { result ≡ is_dots part.now }
{
    part == b"".as_slice() || part == b".".as_slice() || part == b"..".as_slice()
}

/// Whether a part of a path names something in its folder.
fn is_plain(part: &[u8]) -> bool
    ensures { result ≡ is_plain part.now }
{
    !is_dots(part) && !has_end(part)
}

/// What is bad in an entry.
fn bad(file: String, what: Flaw) -> PackFault
    ensures { result ≡ BadEntry file what }
{
    PackFault::BadEntry { file, what }
}

/// What the manifest says of a resource.
fn entry_of(alloc: Global, resource: Resource) -> Result<Entry, PackFault>
    ensures entry { IfOk result (λ entry. Says resource (listed entry)) }
    ensures inside { IfOk result IsInFolder }
    ensures outside { IfErr result IsRefusedPath }
    ensures refused { (manifest : Manifest) → IfErr result (IsBad manifest) }
{
    let Resource {
        kind,
        id,
        name: text,
        attributes,
        file,
    } = resource;
    let Some(kind) = four_of(alloc, kind.as_str())? else {
        return Err(bad(file, Flaw::Kind));
    };
    let name = match text {
        Some(text) => match name_of(alloc, text.as_str())? {
            Some(name) => Some(name),
            None => return Err(bad(file, Flaw::Name)),
        },
        None => None,
    };
    if !is_inside(file.as_str()) {
        return Err(bad(file, Flaw::Path));
    }
    Ok(Entry {
        kind: ResType::new(kind),
        id,
        name,
        attributes: ResAttrs::from_bits_retain(attributes),
        file,
    })
}

/// The text of a resource's name, if it has one.
fn text_of_name(alloc: Global, row: &Row<'_>) -> Result<Option<String>, AllocError>
    ensures { IfOk result (λ found. option_map string_bytes found ≡ option_map roman_text row.now.name) }
{
    match &row.name {
        Some(name) => Ok(Some(text_of(alloc, name.as_slice())?)),
        None => Ok(None),
    }
}

/// What the manifest says of the resource in a file.
pub fn resource_of(alloc: Global, file: &File<'_>) -> Result<Resource, AllocError>
    ensures { IfOk result (λ resource. Says resource (entry_of (file_row file.now) (unpacked_file file.now))) }
{
    let row = file.row;
    let folder = file.folder.as_str();
    let name = file.name.as_str();
    Ok(Resource {
        kind: text_of(alloc, &row.kind.bytes())?,
        id: row.id,
        name: text_of_name(alloc, row)?,
        attributes: row.attributes.bits(),
        file: format!(in alloc; "{folder}/{name}")?,
    })
}

/// The 240 bytes that as many pairs of hexadecimal digits are.
fn extra_of(text: &str) -> Option<[u8; 240]>
    ensures value { IfSome result (IsHexOf text.now) }
    ensures found { IsSome result ↔ ((length text.now ≡ 480) × AllPass is_hex_digit text.now) }
{
    <[u8; 240] as FromHex>::from_hex(text).ok()
}

/// What a text says as JSON of a fork.
fn manifest_by(alloc: Global, text: &str) -> Result<Manifest, PackFault>
    ensures read { IfOk result (λ manifest. (datum : Data) × (read text.now ≡ Some datum) × IsManifestIn datum manifest) }
    ensures refused { IfErr result (IsUnreadText text.now) }
{
    match Value::from_str(alloc, text) {
        Ok(value) => manifest_in(alloc, &value),
        Err(error) if error.is_memory() => Err(PackFault::HostFull),
        Err(error) => Err(PackFault::BadManifest(error.to_string(alloc)?)),
    }
}

/// What a text says that `unpack` wrote. An error says what isn't so, and in which file's entry. Each file is in a
/// folder of the folder, and a path is refused only where it leads elsewhere.
pub fn manifest_of(alloc: Global, text: &str) -> Result<Packing, PackFault>
    ensures read { IfOk result (IsPackingIn text.now) }
    ensures refused { IfErr result (IsNoManifest text.now) }
    ensures inside { IfOk result (λ packing. AllByRecursion IsInFolder packing.entries.items) }
    ensures outside { IfErr result IsRefusedPath }
{
    packing_of(alloc, manifest_by(alloc, text)?)
}

/// What is packed by a manifest.
fn packing_of(alloc: Global, manifest: Manifest) -> Result<Packing, PackFault>
    ensures inside { IfOk result (λ packing. AllByRecursion IsInFolder packing.entries.items) }
    ensures outside { IfErr result IsRefusedPath }
    ensures says { IfOk result (λ packing. SaysFork manifest packing.extra packing.map_attributes (map listed packing.entries.items)) }
    ensures refused { IfErr result (IsBad manifest) }
{
    let Some(extra) = extra_of(manifest.extra.as_str()) else {
        return Err(PackFault::BadExtra);
    };
    let mut entries = Vec::new(alloc);
    for resource in manifest.resources {
        entries.push(entry_of(alloc, resource)?)?;
    }
    Ok(Packing {
        entries,
        extra,
        map_attributes: manifest.map_attributes,
    })
}
