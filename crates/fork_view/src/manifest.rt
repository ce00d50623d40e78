//! What `resources.json` says: all of a fork that isn't in the files of its resources.

ghost use Rattle.std.specs.Prelude.{◌≡◌, IfOk, Some, map, option_map, string_bytes};
ghost use Rattle.serde_json.specs.Read.{read};
ghost use Rattle.mac_files.specs.Kinds.{kind_of};
ghost use Rattle.mac_files.specs.OldFiles.{old_file, said};
ghost use Rattle.fork_list.specs.Roman.{roman_text};
ghost use Rattle.fork_folder.specs.Json.{manifest_data};
ghost use Rattle.fork_folder.specs.Manifest.{AllSay, IsHexOf, SaysFork};
ghost use Rattle.fork_folder.specs.PackedAgain.{entry_of};
ghost use Rattle.fork_folder.specs.Unpacked.{file_row, unpacked_file};
ghost use Rattle.fork_folder.specs.declared.manifest.Manifest.{Manifest};
ghost use Rattle.fork_folder.specs.declared.manifest.Origin.{Origin};
ghost use Rattle.fork_view.specs.Unpacking.{IsOriginIn, IsOriginOf, container_text};

use fork_bytes::table::Table;
use fork_folder::files::File;
use fork_folder::manifest::{Manifest, Origin, Resource, resource_of};
use fork_folder::manifest_text;
use fork_list::text_of;
use mac_files::OldFile;
use mac_files::contents::{Dates, FinderInfo};
use mac_files::kind::FileKind;
use mac_files::old_file::{FileFault, FileView};
use std::alloc::{AllocError, Global};

/// The type of a file as a text, if it is known.
fn type_text(alloc: Global, finder: Option<FinderInfo>) -> Result<Option<String>, AllocError>
    ensures { IfOk result (λ text. option_map string_bytes text ≡ option_map (λ it. roman_text it.kind) finder) }
{
    match finder {
        Some(finder) => Ok(Some(text_of(alloc, &finder.kind)?)),
        None => Ok(None),
    }
}

/// The creator of a file as a text, if it is known.
fn creator_text(alloc: Global, finder: Option<FinderInfo>) -> Result<Option<String>, AllocError>
    ensures { IfOk result (λ text. option_map string_bytes text ≡ option_map (λ it. roman_text it.creator) finder) }
{
    match finder {
        Some(finder) => Ok(Some(text_of(alloc, &finder.creator)?)),
        None => Ok(None),
    }
}

/// The Finder flags of a file, if they are known.
fn flags_of(finder: Option<FinderInfo>) -> Option<u16>
    ensures { result ≡ option_map (λ it. it.flags) finder }
{
    finder.map(|finder| finder.flags)
}

/// When a file was made, if it is known.
fn created_of(dates: Option<Dates>) -> Option<u32>
    ensures { result ≡ option_map (λ it. it.created) dates }
{
    dates.map(|dates| dates.created)
}

/// When a file was last changed, if it is known.
fn modified_of(dates: Option<Dates>) -> Option<u32>
    ensures { result ≡ option_map (λ it. it.modified) dates }
{
    dates.map(|dates| dates.modified)
}

/// What a file is called that is known as this, unless nothing is known of it.
fn container_of(alloc: Global, kind: FileKind) -> Result<Option<String>, AllocError>
    ensures { IfOk result (λ text. option_map string_bytes text ≡ container_text kind) }
{
    if kind.is_known() {
        Ok(Some(String::from_str(alloc, kind.name())?))
    } else {
        Ok(None)
    }
}

/// What a file is that is known as this.
fn origin_by(alloc: Global, kind: FileKind, view: &FileView<'_>) -> Result<Origin, AllocError>
    ensures { IfOk result (IsOriginOf kind (said view.now)) }
{
    Ok(Origin {
        container: container_of(alloc, kind)?,
        kind: type_text(alloc, view.finder)?,
        creator: creator_text(alloc, view.finder)?,
        flags: flags_of(view.finder),
        created: created_of(view.dates),
        modified: modified_of(view.dates),
    })
}

/// What a file is. Nothing is said of one that has a fault.
#[tactic(auto, using(crate::proofs::Saying::origin_found, crate::proofs::Saying::origin_fault))]
fn origin_of(alloc: Global, file: &[u8]) -> Result<Origin, AllocError>
    ensures { IfOk result (IsOriginIn (kind_of file.now) (old_file file.now)) }
{
    match OldFile::open(alloc, file) {
        Ok(found) => origin_by(alloc, found.kind(), &found.view()),
        Err(FileFault::HostFull) => Err(AllocError),
        Err(FileFault::Container(_)) => Ok(Origin::nothing()),
        Err(FileFault::Text(_)) => Ok(Origin::nothing()),
    }
}

/// Bytes in hexadecimal digits.
fn hex_of(alloc: Global, bytes: &[u8]) -> Result<String, AllocError>
    ensures { IfOk result (λ text. IsHexOf (string_bytes text) bytes.now) }
{
    hex::encode_upper(alloc, bytes)
}

/// What `resources.json` says of resources that are unpacked to these files.
fn resources_of(alloc: Global, files: &[File<'_>]) -> Result<Vec<Resource>, AllocError>
    ensures { IfOk result (λ resources. AllSay resources.items (map (λ file. entry_of (file_row file) (unpacked_file file)) files.now)) }
{
    let mut resources = Vec::new(alloc);
    for file in files {
        resources.push(resource_of(alloc, file)?)?;
    }
    Ok(resources)
}

/// What `resources.json` says of a fork with this table, whose resources are unpacked to these files.
fn manifest_of(alloc: Global, table: &Table<'_>, files: &[File<'_>]) -> Result<Manifest, AllocError>
    ensures { IfOk result (λ manifest. SaysFork manifest table.now.extra table.now.map_attributes (map (λ file. entry_of (file_row file) (unpacked_file file)) files.now)) }
{
    Ok(Manifest {
        extra: hex_of(alloc, &table.extra)?,
        map_attributes: table.map_attributes,
        resources: resources_of(alloc, files)?,
    })
}

/// The text of `resources.json` for a file with this table, whose resources are unpacked to these files.
pub fn text_of_all(
    alloc: Global,
    file: &[u8],
    table: &Table<'_>,
    files: &[File<'_>],
) -> Result<String, AllocError>
    ensures { IfOk result (λ text. (origin : Origin) × (all : Manifest) × IsOriginIn (kind_of file.now) (old_file file.now) origin × (read (string_bytes text) ≡ Some (manifest_data origin all))
        × SaysFork all table.now.extra table.now.map_attributes (map (λ file. entry_of (file_row file) (unpacked_file file)) files.now)) }
{
    let origin = origin_of(alloc, file)?;
    let manifest = manifest_of(alloc, table, files)?;
    manifest_text(alloc, &origin, &manifest)
}
