//! The JSON of `resources.json`, read and written.

ghost use Rattle.std.specs.Prelude.{◌≡◌, ℕ, ℤ, IfErr, IfNone, IfOk, IfSome, Some, map, option_and_then, option_map, string_bytes};
ghost use Rattle.serde_json.specs.Find.{as_number, as_str, as_u64, get};
ghost use Rattle.serde_json.specs.Data.{array};
ghost use Rattle.serde_json.specs.View.{items_of, view};
ghost use Rattle.serde_json.specs.Read.{read};
ghost use Rattle.fork_folder.specs.Json.{AreResourcesIn, IsBits, IsIdIn, IsManifestIn, IsResourceIn, IsUnread, manifest_data, number_data, resource_data, text_data, text_or_null};

use crate::manifest::{Manifest, Origin, Resource};
use crate::rows::PackFault;
use serde_json::{Value, json};
use std::alloc::{AllocError, Global};

/// The text of a member.
fn text_at<'v>(value: &'v Value, key: &str) -> Option<&'v str>
    ensures { option_map (λ text. text.now) result ≡ option_and_then as_str (get key.now (view value.now)) }
{
    value.get(key).and_then(Value::as_str)
}

/// The number of a member.
fn number_at(value: &Value, key: &str) -> Option<u64>
    ensures { result ≡ option_and_then as_u64 (option_and_then as_number (get key.now (view value.now))) }
{
    value.get(key).and_then(Value::as_u64)
}

/// The number of a member that a byte holds.
fn byte_at(value: &Value, key: &str) -> Option<u8>
    ensures some { IfSome result (IsBits 8 (get key.now (view value.now))) }
    ensures none { IfNone result ((n : ℕ) → ¬ IsBits 8 (get key.now (view value.now)) n) }
{
    u8::try_from(number_at(value, key)?).ok()
}

/// The number of a member that two bytes hold.
fn word_at(value: &Value, key: &str) -> Option<u16>
    ensures some { IfSome result (IsBits 16 (get key.now (view value.now))) }
    ensures none { IfNone result ((n : ℕ) → ¬ IsBits 16 (get key.now (view value.now)) n) }
{
    u16::try_from(number_at(value, key)?).ok()
}

/// The id of a member.
fn id_at(value: &Value, key: &str) -> Option<i16>
    ensures some { IfSome result (IsIdIn (get key.now (view value.now))) }
    ensures none { IfNone result ((id : ℤ) → ¬ IsIdIn (get key.now (view value.now)) id) }
{
    i16::try_from(value.get(key).and_then(Value::as_i64)?).ok()
}

/// The text of a member that may be left out, or be null. None where it is another value.
fn optional_text_at<'v>(value: &'v Value, key: &str) -> Option<Option<&'v str>>
    ensures { option_map (λ found. option_map (λ text. text.now) found) result ≡ text_or_null (get key.now (view value.now)) }
{
    match value.get(key) {
        None | Some(Value::Null) => Some(None),
        Some(Value::String(text)) => Some(Some(text.as_str())),
        Some(_) => None,
    }
}

/// What JSON says of a resource.
fn resource_in(alloc: Global, value: &Value) -> Result<Resource, PackFault>
    ensures read { IfOk result (IsResourceIn (view value.now)) }
    ensures refused { IfErr result (IsUnread (IsResourceIn (view value.now))) }
{
    let kind = text_at(value, "type").ok_or(PackFault::BadMember("type"))?;
    let id = id_at(value, "id").ok_or(PackFault::BadMember("id"))?;
    let name = optional_text_at(value, "name").ok_or(PackFault::BadMember("name"))?;
    let attributes = byte_at(value, "attributes").ok_or(PackFault::BadMember("attributes"))?;
    let file = text_at(value, "file").ok_or(PackFault::BadMember("file"))?;
    Ok(Resource {
        kind: String::from_str(alloc, kind)?,
        id,
        name: match name {
            Some(name) => Some(String::from_str(alloc, name)?),
            None => None,
        },
        attributes,
        file: String::from_str(alloc, file)?,
    })
}

/// What a list of JSON says of resources.
fn resources_in(alloc: Global, list: &[Value]) -> Result<Vec<Resource>, PackFault>
    ensures read { IfOk result (λ resources. AreResourcesIn (map view list.now) resources.items) }
    ensures refused { IfErr result (IsUnread (AreResourcesIn (map view list.now))) }
{
    let mut resources = Vec::new(alloc);
    for value in list {
        resources.push(resource_in(alloc, value)?)?;
    }
    Ok(resources)
}

/// What JSON says of a fork.
#[tactic(auto, using(crate::proofs::Reading::manifest_unread))]
pub(crate) fn manifest_in(alloc: Global, value: &Value) -> Result<Manifest, PackFault>
    ensures read { IfOk result (IsManifestIn (view value.now)) }
    ensures refused { IfErr result (IsUnread (IsManifestIn (view value.now))) }
{
    let extra = text_at(value, "extra").ok_or(PackFault::BadMember("extra"))?;
    let map_attributes = word_at(value, "map_attributes").ok_or(PackFault::BadMember(
        "map_attributes",
    ))?;
    let Some(list) = value.get("resources").and_then(Value::as_array) else {
        return Err(PackFault::BadMember("resources"));
    };
    Ok(Manifest {
        extra: String::from_str(alloc, extra)?,
        map_attributes,
        resources: resources_in(alloc, list.as_slice())?,
    })
}

/// A text as JSON, or null.
fn text_value(alloc: Global, text: &Option<String>) -> Result<Value, AllocError>
    ensures { IfOk result (λ value. view value ≡ text_data (option_map string_bytes text.now)) }
{
    match text {
        Some(text) => Value::try_from_str(alloc, text.as_str()),
        None => Ok(Value::Null),
    }
}

/// A resource as JSON.
fn resource_value(alloc: Global, resource: &Resource) -> Result<Value, AllocError>
    ensures { IfOk result (λ value. view value ≡ resource_data resource.now) }
{
    let name = text_value(alloc, &resource.name)?;
    json!(in alloc; {
        "type": &resource.kind,
        "id": resource.id,
        "name": name,
        "attributes": resource.attributes,
        "file": &resource.file
    })
}

/// Resources as JSON, one after the other.
fn resource_values(alloc: Global, resources: &[Resource]) -> Result<Vec<Value>, AllocError>
    ensures { IfOk result (λ list. map view list.items ≡ map resource_data resources.now) }
{
    let mut list = Vec::new(alloc);
    for resource in resources {
        list.push(resource_value(alloc, resource)?)?;
    }
    Ok(list)
}

/// Resources as a list of JSON.
fn list_value(alloc: Global, resources: &[Resource]) -> Result<Value, AllocError>
    ensures { IfOk result (λ value. view value ≡ array (items_of (map resource_data resources.now))) }
{
    Ok(Value::Array(resource_values(alloc, resources)?))
}

/// Finder flags as JSON, or null.
fn flags_value(flags: Option<u16>) -> Value
    ensures { view result ≡ number_data flags }
{
    Value::from(flags)
}

/// A date as JSON, or null.
fn date_value(seconds: Option<u32>) -> Value
    ensures { view result ≡ number_data seconds }
{
    Value::from(seconds)
}

/// What is said of a fork as JSON, with what is said of the file that it is from.
fn manifest_value(alloc: Global, origin: &Origin, manifest: &Manifest) -> Result<Value, AllocError>
    ensures { IfOk result (λ value. view value ≡ manifest_data origin.now manifest.now) }
{
    let container = text_value(alloc, &origin.container)?;
    let kind = text_value(alloc, &origin.kind)?;
    let creator = text_value(alloc, &origin.creator)?;
    let flags = flags_value(origin.flags);
    let created = date_value(origin.created);
    let modified = date_value(origin.modified);
    let resources = list_value(alloc, manifest.resources.as_slice())?;
    json!(in alloc; {
        "container": container,
        "type": kind,
        "creator": creator,
        "flags": flags,
        "created": created,
        "modified": modified,
        "extra": &manifest.extra,
        "map_attributes": manifest.map_attributes,
        "resources": resources
    })
}

/// The text of `resources.json`: what is said of a fork, and of the file that it is from.
#[tactic(auto, using(crate::proofs::Reading::manifest_flat))]
pub fn manifest_text(
    alloc: Global,
    origin: &Origin,
    manifest: &Manifest,
) -> Result<String, AllocError>
    ensures { IfOk result (λ text. read (string_bytes text) ≡ Some (manifest_data origin.now manifest.now)) }
{
    manifest_value(alloc, origin, manifest)?.to_string_pretty(alloc)
}
