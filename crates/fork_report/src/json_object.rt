//! Objects of JSON, made member by member.

ghost use Rattle.std.specs.Prelude.{◌≡◌, IfOk, IsOk, false, string_bytes};
ghost use Rattle.serde_json.specs.Data.{Data, Members, no_members, object, put as with_member};
ghost use Rattle.serde_json.specs.View.{members_view, view};
ghost use Rattle.serde_json.specs.Written.{has_float};
ghost use Rattle.fork_report.specs.Json.{Gives, Makes, line_of, of_file, place_data};

use crate::json_text::text_value;
use serde_json::{Map, Value, put};
use std::alloc::{AllocError, Global};

/// The members of an object so far, or that the host has no memory for them.
#[derive(Drop)]
pub struct Object {
    alloc: Global,
    members: Result<Map<String, Value>, AllocError>,
}

impl Object {
    /// An object without members.
    pub fn new(alloc: Global) -> Object
        ensures { Makes result no_members }
    {
        Object {
            alloc,
            members: Ok(Map::new(alloc)),
        }
    }

    /// An object that begins with the name of a file.
    pub fn of_file(alloc: Global, file: &str) -> Object
        ensures { Makes result (of_file file.now) }
    {
        Object::new(alloc).with("file", text_value(alloc, file))
    }

    /// The object with one more member.
    pub fn with(self, name: &str, value: Result<Value, AllocError>) -> Object
        ensures { (members : Members) (it : Data) → Makes self members → Gives value it → Makes result (with_member name.now it members) }
    {
        let Object { alloc, members } = self;
        Object {
            alloc,
            members: with_member(alloc, members, name, value),
        }
    }

    /// The whole object.
    pub fn value(self) -> Result<Value, AllocError>
        ensures { (members : Members) → Makes self members → Gives result (object members) }
    {
        Ok(Value::Object(self.members?))
    }

    /// The whole object as a line.
    pub fn line(self) -> Result<String, AllocError>
        ensures { (members : Members) → Makes self members → has_float (object members) ≡ false
            → IfOk result (λ line. string_bytes line ≡ line_of (object members)) }
    {
        let alloc = self.alloc;
        let mut line = self.value()?.to_string(alloc)?;
        line.push('\n')?;
        Ok(line)
    }
}

/// Members and one more.
fn with_member(
    alloc: Global,
    members: Result<Map<String, Value>, AllocError>,
    name: &str,
    value: Result<Value, AllocError>,
) -> Result<Map<String, Value>, AllocError>
    ensures made { IfOk result (λ map. IfOk members (λ old. IfOk value (λ it.
        members_view map.entries ≡ with_member name.now (view it) (members_view old.entries)))) }
    ensures had { IfOk result (λ _. IsOk members) }
    ensures given { IfOk result (λ _. IsOk value) }
{
    let mut members = members?;
    put(&mut members, alloc, name, value?)?;
    Ok(members)
}

/// A place from 0 on; null where there is none.
pub fn place_value(place: Option<usize>) -> Value
    ensures { view result ≡ place_data place }
{
    match place {
        Some(place) => Value::from(place),
        None => Value::Null,
    }
}
