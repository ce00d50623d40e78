//! Texts of the Macintosh as JSON.

ghost use Rattle.std.specs.Prelude.{◌≡◌, IfOk};
ghost use Rattle.serde_json.specs.Data.{string};
ghost use Rattle.serde_json.specs.View.{view};
ghost use Rattle.fork_list.specs.Roman.{roman_text};

use fork_list::text_of;
use mac_base::resource::ResType;
use serde_json::Value;
use std::alloc::{AllocError, Global};

/// A text as it is.
pub fn text_value(alloc: Global, text: &str) -> Result<Value, AllocError>
    ensures { IfOk result (λ value. view value ≡ string text.now) }
{
    Ok(Value::String(String::from_str(alloc, text)?))
}

/// The text of bytes in MacRoman.
pub fn roman_value(alloc: Global, bytes: &[u8]) -> Result<Value, AllocError>
    ensures { IfOk result (λ value. view value ≡ string (roman_text bytes.now)) }
{
    Ok(Value::String(text_of(alloc, bytes)?))
}

/// The four characters of a type.
pub fn kind_value(alloc: Global, kind: ResType) -> Result<Value, AllocError>
    ensures { IfOk result (λ value. view value ≡ string (roman_text kind)) }
{
    roman_value(alloc, &kind.bytes())
}
