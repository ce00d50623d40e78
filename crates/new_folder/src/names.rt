//! Names of what is in a folder.

ghost use Rattle.std.specs.Prelude.{◌≡◌, true, OnOk};
ghost use Rattle.std.specs.List.{list_any};
ghost use Rattle.new_folder.specs.NewFolder.{is_end, is_single};

use std::io::{Error, ErrorKind, Result};

/// Whether a byte can't be in the name of a file: it ends a part of a path, or the path.
fn is_end(byte: u8) -> bool
    ensures { result ≡ is_end byte }
{
    byte == b'/' || byte == 0
}

/// Whether a byte of a name can't be in it.
fn has_end(name: &[u8]) -> bool
    ensures { result ≡ list_any is_end name.now }
{
    name.iter().any(|byte| is_end(*byte))
}

/// Whether a name names something in a folder, and neither that one nor the one above.
fn is_single(name: &str) -> bool
    ensures { result ≡ is_single name.now }
{
    let bytes = name.as_bytes();
    let is_dots = bytes == b"".as_slice() || bytes == b".".as_slice() || bytes == b"..".as_slice();
    !is_dots && !has_end(bytes)
}

/// Refuses a name that isn't such.
pub(crate) fn check_single(name: &str) -> Result<()>
    ensures { OnOk result (is_single name.now ≡ true) }
{
    if is_single(name) {
        Ok(())
    } else {
        Err(Error::new(ErrorKind::InvalidInput, "it isn't a name within a folder"))
    }
}
