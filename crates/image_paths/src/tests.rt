//! Paths and names, as the rules of their texts have them.

use crate::{ImagePath, NameText, PathFault, text_name};
use fork_list::letters::Letters;
use std::alloc::Global;
use std::test::Fail;

/// What is typed, and the names that it has as they are printed, each with a bar after it, and a slash where it asks for a
/// folder.
const PATHS: [(&str, &str); 8] = [
    ("", "/"),
    ("Read me", "Read me|"),
    ("Games/Dark Castle", "Games|Dark Castle|"),
    ("Games/", "Games|/"),
    ("9:41/Icon\\x0d", "9:41|Icon\\x0D|"),
    ("a\\x3Ab\\x2Fc", "a\\x3Ab:c|"),
    (
        "r\u{E9}sum\u{E9} \"1\" \\\\",
        "r\u{E9}sum\u{E9} \"1\" \\\\|",
    ),
    ("don't\\\"", "don't\"|"),
];

/// What is typed, and why it is refused.
const REFUSED: [(&str, PathFault); 5] = [
    ("/", PathFault::Empty(1)),
    ("a//b", PathFault::Empty(2)),
    ("a/\u{4E2D}", PathFault::NotRoman(2)),
    ("a/b/\\q", PathFault::Escape(3)),
    ("\\x4", PathFault::Escape(1)),
];

/// Bytes of a name, and the name of a file of the host.
const HOST_NAMES: [(&[u8], &str); 8] = [
    (b"Read me", "Read me"),
    (b"9/41", "9:41"),
    (b".", "%2E"),
    (b"..", "%2E."),
    (b"", "%"),
    (b"50%:Icon\r", "50%25%3AIcon%0D"),
    (b"r\x8Esum\x8E", "r\u{E9}sum\u{E9}"),
    (b"a.b", "a.b"),
];

/// The names of a text, each printed again, with a bar after each, and a slash where it asks for a folder.
fn shown(alloc: Global, text: &str) -> Result<Result<String, PathFault>, Fail> {
    let path = match ImagePath::parse(alloc, text) {
        Ok(path) => path,
        Err(fault) => return Ok(Err(fault)),
    };
    let mut text = String::new(alloc);
    for name in &path.names {
        let name = NameText::new(Letters::Roman, name);
        write!(text, "{name}|")?;
    }
    if path.is_folder {
        text.push('/')?;
    }
    Ok(Ok(text))
}

#[test]
fn reads_paths(rt: HostRuntime) -> Result<(), Fail> {
    for (typed, names) in &PATHS {
        match shown(rt.alloc(), typed)? {
            Ok(text) => assert_eq!(rt; text.as_str(), *names),
            Err(fault) => assert_eq!(rt; Some(fault), None),
        }
    }
    Ok(())
}

#[test]
fn refuses_paths(rt: HostRuntime) -> Result<(), Fail> {
    for (typed, why) in &REFUSED {
        match shown(rt.alloc(), typed)? {
            Ok(text) => assert_eq!(rt; text.as_str(), ""),
            Err(fault) => assert_eq!(rt; fault, *why),
        }
    }
    Ok(())
}

#[test]
fn makes_host_names(rt: HostRuntime) -> Result<(), Fail> {
    for (name, text) in &HOST_NAMES {
        assert_eq!(rt; text_name(rt.alloc(), name)?.as_str(), *text);
    }
    Ok(())
}
