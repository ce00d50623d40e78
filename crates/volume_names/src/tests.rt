//! Things of records that are made by hand.

use crate::find::find_thing;
use crate::folders::folders_by_id;
use crate::things::{list_things, path_of_thing};
use hfs_volume::entry::Entry;
use hfs_volume::name::Name;
use std::test::Fail;

/// A record: its kind, its id, the folder that it is in, and its name.
fn record(kind: u8, id: u8, parent: u32, name: &[u8; 4]) -> Entry {
    let mut body = [0; 102];
    body[0] = kind;
    body[if kind == 1 { 9 } else { 23 }] = id;
    Entry {
        place: 0,
        parent,
        name: Name::from_bytes(name),
        body,
    }
}

/// The root, a folder in it with another and two files; a thread; two folders in each other; a file in no folder.
fn records() -> [Entry; 9] {
    [
        record(1, 2, 1, b"Disk"),
        record(3, 0, 2, b"root"),
        record(1, 16, 2, b"Game"),
        record(2, 17, 16, b"Dark"),
        record(1, 18, 16, b"Sea\xCA"),
        record(2, 19, 18, b"b\x8Fte"),
        record(1, 20, 21, b"Loop"),
        record(1, 21, 20, b"Back"),
        record(2, 22, 99, b"Lost"),
    ]
}

#[test]
fn lists_things_with_paths(rt: HostRuntime) -> Result<(), Fail> {
    let alloc = rt.alloc();
    let folders = folders_by_id(alloc, &records())?;
    let things = list_things(alloc, &records())?;
    assert_eq!(rt; things.len(), 4);
    assert_eq!(rt; things[1].id(), 17);
    let path = path_of_thing(alloc, &folders, &things[3])?.ok_or("no path")?;
    let names = [
        Name::from_bytes(b"Game"),
        Name::from_bytes(b"Sea\xCA"),
        Name::from_bytes(b"b\x8Fte"),
    ];
    assert_eq!(rt; path.as_slice(), names.as_slice());
    Ok(())
}

#[test]
fn finds_things_by_paths(rt: HostRuntime) -> Result<(), Fail> {
    let folders = folders_by_id(rt.alloc(), &records())?;
    let things = list_things(rt.alloc(), &records())?;
    let mut path = Vec::new(rt.alloc());
    for (name, place) in [("gAME", Some(0)), ("sea ", Some(2)), ("dARK", None)] {
        path.push(Vec::from_slice(rt.alloc(), name.as_bytes())?)?;
        assert_eq!(rt; find_thing(&folders, &things, &path), place);
    }
    path.pop();
    path.push(Vec::from_slice(rt.alloc(), b"B\x8Fte")?)?;
    assert_eq!(rt; find_thing(&folders, &things, &path), Some(3));
    path.remove(0);
    assert_eq!(rt; find_thing(&folders, &things, &path), None);
    Ok(())
}
