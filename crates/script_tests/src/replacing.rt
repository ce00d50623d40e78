//! Files are replaced at paths in memory, of which each call fails in turn.

ghost use Rattle.std.specs.Prelude.{◌≡◌};

use file_replace::{
    Fault, MemFile, MemPlace, Owner, Rights, Step, mode_for, prepare, put_both_places, replace,
};
use std::alloc::{AllocError, Global};
use std::process::Abort;

/// What is wanted where a call fails: its step, and whether the path has the new file.
const WANTED: [(Step, bool); 8] = [
    (Step::Create, false),
    (Step::Write, false),
    (Step::SetOwner, false),
    (Step::SetMode, false),
    (Step::Sync, false),
    (Step::Check, false),
    (Step::Rename, false),
    (Step::SyncFolder, true),
];

/// Who owns the files of these tests.
const OWNER: Owner = Owner {
    user: 501,
    group: 20,
};

/// Whether the path has a file of these bytes and this mode.
fn has(place: &MemPlace, bytes: &[u8], mode: u32) -> bool {
    match place.file() {
        Some(file) => file.bytes.as_slice() == bytes && file.mode == mode,
        None => false,
    }
}

/// Replaces a file where a call fails, and returns at which step.
fn replaced<R: Abort>(rt: &R, mut place: MemPlace) -> (MemPlace, Option<Step>)
    requires { place.beside ≡ None }
{
    let rights = Rights {
        owner: OWNER,
        mode: 0o640,
    };
    let done = replace(&mut place, b"new", Some(rights));
    match done {
        Ok(_) => (place, None),
        Err(Fault { step, is_left, .. }) => {
            assert!(rt; is_left == place.beside().is_some(), "what is left is told");
            (place, Some(step))
        }
    }
}

/// Modes of old files, whether the user and the group of the new one are the same, and its mode.
const MODES: [(u32, bool, bool, u32); 8] = [
    (0o6755, true, true, 0o6755),
    (0o6755, false, true, 0o755),
    (0o6755, true, false, 0o755),
    (0o1777, false, false, 0o777),
    (0o764, true, false, 0o744),
    (0o707, true, false, 0o700),
    (0o670, false, true, 0o670),
    (0o4653, false, false, 0o611),
];

#[test]
fn nobody_gets_more(rt: HostRuntime) {
    for (mode, keeps_user, keeps_group, wanted) in MODES {
        assert!(rt;
            mode_for(mode, keeps_user, keeps_group) == wanted,
            "{mode:o}"
        );
    }
}

/// A file of these bytes, as the tests have it.
fn file_of(alloc: Global, bytes: &[u8], mode: u32) -> Result<MemFile, AllocError> {
    Ok(MemFile {
        bytes: bytes.to_vec(alloc)?,
        owner: OWNER,
        mode,
    })
}

#[test]
fn a_mode_goes_with_its_owner(rt: HostRuntime) -> Result<(), AllocError> {
    let old = file_of(rt.alloc(), b"old", 0o4764)?;
    let mut place = MemPlace::new(rt.alloc(), Some(old), 0).with_only(None, Some(0));
    let rights = Rights {
        owner: OWNER,
        mode: 0o4764,
    };
    assert!(rt; replace(&mut place, b"new", Some(rights)).is_ok());
    assert!(rt; has(&place, b"new", 0o744));
    Ok(())
}

/// A place at which a new file is prepared.
fn prepared<R: Abort>(rt: &R, alloc: Global, turn: u64) -> Result<MemPlace, AllocError> {
    let mut place = MemPlace::new(alloc, Some(file_of(alloc, b"old", 0o640)?), turn);
    let rights = Rights {
        owner: OWNER,
        mode: 0o640,
    };
    assert!(rt;
        prepare(&mut place, b"new", Some(rights)).is_ok(),
        "call {turn}"
    );
    Ok(place)
}

/// Puts two files, and sees that none is lost.
fn put_two<R: Abort>(rt: &R, mut first: MemPlace, mut second: MemPlace, is_put: bool) {
    let done = put_both_places(&mut first, &mut second);
    assert!(rt; done.is_ok() == is_put);
    assert!(rt; has(&second, b"old", 0o640) || has(&first, b"new", 0o640));
    assert!(rt; first.beside().is_none() && second.beside().is_none());
}

#[test]
fn none_of_two_is_lost(rt: HostRuntime) -> Result<(), AllocError> {
    let alloc = rt.alloc();
    for turn in 6..9 {
        put_two(
            &rt,
            prepared(&rt, alloc, turn)?,
            prepared(&rt, alloc, 0)?,
            false,
        );
        put_two(
            &rt,
            prepared(&rt, alloc, 0)?,
            prepared(&rt, alloc, turn)?,
            false,
        );
    }
    put_two(
        &rt,
        prepared(&rt, alloc, 0)?,
        prepared(&rt, alloc, 0)?,
        true,
    );
    Ok(())
}

#[test]
fn each_call_fails_in_turn(rt: HostRuntime) -> Result<(), AllocError> {
    let alloc = rt.alloc();
    for (turn, (step, is_new)) in WANTED.iter().enumerate() {
        let old = MemFile {
            bytes: b"old".to_vec(alloc)?,
            owner: OWNER,
            mode: 0o600,
        };
        let place = MemPlace::new(alloc, Some(old), turn as u64 + 1);
        let (place, failed) = replaced(&rt, place);
        assert!(rt; failed == Some(*step), "call {turn}");
        assert!(rt; has(&place, b"new", 0o640) == *is_new, "call {turn}");
        assert!(rt; has(&place, b"old", 0o600) != *is_new, "call {turn}");
        assert!(rt; place.beside().is_none(), "call {turn}");
    }
    let (place, failed) = replaced(&rt, MemPlace::new(alloc, None, 0));
    assert!(rt; failed.is_none() && has(&place, b"new", 0o640) && place.calls() == 8);
    Ok(())
}
