//! What C learns of a resource.

ghost use Rattle.std.specs.Prelude.{◌≡◌, ◌≤◌, ◌++◌, [], drop, length, unwrap_or};
ghost use Rattle.held_zone.specs.Told.{code_told};
ghost use Rattle.held_files.specs.Told.{info_told, kind_told, over_code, over_number, shown_info};

use crate::elsewhere::OverZone;
use held_zone::host_err::HostErr;
use held_zone::told;
use mac_base::{Outcome, ResourceInfo, Results};

/// What a resource is called: its type as a number, its id, and how many bytes its name has: 0 where it has none.
#[repr(C)]
#[derive(Clone, Copy)]
pub struct MrInfo {
    pub kind: u32,
    pub id: i16,
    pub name_length: u32,
}

/// The code of a call over a zone, whose number is written where it gives one.
pub(crate) fn over_number(end: &OverZone<Outcome>, number: &mut u32) -> i16
    ensures code { result ≡ over_code end.now }
    ensures number { number.new ≡ over_number number.old end.now }
{
    match end {
        OverZone::Other => HostErr::OtherZone.code(),
        OverZone::This(outcome) => told::number(outcome, number),
    }
}

/// The code of an outcome, whose resource type is written where it gives one.
pub fn kind(outcome: &Option<Outcome>, kind: &mut u32) -> i16
    ensures code { result ≡ code_told outcome.now }
    ensures kind { kind.new ≡ kind_told kind.old outcome.now }
{
    if let Some(Ok(Results::Kind(given))) = outcome {
        *kind = u32::from_be_bytes(given.bytes());
    }
    told::code(outcome)
}

/// The code of an outcome; where it says what a resource is called, that is written, and its name to a place of 255
/// bytes or more.
pub fn info(outcome: &Option<Outcome>, info: &mut MrInfo, name: &mut [u8]) -> i16
    requires { 255 ≤ length name.old }
    ensures code { result ≡ code_told outcome.now }
    ensures info { (info.new, name.new) ≡ info_told (info.old, name.old) outcome.now }
{
    if let Some(Ok(Results::Info(given))) = outcome {
        put_name(name_in(given), name);
        *info = shown_info(given);
    }
    told::code(outcome)
}

/// What a resource is called, as C is shown it.
fn shown_info(given: &ResourceInfo) -> MrInfo
    ensures { result ≡ shown_info given.now }
{
    MrInfo {
        kind: u32::from_be_bytes(given.kind.bytes()),
        id: given.id,
        name_length: name_in(given).len() as u32,
    }
}

/// The bytes of a resource's name: none where it has none.
fn name_in(given: &ResourceInfo) -> &[u8]
    ensures bytes { result.now ≡ unwrap_or given.now.name [] }
    ensures short { length result.now ≤ 255 }
{
    match &given.name {
        Some(name) => name.as_slice(),
        None => &[],
    }
}

/// Copies a name over the first bytes of a place.
fn put_name(name: &[u8], place: &mut [u8])
    requires { length name.now ≤ length place.old }
    ensures { place.new ≡ name.now ++ drop (length name.now) place.old }
{
    let (first, _) = place.split_at_mut(name.len());
    first.copy_from_slice(name);
}
