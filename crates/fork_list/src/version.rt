//! The versions of programs, as resources 'vers' give them.

ghost use Rattle.std.specs.Prelude.{◌≡◌, ◌+◌, ◌*◌, ◌/◌, ◌%◌, option_map};
ghost use Rattle.fork_list.specs.Versions.{version_text, decimal_of, stage_of, version_of};

use crate::strings::first_string;

/// How far a program is.
#[derive(Clone, Copy, Debug, PartialEq, Eq)]
pub enum Stage {
    Development,
    Alpha,
    Beta,
    Final,
    /// None of these: the byte.
    Other(u8),
}

/// A version of a program (Inside Macintosh: Macintosh Toolbox Essentials, chapter 7).
#[derive(Clone, Copy, Debug)]
pub struct Version<'a> {
    pub major: u8,
    pub minor: u8,
    /// Which correction of the version it is.
    pub correction: u8,
    pub stage: Stage,
    /// Which one it is of this stage.
    pub prerelease: u8,
    /// The country that it is for.
    pub region: u16,
    /// The version's number, in MacRoman.
    pub short: &'a [u8],
    /// What the Finder shows of the version, in MacRoman.
    pub long: &'a [u8],
}

/// The stage of a byte.
fn stage_of(byte: u8) -> Stage
    ensures { result ≡ stage_of byte }
{
    match byte {
        0x20 => Stage::Development,
        0x40 => Stage::Alpha,
        0x60 => Stage::Beta,
        0x80 => Stage::Final,
        _ => Stage::Other(byte),
    }
}

/// The number of two decimal digits, of four bits each.
fn decimal_of(byte: u8) -> u8
    ensures { result ≡ decimal_of byte }
{
    byte / 16 * 10 + byte % 16
}

/// The version that a resource 'vers' gives. None where the resource ends before its texts do.
pub fn version_of(resource: &[u8]) -> Option<Version<'_>>
    ensures { option_map version_text result ≡ version_of resource.now }
{
    let [major, minor, stage, prerelease, high, low, texts @ ..] = resource else {
        return None;
    };
    let short = first_string(texts)?;
    let long = first_string(short.rest)?;
    Some(Version {
        major: decimal_of(*major),
        minor: *minor / 16,
        correction: *minor % 16,
        stage: stage_of(*stage),
        prerelease: *prerelease,
        region: *high as u16 * 256 + *low as u16,
        short: short.text,
        long: long.text,
    })
}
