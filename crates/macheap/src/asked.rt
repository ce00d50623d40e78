//! The words of the command line.

ghost use Rattle.std.specs.Prelude.{◌≡◌, IfOk, IfErr, OnErr, false, map, option_map};
ghost use Rattle.std.specs.Char.{is_ascii_digit};
ghost use Rattle.std.specs.List.{list_all};
ghost use Rattle.clap.specs.Words.{app_of, kind_of, rule_of};
ghost use Rattle.std.specs.Result.{result_err};
ghost use Rattle.macheap.specs.Asking.{Asks, MeansNoRun, IsAllowed, IsNoNumberFault, zone_fault};
ghost use Rattle.macheap.specs.Options.{file_option, flag_option, heads_of, is_set, option_named, options, IsNumberOf, IsNoNumber};

use crate::files::Files;
use clap::error::ErrorKind;
use clap::{Arg, ArgAction, Command};
use mac_base::block::HeadKind;
use mac_base::zone_spec::{BadSpec, ZoneSpec};
use std::alloc::{AllocError, Global};
use std::convert::AsStr;
use thiserror::Error;

/// The version, which is that of `resfork` and of the library too.
const VERSION: &str = "0.1.0";

/// The size of a zone where `--zone` doesn't give one, in bytes.
pub const DEFAULT_ZONE: u32 = 4096;

/// The address at which a zone begins where `--base` doesn't give one.
pub const DEFAULT_BASE: u32 = 0x10_0000;

/// The mode where `--mode` doesn't give one.
pub const DEFAULT_MODE: u32 = 24;

/// What the words ask for.
#[derive(Drop)]
pub enum Asked<'a> {
    /// To run the script of standard input on such a zone, over these files.
    Run(ZoneSpec, Files<'a>),
    /// To show this text, help or the version, and to run nothing.
    Help(clap::Error),
}

/// Why the words ask for nothing.
#[derive(Debug, Drop, Error)]
pub enum NotAsked {
    /// A word is no option, an option is there twice or has no value.
    #[error("{0}")]
    Words(clap::Error),
    /// There are more files than a run may have.
    #[error("error: --fork may be given 8 times; see 'macheap --help'")]
    TooManyForks,
    /// There are journals, and not one for each file.
    #[error("error: give --journal as often as --fork, or not at all; see 'macheap --help'")]
    OtherJournals,
    /// An option's value is no number.
    #[error("error: --{0} takes decimal digits for a number up to 4294967295; see 'macheap --help'")]
    NoNumber(&'static str),
    /// There is no such mode.
    #[error("error: --mode is 24 or 32, and not {0}; see 'macheap --help'")]
    Mode(u32),
    /// There is no zone of these sizes.
    #[error("error: {0}; give other numbers with --zone, --limit and --base, see 'macheap --help'")]
    Spec(BadSpec),
    /// The host has no memory for the words.
    #[error("error: the host has no memory")]
    HostFull,
}

impl From<AllocError> for NotAsked {
    ghost use Rattle.std.specs.Prelude.{◌≡◌};
    ghost use Rattle.macheap.specs.declared.asked.NotAsked.TheVariants.{HostFull};

    ghost from_gives = { λ _ e. e ≡ HostFull };

    fn from(_: AllocError) -> NotAsked {
        NotAsked::HostFull
    }
}

/// The option of this name, which is there at most once and takes a number.
fn number_option<'a>(alloc: Global, name: &'a str, help: &'a str) -> Arg<'a>
    ensures rule { rule_of result ≡ option_named name.entry.now }
    ensures local { result.global ≡ false }
{
    Arg::new(alloc, name)
        .long(name)
        .value_name("N")
        .action(ArgAction::Set)
        .help(help)
}

/// The option of this name, which names a file. It may be there several times.
fn file_option<'a>(alloc: Global, name: &'a str, help: &'a str) -> Arg<'a>
    ensures rule { rule_of result ≡ file_option name.entry.now }
    ensures local { result.global ≡ false }
{
    Arg::new(alloc, name)
        .long(name)
        .value_name("FILE")
        .action(ArgAction::Append)
        .help(help)
}

/// The option of this name, which takes no value and is there at most once.
fn flag_option<'a>(alloc: Global, name: &'a str, help: &'a str) -> Arg<'a>
    ensures rule { rule_of result ≡ flag_option name.entry.now }
    ensures local { result.global ≡ false }
{
    Arg::new(alloc, name)
        .long(name)
        .action(ArgAction::SetTrue)
        .help(help)
}

/// The command line's options.
fn command<'a>(alloc: Global) -> Result<Command<'a>, AllocError>
    ensures { IfOk result (λ command. app_of command ≡ options) }
{
    let zone_help = "The zone's size in bytes, a multiple of 4 from 1024 to 1048576 (default 4096)";
    let limit_help = "The size that the zone may grow to, up to 1048576 (default: the zone's size)";
    let base_help = "The address of its first byte, a multiple of 4 from 4096 on (default 1048576)";
    let mode_help =
        "The headers of its blocks: 24 for those of 8 bytes, 32 for those of 12 (default 24)";
    let fork_help =
        "A file with a resource fork, made where it is missing, and locked until the end; up to 8 times (default: none in a file)";
    let journal_help =
        "A file for the journal of the k-th --fork, made where it is missing, and overwritten whatever it was; as often as --fork, or not at all, and then no file twice (default: none)";
    let large_help =
        "Takes a zone of up to 1073741824 bytes, which with --mode 32 may end anywhere below 4294967296";
    Command::new(alloc, "macheap")
        .version(VERSION)
        .arg(number_option(alloc, "zone", zone_help))?
        .arg(number_option(alloc, "limit", limit_help))?
        .arg(number_option(alloc, "base", base_help))?
        .arg(number_option(alloc, "mode", mode_help))?
        .arg(file_option(alloc, "fork", fork_help))?
        .arg(file_option(alloc, "journal", journal_help))?
        .arg(flag_option(alloc, "large", large_help))
}

/// What the words ask for, of which the first is the program's name.
pub fn asked_by<'a, S: AsStr>(alloc: Global, words: &'a [S]) -> Result<Asked<'a>, NotAsked>
    ensures { Asks (map S.text words.now) result }
{
    let matches = match command(alloc)?.try_get_matches_from(words) {
        Ok(matches) => matches,
        Err(error) => return not_matched(error),
    };
    let forks = matches.get_strs("fork").unwrap_or(&[]);
    let journals = matches.get_strs("journal").unwrap_or(&[]);
    let files = Files::named(alloc, forks, journals)?;
    let zone = number("zone", matches.get_str("zone"), DEFAULT_ZONE)?;
    let limit = number("limit", matches.get_str("limit"), zone)?;
    let base = number("base", matches.get_str("base"), DEFAULT_BASE)?;
    let mode = number("mode", matches.get_str("mode"), DEFAULT_MODE)?;
    let is_large = is_set(matches.get_str("large"));
    let Some(heads) = heads_of(mode) else {
        return Err(NotAsked::Mode(mode));
    };
    match spec_of(is_large, base, zone, limit, heads) {
        Ok(spec) => Ok(Asked::Run(spec, files)),
        Err(fault) => Err(NotAsked::Spec(fault)),
    }
}

/// Whether a flag was given, by its value.
fn is_set(value: Option<&str>) -> bool
    ensures { result ≡ is_set (option_map (λ text. text.now) value.entry) }
{
    match value {
        Some(text) => text == "true",
        None => false,
    }
}

/// The zone of these sizes, which is large only where that is allowed.
fn spec_of(
    is_large: bool,
    base: u32,
    size: u32,
    limit: u32,
    heads: HeadKind,
) -> Result<ZoneSpec, BadSpec>
    ensures spec { IfOk result (λ spec. spec ≡ record { heads = heads; base = base; size = size; limit = limit }) }
    ensures allowed { IfOk result (λ spec. IsAllowed is_large spec) }
    ensures fault { result_err result ≡ zone_fault is_large heads base size limit }
{
    if is_large {
        ZoneSpec::large(base, size, limit, heads)
    } else {
        ZoneSpec::with_kind(base, size, limit, heads)
    }
}

/// How blocks are headed in this mode, if there is such a mode.
fn heads_of(mode: u32) -> Option<HeadKind>
    ensures { result ≡ heads_of mode }
{
    match mode {
        24 => Some(HeadKind::Bits24),
        32 => Some(HeadKind::Bits32),
        _ => None,
    }
}

/// What it means that the words don't match the options.
fn not_matched<'a>(error: clap::Error) -> Result<Asked<'a>, NotAsked>
    ensures { MeansNoRun (kind_of error) result }
{
    match error.kind() {
        ErrorKind::DisplayHelp | ErrorKind::DisplayVersion => Ok(Asked::Help(error)),
        ErrorKind::OutOfMemory => Err(NotAsked::HostFull),
        _ => Err(NotAsked::Words(error)),
    }
}

/// The number that an option's value gives in decimal digits, or this one where the option isn't there.
fn number(option: &'static str, value: Option<&str>, default: u32) -> Result<u32, NotAsked>
    ensures number { IfOk result (IsNumberOf (option_map (λ text. text.now) value.entry) default) }
    ensures none { OnErr result (IsNoNumber (option_map (λ text. text.now) value.entry)) }
    ensures error { IfErr result (IsNoNumberFault option.now) }
{
    let Some(text) = value else {
        return Ok(default);
    };
    if !is_digits(text) {
        return Err(NotAsked::NoNumber(option));
    }
    text.parse::<u32>().map_err(|_| NotAsked::NoNumber(option))
}

/// Whether a text has nothing but decimal digits.
fn is_digits(text: &str) -> bool
    ensures { result ≡ list_all is_ascii_digit text.now }
{
    text.bytes().all(|byte| byte.is_ascii_digit())
}
