//! What the words of a look ask for.

ghost use Rattle.std.specs.Prelude.{◌≡◌, ◌≤◌, ℕ, IfErr, IfNone, IfOk, IfSome, OnErr, false, map, option_map};
ghost use Rattle.std.specs.List.{list_any};
ghost use Rattle.clap.specs.Words.{app_of, kind_of, rule_of};
ghost use Rattle.zone_view.specs.Asking.{Asks, IsNoNumberFault, MeansNoLook, is_look};
ghost use Rattle.zone_view.specs.Options.{HasNoNumber, IsNoNumber, IsNumber, IsNumberOf, IsWrittenIn, flag_option, heads_of, is_set, option_named, options};

use clap::error::ErrorKind;
use clap::{Arg, ArgAction, Command};
use mac_base::block::HeadKind;
use std::alloc::{AllocError, Global};
use std::convert::AsStr;
use thiserror::Error;

/// What is to be looked at, and how it is shown.
#[derive(Clone, Copy)]
pub struct Request<'a> {
    /// The file of memory.
    pub path: &'a str,
    /// How the blocks of the zone are headed.
    pub heads: HeadKind,
    /// The zone's address.
    pub base: u32,
    /// How many bytes of the file are before the zone.
    pub skipped: u32,
    /// It is shown as JSON, and not as lines of text.
    pub is_json: bool,
}

/// Why nothing is looked at, by the words.
#[derive(Debug, Drop, Error)]
pub enum NotAsked {
    /// The words ask for help, which is this text.
    #[error("{0}")]
    Help(clap::Error),
    /// A word is no option, an option is there twice or has no value.
    #[error("{0}")]
    Words(clap::Error),
    /// No file is named.
    #[error("error: --look takes the name of a file")]
    NoFile,
    /// An option's value is no number.
    #[error("error: --{0} takes decimal digits, or $ and hexadecimal ones, up to 4294967295")]
    NoNumber(&'static str),
    /// There is no such mode.
    #[error("error: --mode is 24 or 32")]
    Mode,
    /// The zone begins before the file.
    #[error("error: --base is the zone's address, and not below --from, the address of the file's first byte")]
    Before,
    /// The host has no memory for the words.
    #[error("error: the host has no memory")]
    HostFull,
}

impl From<AllocError> for NotAsked {
    ghost use Rattle.std.specs.Prelude.{◌≡◌};
    ghost use Rattle.zone_view.specs.declared.asked.NotAsked.TheVariants.{HostFull};

    ghost from_gives = { λ _ e. e ≡ HostFull };

    fn from(_: AllocError) -> NotAsked {
        NotAsked::HostFull
    }
}

/// Whether a word is `--look`, alone or with a value.
fn is_look(word: &str) -> bool
    ensures { result ≡ is_look word.now }
{
    word == "--look" || word.as_bytes().starts_with(b"--look=")
}

/// Whether the words ask for a look, of which the first is the program's name.
pub fn asks_for_look<S: AsStr>(words: &[S]) -> bool
    ensures { result ≡ list_any (λ word. is_look (S.text word)) words.now }
{
    words.iter().any(|word| is_look(word.as_str()))
}

/// The option of this name, which is there at most once and takes a value.
fn option<'a>(alloc: Global, name: &'a str, value: &'a str, help: &'a str) -> Arg<'a>
    ensures rule { rule_of result ≡ option_named name.entry.now }
    ensures local { result.global ≡ false }
{
    Arg::new(alloc, name)
        .long(name)
        .value_name(value)
        .action(ArgAction::Set)
        .help(help)
}

/// The option of this name, which takes no value and is there at most once.
fn flag_option<'a>(alloc: Global, name: &'a str, help: &'a str) -> Arg<'a>
    ensures rule { rule_of result ≡ flag_option name.entry.now }
    ensures local { result.global ≡ false }
{
    Arg::new(alloc, name)
        .long(name)
        .action(ArgAction::SetTrue)
        .help(help)
}

/// The options of a look.
fn command<'a>(alloc: Global) -> Result<Command<'a>, AllocError>
    ensures { IfOk result (λ command. app_of command ≡ options) }
{
    let look_help =
        "A file of memory: shows the blocks of the heap zone in it, and the first thing that is wrong";
    let base_help = "The zone's address in memory (default 0)";
    let from_help = "The address of the file's first byte (default 0)";
    let mode_help =
        "The headers of its blocks: 24 for those of 8 bytes, 32 for those of 12 (default 24)";
    Command::new(alloc, "macheap")
        .arg(option(alloc, "look", "FILE", look_help))?
        .arg(option(alloc, "base", "N", base_help))?
        .arg(option(alloc, "from", "N", from_help))?
        .arg(option(alloc, "mode", "N", mode_help))?
        .arg(flag_option(alloc, "json", "Writes JSON"))
}

/// The number that digits in a radix are.
fn written_in(digits: &str, radix: u32) -> Option<u32>
    requires low { 2 ≤ radix }
    requires high { radix ≤ 36 }
    ensures number { IfSome result (IsWrittenIn radix digits.now) }
    ensures none { IfNone result ((n : ℕ) → ¬ IsWrittenIn radix digits.now n) }
{
    if digits.starts_with("+") {
        return None;
    }
    u32::from_str_radix(digits, radix).ok()
}

/// The number that a text is, in decimal digits or as `$` and hexadecimal ones.
fn number_in(text: &str) -> Option<u32>
    ensures number { IfSome result (IsNumber text.now) }
    ensures none { IfNone result (IsNoNumber text.now) }
{
    match text.strip_prefix("$") {
        Some(digits) => written_in(digits, 16),
        None => written_in(text, 10),
    }
}

/// The number that an option's value gives; 0 where it isn't there.
fn number(option: &'static str, value: Option<&str>) -> Result<u32, NotAsked>
    ensures number { IfOk result (IsNumberOf (option_map (λ text. text.now) value.entry)) }
    ensures none { OnErr result (HasNoNumber (option_map (λ text. text.now) value.entry)) }
    ensures error { IfErr result (IsNoNumberFault option.now) }
{
    match value {
        None => Ok(0),
        Some(text) => number_in(text).ok_or(NotAsked::NoNumber(option)),
    }
}

/// How blocks are headed in a mode, if there is such a mode.
fn heads_of(mode: Option<&str>) -> Option<HeadKind>
    ensures { result ≡ heads_of (option_map (λ text. text.now) mode.entry) }
{
    match mode {
        None | Some("24") => Some(HeadKind::Bits24),
        Some("32") => Some(HeadKind::Bits32),
        Some(_) => None,
    }
}

/// Whether a flag was given, by its value.
fn is_set(value: Option<&str>) -> bool
    ensures { result ≡ is_set (option_map (λ text. text.now) value.entry) }
{
    match value {
        Some(text) => text == "true",
        None => false,
    }
}

/// What it means that the words don't match the options.
fn not_matched(error: clap::Error) -> NotAsked
    ensures { MeansNoLook (kind_of error) result }
{
    match error.kind() {
        ErrorKind::DisplayHelp => NotAsked::Help(error),
        ErrorKind::OutOfMemory => NotAsked::HostFull,
        _ => NotAsked::Words(error),
    }
}

/// What the words ask for, of which the first is the program's name.
pub fn asked_by<'a, S: AsStr>(alloc: Global, words: &'a [S]) -> Result<Request<'a>, NotAsked>
    ensures { Asks (map S.text words.now) result }
{
    let matches = match command(alloc)?.try_get_matches_from(words) {
        Ok(matches) => matches,
        Err(error) => return Err(not_matched(error)),
    };
    let Some(path) = matches.get_str("look") else {
        return Err(NotAsked::NoFile);
    };
    let base = number("base", matches.get_str("base"))?;
    let from = number("from", matches.get_str("from"))?;
    let Some(heads) = heads_of(matches.get_str("mode")) else {
        return Err(NotAsked::Mode);
    };
    let Some(skipped) = base.checked_sub(from) else {
        return Err(NotAsked::Before);
    };
    let is_json = is_set(matches.get_str("json"));
    Ok(Request {
        path,
        heads,
        base,
        skipped,
        is_json,
    })
}
