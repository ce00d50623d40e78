//! The words of the command line.

ghost use Rattle.std.specs.Prelude.{◌≡◌, ℕ, true, false, IfErr, IfOk, List, codes};
ghost use Rattle.clap.specs.Matches.{first_value, found_of};
ghost use Rattle.fork_words.specs.Asked.{Asks, IsAsked, IsAskedBy, IsChosen, IsReport, IsReporting, IsRequest, IsShowing, IsShownBytes, IsTold, digests_of, letters_of, titles_of};
ghost use Rattle.fork_words.specs.Asks.{IsFault, IsFit};
ghost use Rattle.fork_words.specs.Changes.{form_of};
ghost use Rattle.fork_words.specs.Given.{is_given, texts_of, word_of, word_or, words_of};
ghost use Rattle.fork_words.specs.Kinds.{IsKindRefused, NameKinds, NamesKind};
ghost use Rattle.fork_words.specs.Named.{NamesKey, NamesName, NamesNth};

use crate::command::program;
use crate::ending::view_form;
use crate::fault::Fault;
use crate::find::{Finding, asked_to_find};
use crate::size::{LIMIT, limit_of};
use crate::work::{Work, work_of};
use clap::ArgMatches;
use clap::error::ErrorKind;
use fork_answer::request::{Choice, Request};
use fork_list::find::{Key, Wanted};
use fork_list::letters::Letters;
use fork_list::{bytes_of, kind_of, name_of};
use fork_report::{Bytes, Digests, Form, Report};
use fork_view::{Chosen, Unpacking, View};
use mac_base::resource::ResType;
use std::alloc::{AllocError, Global};
use std::convert::AsStr;
use thiserror::Error;

/// Where the names of several files are in what is shown of them.
#[derive(Clone, Copy, Debug, PartialEq, Eq)]
pub enum Titles {
    /// In a line before those of the file.
    BeforeFiles,
    /// At the beginning of each line, of one file too.
    BeforeLines,
}

/// Something to be shown of each of these files, on the standard output or in a file of this name.
#[derive(Drop)]
pub struct Showing<'a> {
    pub request: Request,
    pub files: Vec<&'a str>,
    pub titles: Titles,
    /// Whether all is shown that is below a folder of a disk image.
    pub is_recursive: bool,
    pub output: Option<&'a str>,
}

/// A report on each of these files.
#[derive(Drop)]
pub struct Reporting<'a> {
    pub report: Report,
    pub files: Vec<&'a str>,
    pub titles: Titles,
}

/// What is salvaged of a damaged file.
#[derive(Clone, Copy)]
pub enum Salvage<'a> {
    /// What can be read of its resource fork is listed, with letters shown so.
    List(Letters),
    /// It is written to a file of this name, as a fork.
    Fork(&'a str),
    /// The data fork is written to a file of this name.
    Data(&'a str),
}

/// What is to be salvaged of a file.
#[derive(Clone, Copy)]
pub struct Salvaging<'a> {
    pub file: &'a str,
    pub what: Salvage<'a>,
}

/// Resources of a file to be shown to people, on the standard output or in a file of this name.
#[derive(Drop)]
pub struct Viewing<'a> {
    pub view: View,
    pub file: &'a str,
    pub output: Option<&'a str>,
}

/// A page that shows what these files have, on the standard output or in a file of this name.
#[derive(Drop)]
pub struct Paging<'a> {
    pub files: Vec<&'a str>,
    pub output: Option<&'a str>,
}

/// What the words ask for.
#[derive(Drop)]
pub enum Asked<'a> {
    /// To show something of files.
    Show(Showing<'a>),
    /// To report on files.
    Report(Reporting<'a>),
    /// To list or to write what can be read of a damaged file, or of one in a damaged container.
    Salvage(Salvaging<'a>),
    /// To show resources of a file to people.
    View(Viewing<'a>),
    /// To write the resources of a file to a folder.
    Unpack {
        unpacking: Unpacking<'a>,
        file: &'a str,
    },
    /// To write a page that shows what files have.
    Page(Paging<'a>),
    /// To find resources in files and folders.
    Find(Finding<'a>),
    /// To change files, or to compare them.
    Change(Work<'a>),
    /// To write this text: the help, or the version.
    Tell(clap::Error),
}

/// What the words ask for, and how many bytes of a file are read for it at most.
#[derive(Drop)]
pub struct Command<'a> {
    pub asked: Asked<'a>,
    pub limit: u64,
}

/// Why the words ask for nothing. What it shows are whole lines.
#[derive(Debug, Drop, Error)]
pub enum NotAsked {
    /// A word is no option, or an operand is missing.
    #[error("{0}")]
    Words(clap::Error),
    /// A word isn't what it has to be.
    #[error("error: {0}\n")]
    Fault(Fault),
    /// The host has no memory for the words.
    #[error("error: the host has no memory\n")]
    HostFull,
}

impl From<AllocError> for NotAsked {
    ghost use Rattle.std.specs.Prelude.{◌≡◌};
    ghost use Rattle.fork_words.specs.declared.asked.NotAsked.TheVariants as not_asked;

    ghost from_gives = { λ _ why. why ≡ not_asked.HostFull };

    fn from(_: AllocError) -> NotAsked {
        NotAsked::HostFull
    }
}

impl From<Fault> for NotAsked {
    ghost use Rattle.std.specs.Prelude.{◌≡◌};
    ghost use Rattle.fork_words.specs.declared.asked.NotAsked.TheVariants as not_asked;

    ghost from_gives = { λ fault why. why ≡ not_asked.Fault fault };

    fn from(fault: Fault) -> NotAsked {
        NotAsked::Fault(fault)
    }
}

/// What the words ask for, of which the first is the program's name.
pub fn asked_by<'a, S: AsStr>(alloc: Global, words: &'a [S]) -> Result<Command<'a>, NotAsked>
    ensures asked { IfOk result IsAsked }
    ensures fit { IfOk result (λ command. IsFit command.asked) }
    ensures fault { IfErr result IsFault }
{
    match program(alloc)?.try_get_matches_from(words) {
        Ok(matches) => asked_of(alloc, &matches),
        Err(error) => Ok(Command {
            asked: not_matched(error)?,
            limit: LIMIT,
        }),
    }
}

/// What a command and its words ask for.
fn asked_of<'a>(alloc: Global, matches: &ArgMatches<'a>) -> Result<Command<'a>, NotAsked>
    ensures asked { IfOk result (IsAskedBy matches.now) }
    ensures fit { IfOk result (λ command. IsFit command.asked) }
    ensures fault { IfErr result IsFault }
{
    let Some((name, matches)) = matches.subcommand() else {
        return Err(NotAsked::Fault(Fault::NoCommand));
    };
    Ok(Command {
        limit: limit_of(matches)?,
        asked: asked_for(alloc, name, matches)?,
    })
}

/// What the command of this name asks for.
fn asked_for<'a>(alloc: Global, name: &str, matches: &ArgMatches<'a>) -> Result<Asked<'a>, NotAsked>
    ensures asked { IfOk result (Asks name.now (found_of matches.now)) }
    ensures fit { IfOk result IsFit }
    ensures fault { IfErr result IsFault }
{
    match name {
        "ls" => asked_to_list(alloc, matches),
        "get" => asked_to_get(alloc, matches),
        "info" => asked_to_tell(alloc, matches),
        "check" => reported(alloc, Report::Check(form_of(matches)), matches),
        "salvage" => Ok(asked_to_salvage(matches)),
        "show" => asked_to_view(alloc, matches),
        "unpack" => asked_to_unpack(alloc, matches),
        "page" => asked_for_page(alloc, matches),
        "find" => asked_to_find(alloc, matches),
        name => Ok(Asked::Change(work_of(alloc, name, matches)?)),
    }
}

/// Whether a flag is given.
pub(crate) fn flag(matches: &ArgMatches<'_>, name: &str) -> bool
    ensures { result ≡ is_given (found_of matches.now) name.now }
{
    matches.get_one(name).unwrap_or(false)
}

/// The form in which something is reported.
pub(crate) fn form_of(matches: &ArgMatches<'_>) -> Form
    ensures { result ≡ form_of (found_of matches.now) }
{
    if flag(matches, "json") {
        Form::Json
    } else {
        Form::Text
    }
}

/// Whether digests are shown.
fn digests_of(matches: &ArgMatches<'_>) -> Digests
    ensures { result ≡ digests_of (found_of matches.now) }
{
    if flag(matches, "sha256") {
        Digests::Sha256
    } else {
        Digests::Hidden
    }
}

/// Where the names of files are.
fn titles_of(matches: &ArgMatches<'_>) -> Titles
    ensures { result ≡ titles_of (found_of matches.now) }
{
    if flag(matches, "paths") {
        Titles::BeforeLines
    } else {
        Titles::BeforeFiles
    }
}

/// What `info` asks for.
fn asked_to_tell<'a>(alloc: Global, matches: &ArgMatches<'a>) -> Result<Asked<'a>, NotAsked>
    ensures asked { IfOk result (Asks (codes "info") (found_of matches.now)) }
    ensures fit { IfOk result IsFit }
    ensures fault { IfErr result IsFault }
{
    let form = form_of(matches);
    let digests = digests_of(matches);
    reported(alloc, Report::Info { form, digests }, matches)
}

/// How letters that aren't ASCII are shown.
fn letters_of(matches: &ArgMatches<'_>) -> Letters
    ensures { result ≡ letters_of (found_of matches.now) }
{
    if flag(matches, "raw") {
        Letters::Raw
    } else {
        Letters::Roman
    }
}

/// The value of an option or an operand that must be there.
pub(crate) fn word<'a>(matches: &ArgMatches<'a>, name: &str) -> &'a str
    ensures { result.now ≡ word_of (found_of matches.now) name.now }
{
    word_or(matches, name, "")
}

/// The value of an option, or else this word.
pub(crate) fn word_or<'a>(matches: &ArgMatches<'a>, name: &str, other: &'a str) -> &'a str
    ensures { result.now ≡ word_or (found_of matches.now) name.now other.entry.now }
{
    matches.get_str(name).unwrap_or(other)
}

/// The files that a command names.
pub(crate) fn files_named<'a>(
    alloc: Global,
    matches: &ArgMatches<'a>,
) -> Result<Vec<&'a str>, AllocError>
    ensures { IfOk result (λ files. texts_of files.items ≡ words_of (found_of matches.now) (codes "file")) }
{
    Vec::from_slice(alloc, matches.get_strs("file").unwrap_or(&[]))
}

/// A report on files.
fn reported<'a>(
    alloc: Global,
    report: Report,
    matches: &ArgMatches<'a>,
) -> Result<Asked<'a>, NotAsked>
    ensures asked { IfOk result (λ asked. (command : List ℕ) → IsReport command (found_of matches.now) report → Asks command (found_of matches.now) asked) }
    ensures fit { IfOk result IsFit }
    ensures fault { IfErr result IsFault }
{
    let files = files_named(alloc, matches)?;
    Ok(Asked::Report(Reporting {
        report,
        files,
        titles: titles_of(matches),
    }))
}

/// What `salvage` asks for.
fn asked_to_salvage<'a>(matches: &ArgMatches<'a>) -> Asked<'a>
    ensures asked { Asks (codes "salvage") (found_of matches.now) result }
    ensures fit { IsFit result }
{
    let what = match (matches.get_str("output"), matches.get_str("data")) {
        (Some(output), _) => Salvage::Fork(output),
        (None, Some(output)) => Salvage::Data(output),
        (None, None) => Salvage::List(letters_of(matches)),
    };
    Asked::Salvage(Salvaging {
        file: word(matches, "file"),
        what,
    })
}

/// How `ls` shows the bytes of resources.
fn bytes_shown(matches: &ArgMatches<'_>) -> Result<Bytes, Fault>
    ensures bytes { IfOk result (IsShownBytes (first_value (found_of matches.now) (codes "data"))) }
    ensures text { IfOk result (λ shown. is_given (found_of matches.now) (codes "json") ≡ false → shown ≡ Bytes.Hidden) }
    ensures json { IfOk result (λ shown. is_given (found_of matches.now) (codes "json") ≡ true → is_given (found_of matches.now) (codes "types") ≡ false) }
{
    let is_json = flag(matches, "json");
    let shown = match matches.get_str("data") {
        None => Bytes::Hidden,
        Some("base64") if is_json => Bytes::Base64,
        Some(_) => return Err(Fault::NoData),
    };
    if is_json && flag(matches, "types") {
        return Err(Fault::NoTypesJson);
    }
    Ok(shown)
}

/// What is shown of files.
fn shown<'a>(
    alloc: Global,
    request: Request,
    matches: &ArgMatches<'a>,
) -> Result<Asked<'a>, NotAsked>
    ensures asked { IfOk result (λ asked. (command : List ℕ) → IsRequest command (found_of matches.now) request → Asks command (found_of matches.now) asked) }
    ensures fit { IfOk result IsFit }
    ensures fault { IfErr result IsFault }
{
    let files = files_named(alloc, matches)?;
    Ok(Asked::Show(Showing {
        request,
        files,
        titles: titles_of(matches),
        is_recursive: flag(matches, "recursive"),
        output: matches.get_str("output"),
    }))
}

/// What `ls` asks for.
fn asked_to_list<'a>(alloc: Global, matches: &ArgMatches<'a>) -> Result<Asked<'a>, NotAsked>
    ensures asked { IfOk result (Asks (codes "ls") (found_of matches.now)) }
    ensures fit { IfOk result IsFit }
    ensures fault { IfErr result IsFault }
{
    let kinds = kinds_named(alloc, matches)?;
    let shown_bytes = bytes_shown(matches)?;
    if let Form::Json = form_of(matches) {
        let report = Report::List {
            kinds,
            shown: shown_bytes,
            digests: digests_of(matches),
        };
        return reported(alloc, report, matches);
    }
    let letters = letters_of(matches);
    let choice = Choice { letters, kinds };
    if digests_of(matches) == Digests::Sha256 {
        return reported(alloc, Report::DigestList(choice), matches);
    }
    if flag(matches, "types") {
        shown(alloc, Request::Types(choice), matches)
    } else {
        shown(alloc, Request::List(choice), matches)
    }
}

/// What `get` asks for.
fn asked_to_get<'a>(alloc: Global, matches: &ArgMatches<'a>) -> Result<Asked<'a>, NotAsked>
    ensures asked { IfOk result (Asks (codes "get") (found_of matches.now)) }
    ensures fit { IfOk result IsFit }
    ensures fault { IfErr result IsFault }
{
    let kind = kind_named(alloc, word(matches, "type"))?;
    let key = key_named(alloc, word(matches, "key"))?;
    let nth = nth_named(word_or(matches, "nth", "1"))?;
    shown(alloc, Request::Get(Wanted { kind, key, nth }), matches)
}

/// Which resources a type and an id or a name ask for, where they are given.
fn chosen_by(alloc: Global, matches: &ArgMatches<'_>) -> Result<Chosen, NotAsked>
    ensures chosen { IfOk result (IsChosen (first_value (found_of matches.now) (codes "type")) (first_value (found_of matches.now) (codes "key"))) }
    ensures fault { IfErr result IsFault }
{
    let Some(word) = matches.get_str("type") else {
        return Ok(Chosen::All);
    };
    let kind = kind_named(alloc, word)?;
    let Some(word) = matches.get_str("key") else {
        return Ok(Chosen::Kind(kind));
    };
    let key = key_named(alloc, word)?;
    Ok(Chosen::One(Wanted { kind, key, nth: 0 }))
}

/// What `show` asks for.
fn asked_to_view<'a>(alloc: Global, matches: &ArgMatches<'a>) -> Result<Asked<'a>, NotAsked>
    ensures asked { IfOk result (Asks (codes "show") (found_of matches.now)) }
    ensures fit { IfOk result IsFit }
    ensures fault { IfErr result IsFault }
{
    let output = matches.get_str("output");
    let form = view_form(alloc, matches.get_str("as"), output)?;
    let chosen = chosen_by(alloc, matches)?;
    Ok(Asked::View(Viewing {
        view: View { chosen, form },
        file: word(matches, "file"),
        output,
    }))
}

/// What `unpack` asks for.
fn asked_to_unpack<'a>(alloc: Global, matches: &ArgMatches<'a>) -> Result<Asked<'a>, NotAsked>
    ensures asked { IfOk result (Asks (codes "unpack") (found_of matches.now)) }
    ensures fit { IfOk result IsFit }
    ensures fault { IfErr result IsFault }
{
    let kinds = kinds_named(alloc, matches)?;
    Ok(Asked::Unpack {
        unpacking: Unpacking {
            kinds,
            folder: word(matches, "folder"),
        },
        file: word(matches, "file"),
    })
}

/// What `page` asks for.
fn asked_for_page<'a>(alloc: Global, matches: &ArgMatches<'a>) -> Result<Asked<'a>, NotAsked>
    ensures asked { IfOk result (Asks (codes "page") (found_of matches.now)) }
    ensures fit { IfOk result IsFit }
    ensures fault { IfErr result IsFault }
{
    let files = files_named(alloc, matches)?;
    Ok(Asked::Page(Paging {
        files,
        output: matches.get_str("output"),
    }))
}

/// The types that `-t` names.
pub(crate) fn kinds_named(alloc: Global, matches: &ArgMatches<'_>) -> Result<Vec<ResType>, NotAsked>
    ensures kinds { IfOk result (λ kinds. NameKinds (words_of (found_of matches.now) (codes "type")) kinds.items) }
    ensures fault { IfErr result IsFault }
{
    let mut kinds = Vec::new(alloc);
    for word in matches.get_strs("type").unwrap_or(&[]) {
        let kind = kind_named(alloc, word)?;
        kinds.push(kind).map_err(AllocError::from)?;
    }
    Ok(kinds)
}

/// The type that a word names.
pub(crate) fn kind_named(alloc: Global, word: &str) -> Result<ResType, NotAsked>
    ensures kind { IfOk result (NamesKind word.now) }
    ensures refused { IfErr result (IsKindRefused word.now) }
{
    let Some(bytes) = bytes_of(alloc, word)? else {
        return Err(NotAsked::Fault(Fault::NoType));
    };
    match kind_of(bytes.as_slice()) {
        Some(kind) => Ok(kind),
        None => Err(NotAsked::Fault(Fault::NoType)),
    }
}

/// The id that a word names, or the name.
fn key_named(alloc: Global, word: &str) -> Result<Key, NotAsked>
    ensures key { IfOk result (NamesKey word.now) }
    ensures fault { IfErr result IsFault }
{
    if let Ok(id) = word.parse::<i16>() {
        return Ok(Key::Id(id));
    }
    Ok(Key::Name(name_named(alloc, word)?))
}

/// The name that a word shows.
pub(crate) fn name_named(alloc: Global, word: &str) -> Result<Vec<u8>, NotAsked>
    ensures name { IfOk result (λ name. NamesName word.now name.items) }
    ensures fault { IfErr result IsFault }
{
    let Some(bytes) = bytes_of(alloc, word)? else {
        return Err(NotAsked::Fault(Fault::NoKey));
    };
    match name_of(alloc, bytes.as_slice())? {
        Some(name) => Ok(name),
        None => Err(NotAsked::Fault(Fault::NoKey)),
    }
}

/// How many resources to pass over, by a word that counts from 1.
fn nth_named(word: &str) -> Result<usize, Fault>
    ensures { IfOk result (NamesNth word.now) }
{
    match word.parse::<usize>() {
        Ok(nth) if nth > 0 => Ok(nth - 1),
        _ => Err(Fault::NoCount),
    }
}

/// What it means that the words don't match.
fn not_matched<'a>(error: clap::Error) -> Result<Asked<'a>, NotAsked>
    ensures tell { IfOk result IsTold }
    ensures fit { IfOk result IsFit }
    ensures fault { IfErr result IsFault }
{
    match error.kind() {
        ErrorKind::DisplayHelp | ErrorKind::DisplayVersion => Ok(Asked::Tell(error)),
        ErrorKind::OutOfMemory => Err(NotAsked::HostFull),
        _ => Err(NotAsked::Words(error)),
    }
}
