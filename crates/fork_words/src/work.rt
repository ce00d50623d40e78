//! The words of the commands that change files, and of those that compare them.

ghost use Rattle.std.specs.Prelude.{◌≡◌, ℕ, List, codes, IfErr, IfNone, IfOk, IfSome, None, Some, is_some, option_map, true};
ghost use Rattle.std.specs.Borrow.{Bor};
ghost use Rattle.clap.specs.Matches.{first_value, found_of};
ghost use Rattle.fork_words.specs.Asks.{IsFault};
ghost use Rattle.fork_words.specs.Changes.{AsksFor, container_word};
ghost use Rattle.fork_words.specs.Given.{texts_of, words_of};
ghost use Rattle.fork_words.specs.Inputs.{GoesElsewhere, IsInput, ReadsOnce};
ghost use Rattle.fork_words.specs.Named.{ChangeBits, ChangesBit, Each, IsAttributeChange, IsId, IsNameChange, IsNamed, NameBits, NameChoices, NamesBit, NamesChoice, NamesId, NamesIdOf, NamesOne, NamesResource, between_commas, no_change};
ghost use Rattle.fork_words.specs.Places.{IsNoPlace, IsPlace, IsTarget, collision_of};

use crate::INPUT;
use crate::asked::{NotAsked, flag, form_of, kind_named, kinds_named, name_named, word, word_or};
use crate::fault::Fault;
use crate::texts::{PuttingTexts, texts};
use bitflags::Flags;
use clap::ArgMatches;
use fork_change::row::{AttributeChange, Change, NameChange, ResourceId};
use fork_change::{Choice, Collision};
use fork_report::Form;
use mac_base::name::Name;
use mac_base::resource::{ResAttrs, ResType};
use mac_write::Target as Kind;
use std::alloc::{AllocError, Global};

/// Where a changed file goes, and what is said of it.
#[derive(Clone, Copy)]
pub struct Target<'a> {
    /// The file that is changed.
    pub file: &'a str,
    /// The file that is written, where it is another.
    pub output: Option<&'a str>,
    /// Whether the old file is kept as FILE~.
    pub keeps_old: bool,
    /// Whether nothing is written, and only said what would be.
    pub is_dry: bool,
    /// Whether nothing is said of what was done.
    pub is_quiet: bool,
}

/// Bytes to be put in the place of a resource's, or as those of a new one.
#[derive(Drop)]
pub struct Putting<'a> {
    pub change: Change,
    /// The file with the bytes, or the standard input.
    pub input: Option<&'a str>,
    /// Whether a resource that is there is refused.
    pub is_new: bool,
    /// Whether a file that isn't there is made.
    pub creates: bool,
    pub target: Target<'a>,
}

/// A file to be written in another container.
#[derive(Drop)]
pub struct Conversion<'a> {
    pub kind: Kind,
    /// The file with the data fork, where that is in a file of its own.
    pub data: Option<&'a str>,
    /// The new file's name.
    pub name: Option<Vec<u8>>,
    /// Whether what the container can't hold is left out.
    pub is_lossy: bool,
    pub target: Target<'a>,
}

/// Resources to be removed.
#[derive(Drop)]
pub struct Removing<'a> {
    pub whats: Vec<ResourceId>,
    pub target: Target<'a>,
}

/// A resource of which all may be changed but its bytes.
#[derive(Drop)]
pub struct Setting<'a> {
    pub what: ResourceId,
    pub change: Change,
    pub target: Target<'a>,
}

/// Resources of a file to be copied to another.
#[derive(Drop)]
pub struct Copying<'a> {
    pub from: &'a str,
    pub chosen: Vec<Choice>,
    pub on_collision: Collision,
    pub target: Target<'a>,
}

/// Two files to be compared.
#[derive(Clone, Copy)]
pub struct Comparison<'a> {
    pub a: &'a str,
    pub b: &'a str,
    pub form: Form,
}

/// Resources to be written as a text.
#[derive(Drop)]
pub struct Derezzing<'a> {
    pub file: &'a str,
    pub kinds: Vec<ResType>,
}

/// Where the resources of a text or of a folder go.
#[derive(Clone, Copy)]
pub enum Place<'a> {
    /// To a new file. Where one is there, its place is taken, but resources that the new one lacks are lost only where
    /// that is forced.
    New {
        target: Target<'a>,
        is_forced: bool,
    },
    /// Into a file that is there, whose others stay.
    Into {
        target: Target<'a>,
        on_collision: Collision,
    },
}

/// A text of resources, and where they go.
#[derive(Clone, Copy)]
pub struct Rezzing<'a> {
    pub text: &'a str,
    pub place: Place<'a>,
}

/// A folder of what was unpacked, and where its resources go.
#[derive(Clone, Copy)]
pub struct Packing<'a> {
    pub folder: &'a str,
    /// The file in whose container the fork is.
    pub like: Option<&'a str>,
    /// Whether files that `resources.json` doesn't name are taken, too.
    pub adds: bool,
    pub place: Place<'a>,
}

/// What is to be done.
#[derive(Drop)]
pub enum Work<'a> {
    /// To put bytes in the place of a resource's, or to add it.
    Put(Putting<'a>),
    /// To remove resources.
    Remove(Removing<'a>),
    /// To change all of a resource but its bytes.
    Set(Setting<'a>),
    /// To copy resources of a file to another.
    Copy(Copying<'a>),
    /// To compare two files.
    Compare(Comparison<'a>),
    /// To write resources as a text.
    Derez(Derezzing<'a>),
    /// To write a fork of a text.
    Rez(Rezzing<'a>),
    /// To write a fork of what was unpacked to a folder.
    Pack(Packing<'a>),
    /// To write a file in another container.
    Convert(Conversion<'a>),
    /// To list the texts of a file.
    Texts(&'a str),
    /// To put lines in the place of the texts of a file.
    PutTexts(PuttingTexts<'a>),
}

/// What the words after this command ask for.
pub(crate) fn work_of<'a>(
    alloc: Global,
    name: &str,
    matches: &ArgMatches<'a>,
) -> Result<Work<'a>, NotAsked>
    ensures asked { IfOk result (AsksFor name.now (found_of matches.now)) }
    ensures once { IfOk result ReadsOnce }
    ensures fault { IfErr result IsFault }
{
    match name {
        "put" => put(alloc, matches),
        "rm" => remove(alloc, matches),
        "set" => set(alloc, matches),
        "cp" => copy(alloc, matches),
        "diff" => Ok(compare(matches)?),
        "derez" => derez(alloc, matches),
        "rez" => Ok(rez(matches)?),
        "pack" => Ok(pack(matches)?),
        "convert" => convert(alloc, matches),
        "texts" => Ok(texts(matches)?),
        _ => Err(NotAsked::Fault(Fault::NoCommand)),
    }
}

/// What `derez` asks for.
fn derez<'a>(alloc: Global, matches: &ArgMatches<'a>) -> Result<Work<'a>, NotAsked>
    ensures asked { IfOk result (AsksFor (codes "derez") (found_of matches.now)) }
    ensures once { IfOk result ReadsOnce }
    ensures fault { IfErr result IsFault }
{
    let kinds = kinds_named(alloc, matches)?;
    let file = word(matches, "file");
    Ok(Work::Derez(Derezzing { file, kinds }))
}

/// What `rez` asks for.
fn rez<'a>(matches: &ArgMatches<'a>) -> Result<Work<'a>, Fault>
    ensures once { IfOk result ReadsOnce }
    ensures asked { IfOk result (AsksFor (codes "rez") (found_of matches.now)) }
    ensures refused { IfErr result (IsNoPlace (found_of matches.now)) }
{
    let text = word(matches, "file");
    let place = place_of(matches, text)?;
    Ok(Work::Rez(Rezzing { text, place }))
}

/// What `pack` asks for.
fn pack<'a>(matches: &ArgMatches<'a>) -> Result<Work<'a>, Fault>
    ensures once { IfOk result ReadsOnce }
    ensures asked { IfOk result (AsksFor (codes "pack") (found_of matches.now)) }
    ensures refused { IfErr result (IsNoPlace (found_of matches.now)) }
{
    let folder = word(matches, "folder");
    let place = place_of(matches, folder)?;
    Ok(Work::Pack(Packing {
        folder,
        like: matches.get_str("like"),
        adds: flag(matches, "add"),
        place,
    }))
}

/// Where the resources of a text or of a folder go, by the words.
fn place_of<'a>(matches: &ArgMatches<'a>, source: &'a str) -> Result<Place<'a>, Fault>
    ensures place { IfOk result (IsPlace (found_of matches.now) source.entry.now) }
    ensures refused { IfErr result (IsNoPlace (found_of matches.now)) }
{
    match (matches.get_str("into"), matches.get_str("output")) {
        (Some(file), None) => place_in(matches, file),
        (None, Some(_)) => new_place(matches, source),
        _ => Err(Fault::OnePlace),
    }
}

/// A file that is there, into which resources are put.
fn place_in<'a>(matches: &ArgMatches<'a>, file: &'a str) -> Result<Place<'a>, Fault>
    requires into { first_value (found_of matches.now) (codes "into") ≡ Some file.now }
    requires alone { first_value (found_of matches.now) (codes "output") ≡ None }
    ensures place { (source : List ℕ) → IfOk result (IsPlace (found_of matches.now) source) }
    ensures refused { IfErr result (IsNoPlace (found_of matches.now)) }
{
    if file == INPUT {
        return Err(Fault::IntoInput);
    }
    Ok(Place::Into {
        target: target_of(matches, file),
        on_collision: collision_of(matches),
    })
}

/// A new file of the resources of a text or a folder. What goes with a file that is there is refused.
#[tactic(auto, using(crate::proofs::Places::named_some))]
fn new_place<'a>(matches: &ArgMatches<'a>, source: &'a str) -> Result<Place<'a>, Fault>
    requires alone { first_value (found_of matches.now) (codes "into") ≡ None }
    requires named { is_some (first_value (found_of matches.now) (codes "output")) ≡ true }
    ensures place { IfOk result (IsPlace (found_of matches.now) source.entry.now) }
    ensures refused { IfErr result (IsNoPlace (found_of matches.now)) }
{
    let target = target_of(matches, source);
    if target.keeps_old || !matches!(collision_of(matches), Collision::Refuse) {
        return Err(Fault::NotInto);
    }
    Ok(Place::New {
        target,
        is_forced: flag(matches, "force"),
    })
}

/// How many letters a type has.
const KIND_LENGTH: usize = 4;

/// Where a changed file goes, where it is one that can be changed: what is read from the standard input is written
/// elsewhere, and no other file is read from it.
fn changed_target<'a>(
    matches: &ArgMatches<'a>,
    file: &'a str,
    other: Option<&str>,
) -> Result<Target<'a>, Fault>
    ensures file { IfOk result (λ target. target.file ≡ file.entry) }
    ensures target { IfOk result (IsTarget (found_of matches.now) file.entry.now) }
    ensures elsewhere { IfOk result GoesElsewhere }
    ensures once { IfOk result (λ _. IsInput file.now → IfSome other.entry (λ name. ¬ IsInput name.now)) }
{
    let target = target_of(matches, file);
    if file != INPUT {
        return Ok(target);
    }
    if other == Some(INPUT) {
        return Err(Fault::TwoInputs);
    }
    if target.output.is_none() && !target.is_dry {
        return Err(Fault::NoOutput);
    }
    Ok(target)
}

/// Where a file goes.
pub(crate) fn target_of<'a>(matches: &ArgMatches<'a>, file: &'a str) -> Target<'a>
    ensures file { result.file ≡ file.entry }
    ensures target { IsTarget (found_of matches.now) file.entry.now result }
{
    Target {
        file,
        output: matches.get_str("output"),
        keeps_old: flag(matches, "backup"),
        is_dry: flag(matches, "dry"),
        is_quiet: flag(matches, "quiet"),
    }
}

/// The id that a word names.
pub(crate) fn id_named(word: &str) -> Result<i16, Fault>
    ensures id { IfOk result (NamesId word.now) }
    ensures refused { IfErr result (λ why. (why ≡ Fault.NoId) × ¬ IsId word.now) }
{
    match word.parse::<i16>() {
        Ok(id) => Ok(id),
        Err(_) => Err(Fault::NoId),
    }
}

/// The type and the id that two words name.
fn resource_named(alloc: Global, kind: &str, id: &str) -> Result<ResourceId, NotAsked>
    ensures resource { IfOk result (NamesResource kind.now id.now) }
    ensures fault { IfErr result IsFault }
{
    let kind = kind_named(alloc, kind)?;
    let id = id_named(id)?;
    Ok(ResourceId { kind, id })
}

/// What becomes of a resource's name.
fn name_change(alloc: Global, matches: &ArgMatches<'_>) -> Result<NameChange, NotAsked>
    ensures name { IfOk result (IsNameChange (found_of matches.now)) }
    ensures fault { IfErr result IsFault }
{
    if flag(matches, "no-name") {
        return Ok(NameChange::Clear);
    }
    let Some(word) = matches.get_str("name") else {
        return Ok(NameChange::Keep);
    };
    let bytes = name_named(alloc, word)?;
    match Name::new(alloc, bytes.as_slice())? {
        Some(name) => Ok(NameChange::To(name)),
        None => Err(NotAsked::Fault(Fault::LongName)),
    }
}

/// The attribute of a word, as a list of resources shows it.
fn attribute_named(word: &str) -> Option<ResAttrs>
    ensures { IfSome result (λ attribute. NamesBit word.now attribute.0) }
{
    match word {
        "bit7" => Some(ResAttrs::from_bits_retain(1 << 7)),
        "sysHeap" => Some(ResAttrs::SYS_HEAP),
        "purgeable" => Some(ResAttrs::PURGEABLE),
        "locked" => Some(ResAttrs::LOCKED),
        "protected" => Some(ResAttrs::PROTECTED),
        "preload" => Some(ResAttrs::PRELOAD),
        "changed" => Some(ResAttrs::CHANGED),
        "bit0" => Some(ResAttrs::from_bits_retain(1)),
        _ => None,
    }
}

/// The change of no attribute.
fn no_change() -> AttributeChange
    ensures { result ≡ no_change }
{
    AttributeChange {
        take: ResAttrs::empty(),
        add: ResAttrs::empty(),
    }
}

/// The change after one more word, which has a sign: `+WORD` sets an attribute, and `-WORD` clears it.
fn with_signed(change: AttributeChange, word: &str) -> Option<AttributeChange>
    ensures { IfSome result (ChangesBit change word.now) }
{
    let mut change = change;
    if let Some(word) = word.strip_prefix("+") {
        let attribute = attribute_named(word)?;
        change.take.insert(attribute);
        change.add.insert(attribute);
    } else {
        let attribute = attribute_named(word.strip_prefix("-")?)?;
        change.take.insert(attribute);
        change.add.remove(attribute);
    }
    Some(change)
}

/// The change of the attributes that words with signs and commas between them name; the others stay.
fn signed_change(words: &str) -> Option<AttributeChange>
    ensures { IfSome result (ChangeBits no_change (between_commas words.now)) }
{
    let mut change = no_change();
    for word in words.split(',') {
        change = with_signed(change, word)?;
    }
    Some(change)
}

/// The attributes that words with commas between them name.
fn attributes_named(words: &str) -> Option<ResAttrs>
    ensures { IfSome result (λ attributes. NameBits 0 (between_commas words.now) attributes.0) }
{
    let mut attributes = ResAttrs::empty();
    for word in words.split(',') {
        attributes.insert(attribute_named(word)?);
    }
    Some(attributes)
}

/// The change of attributes that words name: of all, or of some, where each word has a sign.
fn change_named(words: &str) -> Option<AttributeChange>
    ensures { IfSome result (IsAttributeChange (Some words.now)) }
{
    if words.starts_with("+") || words.starts_with("-") {
        return signed_change(words);
    }
    Some(AttributeChange {
        take: ResAttrs::from_bits_retain(u8::MAX),
        add: attributes_named(words)?,
    })
}

/// What becomes of a resource's attributes.
fn attribute_change(matches: &ArgMatches<'_>) -> Result<AttributeChange, Fault>
    ensures { IfOk result (IsAttributeChange (first_value (found_of matches.now) (codes "attrs"))) }
{
    match matches.get_str("attrs") {
        None => Ok(no_change()),
        Some("-") => Ok(AttributeChange {
            take: ResAttrs::from_bits_retain(u8::MAX),
            add: ResAttrs::empty(),
        }),
        Some(words) => change_named(words).ok_or(Fault::NoAttributes),
    }
}

/// What `put` asks for.
fn put<'a>(alloc: Global, matches: &ArgMatches<'a>) -> Result<Work<'a>, NotAsked>
    ensures asked { IfOk result (AsksFor (codes "put") (found_of matches.now)) }
    ensures once { IfOk result ReadsOnce }
    ensures fault { IfErr result IsFault }
{
    let to = resource_named(alloc, word(matches, "type"), word(matches, "id"))?;
    let name = name_change(alloc, matches)?;
    let attributes = attribute_change(matches)?;
    let input = matches.get_str("input");
    let target = changed_target(matches, word(matches, "file"), Some(input.unwrap_or(INPUT)))?;
    Ok(Work::Put(Putting {
        change: Change {
            to,
            name,
            attributes,
        },
        input,
        is_new: flag(matches, "new"),
        creates: flag(matches, "create"),
        target,
    }))
}

/// The resources of a type whose ids these words name.
fn resources_named(
    alloc: Global,
    kind: ResType,
    words: &[&str],
) -> Result<Vec<ResourceId>, NotAsked>
    ensures whats { IfOk result (λ whats. Each (NamesIdOf kind) (texts_of words.now) whats.items) }
    ensures fault { IfErr result IsFault }
{
    let mut whats = Vec::new(alloc);
    for word in words {
        let id = id_named(word)?;
        whats
            .push(ResourceId { kind, id })
            .map_err(AllocError::from)?;
    }
    Ok(whats)
}

/// What `rm` asks for.
fn remove<'a>(alloc: Global, matches: &ArgMatches<'a>) -> Result<Work<'a>, NotAsked>
    ensures asked { IfOk result (AsksFor (codes "rm") (found_of matches.now)) }
    ensures once { IfOk result ReadsOnce }
    ensures fault { IfErr result IsFault }
{
    let kind = kind_named(alloc, word(matches, "type"))?;
    let whats = resources_named(alloc, kind, matches.get_strs("id").unwrap_or(&[]))?;
    let target = changed_target(matches, word(matches, "file"), None)?;
    Ok(Work::Remove(Removing { whats, target }))
}

/// What `set` asks for.
fn set<'a>(alloc: Global, matches: &ArgMatches<'a>) -> Result<Work<'a>, NotAsked>
    ensures asked { IfOk result (AsksFor (codes "set") (found_of matches.now)) }
    ensures once { IfOk result ReadsOnce }
    ensures fault { IfErr result IsFault }
{
    let old_kind = word(matches, "old-type");
    let old_id = word(matches, "old-id");
    let kind = word_or(matches, "type", old_kind);
    let id = word_or(matches, "id", old_id);
    let to = resource_named(alloc, kind, id)?;
    let name = name_change(alloc, matches)?;
    let what = resource_named(alloc, old_kind, old_id)?;
    let attributes = attribute_change(matches)?;
    let target = changed_target(matches, word(matches, "file"), None)?;
    Ok(Work::Set(Setting {
        what,
        change: Change {
            to,
            name,
            attributes,
        },
        target,
    }))
}

/// The word for a type and the id, where a word of `cp` is TYPE:ID.
fn one_named(word: &str) -> Option<(&str, i16)>
    ensures one { IfSome result (λ one. (id : List ℕ) × NamesOne word.now one.0.now id × NamesId id one.1) }
    ensures none { IfNone result ((kind id : List ℕ) → ¬ NamesOne word.now kind id) }
{
    if word.len() == KIND_LENGTH {
        return None;
    }
    let Some((kind, id)) = word.rsplit_once(":") else {
        return None;
    };
    match id_named(id) {
        Ok(id) => Some((kind, id)),
        Err(_) => None,
    }
}

/// Which resources a word of `cp` names: TYPE, or TYPE:ID.
fn choice_named(alloc: Global, word: &str) -> Result<Choice, NotAsked>
    ensures choice { IfOk result (NamesChoice word.now) }
    ensures fault { IfErr result IsFault }
{
    match one_named(word) {
        Some((kind, id)) => {
            let kind = kind_named(alloc, kind)?;
            Ok(Choice::One(ResourceId { kind, id }))
        }
        None => Ok(Choice::Kind(kind_named(alloc, word)?)),
    }
}

/// Which resources words of `cp` name: all where there are none.
fn choices_named(alloc: Global, words: &[&str]) -> Result<Vec<Choice>, NotAsked>
    ensures chosen { IfOk result (λ chosen. NameChoices (texts_of words.now) chosen.items) }
    ensures fault { IfErr result IsFault }
{
    let mut chosen = Vec::new(alloc);
    if words.is_empty() {
        chosen.push(Choice::All).map_err(AllocError::from)?;
        return Ok(chosen);
    }
    for word in words {
        let choice = choice_named(alloc, word)?;
        chosen.push(choice).map_err(AllocError::from)?;
    }
    Ok(chosen)
}

/// What becomes of a resource that is copied where its type and id are there.
fn collision_of(matches: &ArgMatches<'_>) -> Collision
    ensures { result ≡ collision_of (found_of matches.now) }
{
    if flag(matches, "replace") {
        Collision::Replace
    } else if flag(matches, "skip") {
        Collision::Skip
    } else if flag(matches, "renumber") {
        Collision::Renumber
    } else {
        Collision::Refuse
    }
}

/// What `cp` asks for.
fn copy<'a>(alloc: Global, matches: &ArgMatches<'a>) -> Result<Work<'a>, NotAsked>
    ensures asked { IfOk result (AsksFor (codes "cp") (found_of matches.now)) }
    ensures once { IfOk result ReadsOnce }
    ensures fault { IfErr result IsFault }
{
    let [words @ .., file] = matches.get_strs("words").unwrap_or(&[]) else {
        return Err(NotAsked::Fault(Fault::NoCommand));
    };
    let chosen = choices_named(alloc, words)?;
    let from = word(matches, "from");
    let target = changed_target(matches, file, Some(from))?;
    Ok(Work::Copy(Copying {
        from,
        chosen,
        on_collision: collision_of(matches),
        target,
    }))
}

/// What `diff` asks for.
fn compare<'a>(matches: &ArgMatches<'a>) -> Result<Work<'a>, Fault>
    ensures asked { IfOk result (AsksFor (codes "diff") (found_of matches.now)) }
    ensures once { IfOk result ReadsOnce }
{
    let a = word(matches, "a");
    let b = word(matches, "b");
    if a == INPUT && b == INPUT {
        return Err(Fault::TwoInputs);
    }
    let form = form_of(matches);
    Ok(Work::Compare(Comparison { a, b, form }))
}

/// The container that a word names.
fn kind_of_container(word: &str) -> Result<Kind, Fault>
    ensures { IfOk result (λ kind. container_word kind ≡ word.now) }
{
    match word {
        "raw" => Ok(Kind::Raw),
        "appledouble" => Ok(Kind::AppleDouble),
        "applesingle" => Ok(Kind::AppleSingle),
        "macbinary" => Ok(Kind::MacBinary),
        "binhex" => Ok(Kind::BinHex),
        _ => Err(Fault::NoContainer),
    }
}

/// The name, or other bytes, that the value of an option shows, where it is given.
pub(crate) fn name_given(
    alloc: Global,
    matches: &ArgMatches<'_>,
    option: &str,
) -> Result<Option<Vec<u8>>, NotAsked>
    ensures name { IfOk result (λ name. IsNamed (first_value (found_of matches.now) option.now) (option_map (λ bytes. bytes.items) name)) }
    ensures fault { IfErr result IsFault }
{
    match matches.get_str(option) {
        Some(word) => Ok(Some(name_named(alloc, word)?)),
        None => Ok(None),
    }
}

/// What `convert` asks for.
fn convert<'a>(alloc: Global, matches: &ArgMatches<'a>) -> Result<Work<'a>, NotAsked>
    ensures asked { IfOk result (AsksFor (codes "convert") (found_of matches.now)) }
    ensures once { IfOk result ReadsOnce }
    ensures fault { IfErr result IsFault }
{
    let name = name_given(alloc, matches, "name")?;
    let data = matches.get_str("data");
    let file = word(matches, "file");
    if file == INPUT && data == Some(INPUT) {
        return Err(NotAsked::Fault(Fault::TwoInputs));
    }
    let kind = kind_of_container(word(matches, "to"))?;
    Ok(Work::Convert(Conversion {
        kind,
        data,
        name,
        is_lossy: flag(matches, "lossy"),
        target: target_of(matches, file),
    }))
}
