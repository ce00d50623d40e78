//! Resources shown to people.

ghost use Rattle.std.specs.Prelude.{◌≡◌, IfOk, OnOk, [], ◌∷◌, ◌++◌, None, false};
ghost use Rattle.std.specs.List.{flat_map};
ghost use Rattle.fork_view.specs.Sights.{ShowsChosen, ShowsRow, ShowsRows, is_of_kind, is_sketch, untold_in, untold_of, why_left_out, why_untold};

use crate::drawing::{drawing_sight, is_drawing};
use crate::form::{ends_early, is_text, png_of, push_hex, push_text};
use crate::sound::{is_sound, push_sound, wav_of};
use fork_bytes::table::Row;
use fork_drawings::undrawn::Undrawn;
use fork_list::find::Wanted;
use fork_list::letters::Letters;
use fork_list::{KindText, NamePart, Quoted, find_row, unpacked_length};
use fork_sounds::fault::Fault;
use mac_base::resource::ResType;
use std::alloc::{AllocError, Global};
use thiserror::Error;

/// How a resource is shown.
#[derive(Clone, Copy, Debug, PartialEq, Eq)]
pub enum ShowAs {
    Text,
    Hex,
    Png,
    Wav,
}

/// Which resources are shown.
#[derive(Drop)]
pub enum Chosen {
    All,
    /// Those of a type.
    Kind(ResType),
    One(Wanted),
}

/// Which resources are shown, and how, where it isn't by their types.
#[derive(Drop)]
pub struct View {
    pub chosen: Chosen,
    pub form: Option<ShowAs>,
}

/// Why nothing is shown.
#[derive(Clone, Copy, Debug, Error)]
pub enum NotShown {
    /// The fork has no such resource.
    #[error("the fork has no such resource")]
    NotFound,
    /// One of this type can't be a PNG file.
    #[error("this {kind} is no picture that is written as a PNG file: such are 'PICT', icons, cursors, patterns and tables of colours whose bytes are right; --as hex writes hexadecimal digits, and --as text its bytes as text", kind = Quoted::single(Letters::Roman, &.0.bytes()))]
    NoPicture(ResType),
    /// Nothing of a picture in QuickDraw's language is drawn.
    #[error("this picture isn't written as a PNG file: {0}; --as hex shows its bytes")]
    Undrawn(fork_drawings::fault::Fault),
    /// It can't be text.
    #[error("it ends before its texts do; --as hex shows its bytes")]
    NoText,
    /// It is compressed, and has so many bytes once it is unpacked.
    #[error("compressed, {0} bytes unpacked; its bytes can be had with get")]
    Compressed(usize),
    /// One of this type can't be a WAV file.
    #[error("this {kind} is no sound: a 'snd ' is written as a WAV file; --as hex writes hexadecimal digits, and --as text its bytes as text", kind = Quoted::single(Letters::Roman, &.0.bytes()))]
    NoSound(ResType),
    /// The samples of a sound can't be had.
    #[error("this sound isn't written as a WAV file: {0}; --as hex shows its bytes")]
    Unheard(Fault),
    /// Several resources can't be one PNG file.
    #[error("a PNG file has one picture: name a resource by its type and its id; --as hex writes hexadecimal digits, and --as text texts")]
    ManyPictures,
    /// Several resources can't be one WAV file.
    #[error("a WAV file has one sound: name a resource by its type and its id; --as hex writes hexadecimal digits, and --as text texts")]
    ManySounds,
    /// The host has no memory.
    #[error("the host has no memory")]
    HostFull,
}

impl From<AllocError> for NotShown {
    ghost use Rattle.std.specs.Prelude.{◌≡◌};
    ghost use Rattle.fork_view.specs.declared.view.NotShown.TheVariants.{HostFull};

    ghost from_gives = { λ _ why. why ≡ HostFull };

    fn from(_: AllocError) -> NotShown {
        NotShown::HostFull
    }
}

/// A resource that isn't shown among others, and why.
#[derive(Clone, Copy, Debug)]
pub struct Untold {
    pub kind: ResType,
    pub id: i16,
    pub why: NotShown,
}

/// What is shown, and whether it is a picture or a sound, which aren't for a terminal.
#[derive(Drop)]
pub struct Sight {
    pub bytes: Vec<u8>,
    pub is_binary: bool,
    /// The resources that should be shown, too, and can't be in the form that is asked for.
    pub untold: Vec<Untold>,
    /// What of a picture in QuickDraw's language isn't drawn, if something isn't.
    pub undrawn: Option<Undrawn>,
}

/// Why a resource can't be shown in a form, or as its type says, where it is no picture.
fn why_untold(
    alloc: Global,
    row: &Row,
    form: Option<ShowAs>,
) -> Result<Option<NotShown>, AllocError>
    ensures { IfOk result (λ why. why ≡ why_untold form row.now) }
{
    if form == Some(ShowAs::Hex) {
        return Ok(None);
    }
    if let Some(length) = unpacked_length(row.attributes, row.datum.as_slice()) {
        return Ok(Some(NotShown::Compressed(length)));
    }
    if form == Some(ShowAs::Text) && ends_early(alloc, row)? {
        return Ok(Some(NotShown::NoText));
    }
    Ok(None)
}

/// Adds a resource by its type as text, or a sound in words; of a compressed one a line says that it is. False where
/// its digits are to be shown.
fn push_by_type(alloc: Global, text: &mut String, row: &Row) -> Result<bool, AllocError> {
    if let Some(length) = unpacked_length(row.attributes, row.datum.as_slice()) {
        let why = NotShown::Compressed(length);
        writeln!(text, "{why}")?;
        return Ok(true);
    }
    if is_text(row) {
        push_text(alloc, text, row)
    } else if is_sound(row) {
        push_sound(alloc, text, row)
    } else {
        Ok(false)
    }
}

/// Adds a resource in a form, or else by its type.
fn push_row(
    alloc: Global,
    text: &mut String,
    row: &Row,
    form: Option<ShowAs>,
) -> Result<(), AllocError> {
    let is_shown = match form {
        Some(ShowAs::Text) => push_text(alloc, text, row)?,
        None => push_by_type(alloc, text, row)?,
        _ => false,
    };
    if !is_shown {
        push_hex(text, row.datum.as_slice())?;
    }
    Ok(())
}

/// Adds the line before a resource: its type, its id, and its name in double quotes if it has one.
fn push_title(text: &mut String, row: &Row) -> Result<(), AllocError> {
    let kind = KindText::new(Letters::Roman, row.kind);
    let id = row.id;
    let name = match &row.name {
        Some(name) => Some(name.as_slice()),
        None => None,
    };
    let name = NamePart::new(Letters::Roman, name);
    writeln!(text, "{kind} {id}{name}")
}

/// Whether a picture in QuickDraw's language is shown as one: unless another form is asked for.
fn is_sketch(row: &Row, form: Option<ShowAs>) -> bool
    ensures { result ≡ is_sketch form row.now }
{
    match form {
        None | Some(ShowAs::Png) => is_drawing(row),
        _ => false,
    }
}

/// One resource that isn't compressed, in another form than a picture in QuickDraw's language.
fn sight_by_form(
    alloc: Global,
    rows: &[Row],
    row: &Row,
    form: Option<ShowAs>,
) -> Result<Sight, NotShown>
    requires whole { why_untold form row.now ≡ None }
    requires other { is_sketch form row.now ≡ false }
    ensures { ShowsRow form rows.now row.now result }
{
    if form == Some(ShowAs::Wav) {
        return match wav_of(alloc, row) {
            Ok(bytes) => Ok(Sight {
                bytes,
                is_binary: true,
                untold: Vec::new(alloc),
                undrawn: None,
            }),
            Err(why) => Err(why),
        };
    }
    if (form.is_none() || form == Some(ShowAs::Png))
        && let Some(bytes) = png_of(alloc, rows, row)?
    {
        return Ok(Sight {
            bytes,
            is_binary: true,
            untold: Vec::new(alloc),
            undrawn: None,
        });
    }
    if form == Some(ShowAs::Png) {
        return Err(NotShown::NoPicture(row.kind));
    }
    let mut text = String::new(alloc);
    push_row(alloc, &mut text, row, form)?;
    Ok(Sight {
        bytes: text.into_bytes(),
        is_binary: false,
        untold: Vec::new(alloc),
        undrawn: None,
    })
}

/// One resource, as it is shown. An icon in colour has the mask of another of the rows.
fn sight_of_row(
    alloc: Global,
    rows: &[Row],
    row: &Row,
    form: Option<ShowAs>,
) -> Result<Sight, NotShown>
    ensures { ShowsRow form rows.now row.now result }
{
    if let Some(why) = why_untold(alloc, row, form)? {
        return Err(why);
    }
    if is_sketch(row, form) {
        return drawing_sight(alloc, row);
    }
    sight_by_form(alloc, rows, row, form)
}

/// Whether a type is the one that is asked for, if one is.
fn is_of_kind(kind: &Option<ResType>, own: ResType) -> bool
    ensures { result ≡ is_of_kind kind.now own }
{
    match kind {
        Some(kind) => *kind == own,
        None => true,
    }
}

/// Why a resource can't be shown among others. Where no form is asked for it can be: of a compressed one a line says so.
fn why_left_out(
    alloc: Global,
    row: &Row,
    form: Option<ShowAs>,
) -> Result<Option<NotShown>, AllocError>
    ensures { IfOk result (λ why. why ≡ why_left_out form row.now) }
{
    if form.is_none() {
        return Ok(None);
    }
    why_untold(alloc, row, form)
}

/// Adds a resource after its title, or to those that can't be shown.
fn push_titled(
    alloc: Global,
    text: &mut String,
    others: &mut Vec<Untold>,
    row: &Row,
    form: Option<ShowAs>,
) -> Result<(), AllocError>
    ensures { OnOk result (others.new.items ≡ others.old.items ++ untold_of form row.now) }
{
    match why_left_out(alloc, row, form)? {
        Some(why) => {
            let kind = row.kind;
            let id = row.id;
            others.push(Untold { kind, id, why })?;
        }
        None => {
            push_title(text, row)?;
            push_row(alloc, text, row, form)?;
        }
    }
    Ok(())
}

/// Adds a resource, if it is of the type that is asked for.
fn push_chosen(
    alloc: Global,
    text: &mut String,
    others: &mut Vec<Untold>,
    row: &Row,
    kind: &Option<ResType>,
    form: Option<ShowAs>,
) -> Result<(), AllocError>
    ensures { OnOk result (others.new.items ≡ others.old.items ++ untold_in kind.now form row.now) }
{
    if !is_of_kind(kind, row.kind) {
        return Ok(());
    }
    push_titled(alloc, text, others, row, form)
}

/// Resources, each after a line with its type, its id and its name.
fn sight_of_rows(
    alloc: Global,
    rows: &[Row],
    kind: Option<ResType>,
    form: Option<ShowAs>,
) -> Result<Sight, NotShown>
    ensures { ShowsRows kind form rows.now result }
{
    if form == Some(ShowAs::Png) {
        return Err(NotShown::ManyPictures);
    }
    if form == Some(ShowAs::Wav) {
        return Err(NotShown::ManySounds);
    }
    let mut text = String::new(alloc);
    let mut others = Vec::new(alloc);
    for row in rows {
        push_chosen(alloc, &mut text, &mut others, row, &kind, form)?;
    }
    Ok(Sight {
        bytes: text.into_bytes(),
        is_binary: false,
        untold: others,
        undrawn: None,
    })
}

/// What is shown of rows. Of several rows those that can't be shown in the form that is asked for are given with the
/// others.
pub fn sight_of(alloc: Global, view: &View, rows: &[Row]) -> Result<Sight, NotShown>
    ensures { ShowsChosen view.now.chosen view.now.form rows.now result }
{
    match &view.chosen {
        Chosen::All => sight_of_rows(alloc, rows, None, view.form),
        Chosen::Kind(kind) => sight_of_rows(alloc, rows, Some(*kind), view.form),
        Chosen::One(wanted) => match find_row(rows, wanted) {
            Some(row) => sight_of_row(alloc, rows, row, view.form),
            None => Err(NotShown::NotFound),
        },
    }
}
