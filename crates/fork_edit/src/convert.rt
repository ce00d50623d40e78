//! A file that is written in another container.

ghost use Rattle.std.specs.Prelude.{◌≡◌, ◌++◌, [], map, IfOk, OnOk};
ghost use Rattle.mac_files.specs.Containers.{container_of};
ghost use Rattle.mac_write.specs.Lost.{holds};
ghost use Rattle.mac_write.specs.Parts.{view};
ghost use Rattle.mac_write.specs.Written.{IsReadAgain};
ghost use Rattle.fork_edit.specs.Convert.{IsConverted, IsHeldWhole, is_data_beside, is_left_out, lacks_data, losses, lost_details, new_file, told};

use crate::extra::{Extra, extras};
use mac_files::container::Container;
use mac_files::container_of;
use mac_write::detail::{Detail, is_lost};
use mac_write::mac_file::MacFile;
use mac_write::refusal::Refusal;
use mac_write::{Target, know_file, write_file, written_laws};
use std::alloc::{AllocError, Global};
use thiserror::Error;

/// Something of a file that isn't in its new container.
#[derive(Clone, Copy, Debug, PartialEq, Eq, Error)]
pub enum Loss {
    /// What the container can't hold.
    #[error("{0}")]
    Detail(Detail),
    /// A data fork that is in a file of its own.
    #[error("its data fork, which is in another file (--data FILE)")]
    DataBeside,
    /// What no container is given.
    #[error("{0}")]
    Extra(Extra),
}

/// A file that is to be written in another container.
#[derive(Clone, Copy)]
pub struct Transfer<'a> {
    /// The bytes in which it was found.
    pub bytes: &'a [u8],
    pub file: MacFile<'a>,
    /// The name that it gets.
    pub name: &'a [u8],
    /// The data fork that it gets.
    pub data_fork: &'a [u8],
    /// Whether the data fork has a file of its own that is known: it came from there, or is written there.
    pub is_data_named: bool,
    pub target: Target,
    /// Whether what the container can't hold may be lost.
    pub is_lossy: bool,
}

impl Transfer<'_> {
    /// What the new file is to be.
    fn new_file(&self) -> MacFile<'_>
        ensures { view result ≡ new_file self.now }
    {
        MacFile {
            name: self.name,
            data_fork: self.data_fork,
            ..self.file
        }
    }
}

/// A file in another container.
#[derive(Drop)]
pub struct Rewritten {
    pub file: Vec<u8>,
    /// What of it is lost.
    pub lost: Vec<Loss>,
}

/// Why a file isn't written in another container.
#[derive(Debug, Drop, Error)]
pub enum NotConverted {
    /// This would be lost.
    #[error("the new file can't hold all of it")]
    NotHeld(Vec<Loss>),
    /// The container can't hold what the file is to be.
    #[error("{0}")]
    Write(Refusal),
    /// The host has no memory.
    #[error("the host has no memory")]
    HostFull,
}

impl From<Refusal> for NotConverted {
    ghost use Rattle.std.specs.Prelude.{◌≡◌};
    ghost use Rattle.fork_edit.specs.Faults.{unconverted_by};

    ghost from_gives = { λ refusal fault. fault ≡ unconverted_by refusal };

    fn from(refusal: Refusal) -> NotConverted {
        match refusal {
            Refusal::HostFull => NotConverted::HostFull,
            refusal => NotConverted::Write(refusal),
        }
    }
}

impl From<AllocError> for NotConverted {
    ghost use Rattle.std.specs.Prelude.{◌≡◌};
    ghost use Rattle.fork_edit.specs.declared.convert.NotConverted.TheVariants as unconverted;

    ghost from_gives = { λ _ fault. fault ≡ unconverted.HostFull };

    fn from(_: AllocError) -> NotConverted {
        NotConverted::HostFull
    }
}

/// Whether the new container can't hold this of the file. A data fork that has a file of its own is there.
fn is_left_out(asked: &Transfer, detail: Detail) -> bool
    ensures { result ≡ is_left_out asked.now detail }
{
    let is_lost = is_lost(detail, asked.target, &asked.new_file());
    match detail {
        Detail::Name | Detail::Finder | Detail::Dates | Detail::Comment => is_lost,
        Detail::DataFork => is_lost && !asked.is_data_named,
    }
}

/// Whether a container holds data forks.
pub fn holds_data(target: Target) -> bool
    ensures { result ≡ holds target Detail.DataFork }
{
    match target {
        Target::Raw | Target::AppleDouble => false,
        Target::AppleSingle | Target::MacBinary | Target::BinHex => true,
    }
}

/// Whether the data fork of a file is in another file.
fn is_data_beside(bytes: &[u8]) -> bool
    ensures { result ≡ is_data_beside (container_of bytes.now) }
{
    match container_of(bytes) {
        Some(Container::AppleDouble) => true,
        Some(Container::Raw | Container::AppleSingle | Container::MacBinary(_)) | None => false,
    }
}

/// Whether the new container is to hold a data fork that is in a file which isn't known.
fn lacks_data(asked: &Transfer) -> bool
    ensures { result ≡ lacks_data asked.now }
{
    is_data_beside(asked.bytes) && holds_data(asked.target) && !asked.is_data_named
}

/// Adds a detail, if the new container can't hold it.
fn push_detail(lost: &mut Vec<Loss>, asked: &Transfer, detail: Detail) -> Result<(), AllocError>
    ensures { OnOk result (lost.new.items ≡ lost.old.items ++ told asked.now detail) }
{
    if !is_left_out(asked, detail) {
        return Ok(());
    }
    lost.push(Loss::Detail(detail))?;
    Ok(())
}

/// Adds the details that the new container can't hold.
fn push_details(lost: &mut Vec<Loss>, asked: &Transfer) -> Result<(), AllocError>
    ensures { OnOk result (lost.new.items ≡ lost.old.items ++ lost_details asked.now) }
{
    push_detail(lost, asked, Detail::Name)?;
    push_detail(lost, asked, Detail::Finder)?;
    push_detail(lost, asked, Detail::Dates)?;
    push_detail(lost, asked, Detail::Comment)?;
    push_detail(lost, asked, Detail::DataFork)
}

/// Adds what no container is given.
fn push_extras(lost: &mut Vec<Loss>, extras: &[Extra]) -> Result<(), AllocError>
    ensures { OnOk result (lost.new.items ≡ lost.old.items ++ map Loss.Extra extras.now) }
{
    for extra in extras {
        lost.push(Loss::Extra(*extra))?;
    }
    Ok(())
}

/// All of the file that isn't in its new container.
fn losses(alloc: Global, asked: &Transfer) -> Result<Vec<Loss>, AllocError>
    ensures { IfOk result (λ lost. lost.items ≡ losses asked.now) }
{
    let mut lost = Vec::new(alloc);
    push_details(&mut lost, asked)?;
    if lacks_data(asked) {
        lost.push(Loss::DataBeside)?;
    }
    let more = extras(alloc, asked.bytes)?;
    push_extras(&mut lost, &more)?;
    Ok(lost)
}

/// The file in another container. What the container can't hold is reported, and refused where it may not be lost. What
/// is written is read again as all of the new file that the container holds; where nothing is lost, that is all of it.
/// Each refusal comes exactly where it is defined, but for HostFull.
pub fn converted(alloc: Global, asked: &Transfer) -> Result<Rewritten, NotConverted>
    ensures converted { IsConverted asked.now result }
    ensures read { IfOk result (λ new. IsReadAgain asked.now.target (new_file asked.now) new.file.items) }
    ensures whole { IfOk result (λ new. new.lost.items ≡ [] → IsHeldWhole asked.now) }
{
    let lost = losses(alloc, asked)?;
    if !lost.is_empty() && !asked.is_lossy {
        return Err(NotConverted::NotHeld(lost));
    }
    let new = asked.new_file();
    know_file(&new);
    written_laws();
    let file = write_file(alloc, asked.target, &new)?;
    Ok(Rewritten { file, lost })
}
