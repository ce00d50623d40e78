//! A file is written in another container.

ghost use Rattle.std.specs.Prelude.{◌≡◌, ◌&&◌, ◌==◌, ℕ, List, Err, IfErr, IfOk, IfSome, Some, length, not, option_map, true};
ghost use Rattle.mac_files.specs.Kinds.{kind_of};
ghost use Rattle.mac_files.specs.OldFiles.{kind_by, said_by};
ghost use Rattle.mac_write.specs.Lost.{holds};
ghost use Rattle.mac_write.specs.OldParts.{old_parts};
ghost use Rattle.mac_write.specs.Parts.{view};
ghost use Rattle.mac_write.specs.declared.detail.Detail.TheVariants.{DataFork};
ghost use Rattle.file_acts.specs.Acts.{ReadsNothing, WritesNothing};
ghost use Rattle.file_acts.specs.Saved.{JustSaved, SavedAndSaid, ShowsSaved, SomeSaved};
ghost use Rattle.fork_saves.specs.Changing.{IsForNew, written_file};
ghost use Rattle.fork_saves.specs.Converting.{Converts, ConvertsBytes, ConvertsFound, ConvertsWith, FindsData, FindsNamed, FindsOther, IsChecked, IsCopy, IsNameBy, IsOpenedAs, IsOwnData, IsRewritten, IsToldUnconverted, IsTransfer, OrdersBy, OrdersFiles, PutsIn, SaysSome, WritesForks, WritesNew, WritesUnless, data_goes_to, is_inside_kind, is_named_by_path, is_sure};
ghost use Rattle.fork_saves.specs.Saving.{EndsSaved, IsForPath, IsWhole};

use crate::change::{say, written_file};
use crate::order::{Order, order_of};
use crate::ready::Ready;
use crate::save::{put_two, save_to};
use file_acts::acts::{Acts, identity_of};
use file_acts::found::{fork_found, refused_as, table_found};
use file_acts::host::Host;
use file_acts::input::read_other;
use file_acts::message::{DONE, Problem, tell};
use fork_answer::{Failure, NoFork};
use fork_edit::convert::{Loss, NotConverted, Rewritten, Transfer, converted, holds_data};
use fork_edit::path_name::name_of_path;
use fork_words::INPUT;
use fork_words::work::{Conversion, Target};
use mac_files::container::{Container, Version};
use mac_files::kind::FileKind;
use mac_files::{OldFile, kind_of};
use mac_write::mac_file::MacFile;
use mac_write::{Target as Kind, parts_of};
use path_text::FileName;
use std::alloc::{AllocError, Global};

/// Whether the data fork of bytes is in the file itself. That of an AppleDouble file is in a file beside it, and where
/// there is a resource fork alone, none is known.
fn is_inside(bytes: &[u8]) -> bool
    ensures { result ≡ is_inside_kind (kind_of bytes.now) }
{
    match kind_of(bytes) {
        FileKind::Container(Container::AppleSingle | Container::MacBinary(_)) | FileKind::BinHex =>
            true,
        FileKind::Container(Container::Raw | Container::AppleDouble)
        | FileKind::Archive(_)
        | FileKind::Unknown => false,
    }
}

/// Whether the new file's name is that of its path: it has none, and its container has one.
fn is_named_by_path(asked: &Conversion<'_>, file: &MacFile) -> bool
    ensures { result ≡ is_named_by_path asked.now file.now }
{
    let is_named = match asked.kind {
        Kind::MacBinary | Kind::BinHex => true,
        Kind::Raw | Kind::AppleDouble | Kind::AppleSingle => false,
    };
    is_named && file.name.is_empty() && asked.target.file != INPUT
}

/// The name of the new file: the one that is asked for, its own, or in MacBinary and BinHex that of the path.
fn name_for(alloc: Global, asked: &Conversion<'_>, file: &MacFile) -> Result<Vec<u8>, AllocError>
    ensures { IfOk result (λ name. IsNameBy asked.now.name (is_named_by_path asked.now file.now) asked.now.target.file.now file.now.name.now name.items) }
{
    if let Some(name) = &asked.name {
        return Vec::from_slice(alloc, name.as_slice());
    }
    if is_named_by_path(asked, file) {
        return name_of_path(alloc, asked.target.file);
    }
    Vec::from_slice(alloc, file.name)
}

/// What of a file is lost, in words.
fn lost_words(alloc: Global, lost: &[Loss]) -> Result<String, AllocError> {
    let mut text = String::new(alloc);
    for loss in lost {
        if !text.as_str().is_empty() {
            text.push_str(", ")?;
        }
        write!(text, "{loss}")?;
    }
    Ok(text)
}

/// Whether a file is known for sure by its bytes.
fn is_sure(bytes: &[u8]) -> bool
    ensures { result ≡ is_sure bytes.now }
{
    match kind_of(bytes) {
        FileKind::Container(
            Container::Raw
            | Container::AppleSingle
            | Container::AppleDouble
            | Container::MacBinary(Version::II | Version::III),
        )
        | FileKind::BinHex => true,
        FileKind::Container(Container::MacBinary(Version::I))
        | FileKind::Archive(_)
        | FileKind::Unknown => false,
    }
}

/// Checks that bytes in no container that is known for sure are a resource fork.
fn check_fork(alloc: Global, bytes: &[u8]) -> Result<(), Problem>
    ensures { IsChecked (is_sure bytes.now) bytes.now result }
{
    if is_sure(bytes) {
        return Ok(());
    }
    let found = fork_found(alloc, bytes)?;
    table_found(alloc, &found, bytes)?;
    Ok(())
}

/// What bytes hold, where they are in a container that is known for sure, or are a resource fork.
fn opened<'a>(alloc: Global, bytes: &'a [u8]) -> Result<OldFile<'a>, Problem>
    ensures { IsOpenedAs bytes.now result }
{
    check_fork(alloc, bytes)?;
    match OldFile::open(alloc, bytes) {
        Ok(found) => Ok(found),
        Err(fault) => Err(refused_as(alloc, Failure::NoFork(NoFork::File(fault)), bytes)),
    }
}

/// These bytes, unless the host has no memory.
fn copied(alloc: Global, bytes: &[u8]) -> Result<Vec<u8>, Problem>
    ensures { IsCopy bytes.now result }
{
    match Vec::from_slice(alloc, bytes) {
        Ok(copied) => Ok(copied),
        Err(_) => Err(Problem::HostFull),
    }
}

/// The data fork of the new file, which `--data` names where it is in a file of its own.
fn data_for(
    host: &Host<'_>,
    asked: &Conversion<'_>,
    bytes: &[u8],
    fork: &[u8],
    acts: &mut Acts,
) -> Result<Vec<u8>, Problem>
    ensures does { FindsData asked.now.data (holds asked.now.kind DataFork) (is_inside_kind (kind_of bytes.now)) fork.now result acts.old.events acts.new.events }
    ensures quiet { WritesNothing acts.old.events acts.new.events }
    ensures seen { ShowsSaved acts.old.events acts.new.events }
{
    let holds = holds_data(asked.kind);
    let is_inside = is_inside(bytes);
    match asked.data {
        Some(path) => data_named(host, path, (holds, is_inside), fork, acts),
        None => own_data(host.alloc(), holds, fork),
    }
}

/// The data fork where `--data` names a file, by whether the new container holds data forks, and whether the file's own
/// is in it.
fn data_named(
    host: &Host<'_>,
    path: &str,
    where_it_is: (bool, bool),
    fork: &[u8],
    acts: &mut Acts,
) -> Result<Vec<u8>, Problem>
    ensures does { FindsNamed path.now where_it_is.0 where_it_is.1 fork.now result acts.old.events acts.new.events }
    ensures quiet { WritesNothing acts.old.events acts.new.events }
    ensures seen { ShowsSaved acts.old.events acts.new.events }
{
    match where_it_is {
        (true, is_inside) => data_beside(host, path, !is_inside && fork.is_empty(), acts),
        (false, true) => copied(host.alloc(), fork),
        (false, false) => Err(Problem::NoDataFile),
    }
}

/// The data fork of the file that `--data` names, if that is where it is.
fn data_beside(
    host: &Host<'_>,
    path: &str,
    is_there: bool,
    acts: &mut Acts,
) -> Result<Vec<u8>, Problem>
    ensures does { FindsOther is_there path.now result acts.old.events acts.new.events }
    ensures quiet { WritesNothing acts.old.events acts.new.events }
    ensures seen { ShowsSaved acts.old.events acts.new.events }
{
    if is_there {
        read_other(host, path, acts)
    } else {
        Err(Problem::NoDataFile)
    }
}

/// The file's own data fork, unless it would be lost.
fn own_data(alloc: Global, holds: bool, fork: &[u8]) -> Result<Vec<u8>, Problem>
    ensures { IsOwnData (not holds && not (length fork.now == 0)) fork.now result }
{
    if !holds && !fork.is_empty() {
        return Err(Problem::DataLost);
    }
    copied(alloc, fork)
}

/// In which order the new file and the data fork's file are put.
fn order_for(
    host: &Host<'_>,
    asked: &Conversion<'_>,
    path: &str,
    acts: &mut Acts,
) -> Result<Order, Problem>
    ensures does { OrdersFiles asked.now.target.file.now (written_file asked.now.target) path.now result acts.old.events acts.new.events }
    ensures one_file { path.now ≡ written_file asked.now.target → result ≡ Err Problem.OneFile }
    ensures quiet { WritesNothing acts.old.events acts.new.events }
    ensures seen { ShowsSaved acts.old.events acts.new.events }
{
    let output = written_file(&asked.target);
    if path == output {
        return Err(Problem::OneFile);
    }
    let input = identity_of(host, asked.target.file, acts);
    let output = identity_of(host, output, acts);
    let data = identity_of(host, path, acts);
    match order_of(&input, &output, &data) {
        Some(order) => Ok(order),
        None => Err(Problem::OneFile),
    }
}

/// The same, where the data fork has a file of its own.
fn order_if(host: &Host<'_>, asked: &Conversion<'_>, acts: &mut Acts) -> Result<Order, Problem>
    ensures does { OrdersBy asked.now.data asked.now.target result acts.old.events acts.new.events }
    ensures one_file { option_map (λ path. path.now) asked.now.data ≡ Some (written_file asked.now.target) → result ≡ Err Problem.OneFile }
    ensures quiet { WritesNothing acts.old.events acts.new.events }
    ensures seen { ShowsSaved acts.old.events acts.new.events }
{
    match asked.data {
        Some(path) => order_for(host, asked, path, acts),
        None => Ok(Order::DataFirst),
    }
}

/// The file of the data fork that is written, if one is.
fn data_goes_to<'a>(asked: &Conversion<'a>) -> Option<&'a str>
    ensures is { result ≡ data_goes_to asked.now }
    ensures named { IfSome result (λ path. asked.now.data ≡ Some path) }
{
    if holds_data(asked.kind) {
        None
    } else {
        asked.data
    }
}

/// Writes the new file, and the data fork where it gets a file of its own. Both are prepared before either is put, and
/// the file that is read is replaced last.
fn write_both<'a>(
    host: &Host<'a>,
    asked: &Conversion<'a>,
    order: Order,
    new: &'a [u8],
    data: &'a [u8],
    acts: &mut Acts,
) -> Result<(), Problem>
    ensures does { WritesForks (data_goes_to asked.now) (written_file asked.now.target) order new.now «data».now result acts.old.events acts.new.events }
    ensures saved { IsForNew asked.now → IfOk result (λ _. SomeSaved acts.new.events) }
    ensures seen { IsForNew asked.now → ShowsSaved acts.old.events acts.new.events }
{
    let output = written_file(&asked.target);
    match data_goes_to(asked) {
        Some(path) => {
            let output = Ready::new(host, output, new, acts)?;
            let data = Ready::new(host, path, data, acts)?;
            put_in(host, order, output, data, acts)
        }
        None => save_to(host, output, new, acts),
    }
}

/// Puts the new file and the data fork's in this order.
fn put_in(
    host: &Host<'_>,
    order: Order,
    output: Ready<'_>,
    data: Ready<'_>,
    acts: &mut Acts,
) -> Result<(), Problem>
    ensures does { PutsIn order output.entry «data».entry result acts.old.events acts.new.events }
    ensures saved { IsForPath output.entry → IsForPath «data».entry → IsWhole output.entry → IsWhole «data».entry → IfOk result (λ _. SomeSaved acts.new.events) }
    ensures seen { IsForPath output.entry → IsForPath «data».entry → ShowsSaved acts.old.events acts.new.events }
{
    match order {
        Order::OutputFirst => put_two(host, output, data, acts),
        Order::DataFirst => put_two(host, data, output, acts),
    }
}

/// Writes the new file and the data fork, unless the command only says what it would do.
fn write_converted(
    host: &Host<'_>,
    asked: &Conversion<'_>,
    order: Order,
    new: &[u8],
    data: &[u8],
    acts: &mut Acts,
) -> Result<(), Problem>
    ensures does { WritesUnless asked.now.target.is_dry asked.now order new.now «data».now result acts.old.events acts.new.events }
    ensures dry { asked.now.target.is_dry ≡ true → WritesNothing acts.old.events acts.new.events }
    ensures saved { IsForNew asked.now → IfOk result (λ _. SomeSaved acts.new.events) }
    ensures seen { IsForNew asked.now → ShowsSaved acts.old.events acts.new.events }
{
    if asked.target.is_dry {
        return Ok(());
    }
    write_both(host, asked, order, new, data, acts)
}

/// Why a file isn't written in another container.
fn unconverted(alloc: Global, fault: NotConverted) -> Problem
    ensures { IsToldUnconverted fault result }
{
    match fault {
        NotConverted::NotHeld(lost) => match lost_words(alloc, &lost) {
            Ok(words) => Problem::Lost(words),
            Err(_) => Problem::HostFull,
        },
        NotConverted::Write(fault) => Problem::Convert(fault),
        NotConverted::HostFull => Problem::HostFull,
    }
}

/// A file that was found in bytes in its new container, with this data fork.
fn rewritten(
    alloc: Global,
    asked: &Conversion<'_>,
    bytes: &[u8],
    file: MacFile<'_>,
    data: &[u8],
) -> Result<Rewritten, Problem>
    ensures { IsRewritten asked.now bytes.now file.entry «data».now result }
{
    let name = name_for(alloc, asked, &file)?;
    let transfer = Transfer {
        bytes,
        file,
        name: &name,
        data_fork: data,
        is_data_named: asked.data.is_some(),
        target: asked.kind,
        is_lossy: asked.is_lossy,
    };
    match converted(alloc, &transfer) {
        Ok(new) => Ok(new),
        Err(fault) => Err(unconverted(alloc, fault)),
    }
}

/// Writes a file with these bytes in another container. The result is the exit status.
pub fn convert(
    host: &Host<'_>,
    asked: &Conversion<'_>,
    bytes: &[u8],
    acts: &mut Acts,
) -> Result<u8, Problem>
    ensures does { Converts asked.now bytes.now result acts.old.events acts.new.events }
    ensures done { IfOk result (λ status. status ≡ DONE) }
    ensures one_file { option_map (λ path. path.now) asked.now.data ≡ Some (written_file asked.now.target) → result ≡ Err Problem.OneFile }
    ensures dry { asked.now.target.is_dry ≡ true → WritesNothing acts.old.events acts.new.events }
    ensures saved { IsForNew asked.now → IfOk result (λ _. EndsSaved acts.new.events) }
    ensures seen { IsForNew asked.now → ShowsSaved acts.old.events acts.new.events }
{
    let order = order_if(host, asked, acts)?;
    convert_bytes(host, asked, order, bytes, acts)
}

/// Writes the file in these bytes in another container.
fn convert_bytes(
    host: &Host<'_>,
    asked: &Conversion<'_>,
    order: Order,
    bytes: &[u8],
    acts: &mut Acts,
) -> Result<u8, Problem>
    ensures does { ConvertsBytes asked.now order bytes.now result acts.old.events acts.new.events }
    ensures done { IfOk result (λ status. status ≡ DONE) }
    ensures dry { asked.now.target.is_dry ≡ true → WritesNothing acts.old.events acts.new.events }
    ensures saved { IsForNew asked.now → IfOk result (λ _. EndsSaved acts.new.events) }
    ensures seen { IsForNew asked.now → ShowsSaved acts.old.events acts.new.events }
{
    let found = opened(host.alloc(), bytes)?;
    convert_file(host, asked, order, bytes, parts_of(&found), acts)
}

/// Writes a file that was found in these bytes in another container.
fn convert_file(
    host: &Host<'_>,
    asked: &Conversion<'_>,
    order: Order,
    bytes: &[u8],
    file: MacFile<'_>,
    acts: &mut Acts,
) -> Result<u8, Problem>
    ensures does { ConvertsFound asked.now order bytes.now file.entry result acts.old.events acts.new.events }
    ensures done { IfOk result (λ status. status ≡ DONE) }
    ensures dry { asked.now.target.is_dry ≡ true → WritesNothing acts.old.events acts.new.events }
    ensures saved { IsForNew asked.now → IfOk result (λ _. EndsSaved acts.new.events) }
    ensures seen { IsForNew asked.now → ShowsSaved acts.old.events acts.new.events }
{
    let data = data_for(host, asked, bytes, file.data_fork, acts)?;
    convert_with(host, asked, order, (bytes, file, &data), acts)
}

/// Writes a file that was found in bytes in another container, with this data fork.
fn convert_with(
    host: &Host<'_>,
    asked: &Conversion<'_>,
    order: Order,
    found: (&[u8], MacFile<'_>, &[u8]),
    acts: &mut Acts,
) -> Result<u8, Problem>
    ensures does { ConvertsWith asked.now order found.entry.0.now found.entry.1 found.entry.2.now result acts.old.events acts.new.events }
    ensures done { IfOk result (λ status. status ≡ DONE) }
    ensures dry { asked.now.target.is_dry ≡ true → WritesNothing acts.old.events acts.new.events }
    ensures saved { IsForNew asked.now → IfOk result (λ _. EndsSaved acts.new.events) }
    ensures seen { IsForNew asked.now → ShowsSaved acts.old.events acts.new.events }
{
    let (bytes, file, data) = found;
    let new = rewritten(host.alloc(), asked, bytes, file, data)?;
    write_and_say(host, asked, order, &new, data, acts)
}

/// Writes the new file and the data fork, and says so.
fn write_and_say(
    host: &Host<'_>,
    asked: &Conversion<'_>,
    order: Order,
    new: &Rewritten,
    data: &[u8],
    acts: &mut Acts,
) -> Result<u8, Problem>
    ensures does { WritesNew asked.now order new.now.file.items «data».now result acts.old.events acts.new.events }
    ensures done { IfOk result (λ status. status ≡ DONE) }
    ensures dry { asked.now.target.is_dry ≡ true → WritesNothing acts.old.events acts.new.events }
    ensures saved { IsForNew asked.now → IfOk result (λ _. EndsSaved acts.new.events) }
    ensures seen { IsForNew asked.now → ShowsSaved acts.old.events acts.new.events }
{
    write_converted(host, asked, order, &new.file, data, acts)?;
    say_converted(host, asked, new, acts)
}

/// Says what was written, and what of the file is lost.
fn say_converted(
    host: &Host<'_>,
    asked: &Conversion<'_>,
    new: &Rewritten,
    acts: &mut Acts,
) -> Result<u8, Problem>
    ensures does { SaysSome asked.now.target result acts.old.events acts.new.events }
    ensures done { IfOk result (λ status. status ≡ DONE) }
    ensures quiet { ReadsNothing acts.old.events acts.new.events }
    ensures saved { (bytes : List ℕ) → JustSaved bytes acts.old.events → IfOk result (λ _. SavedAndSaid bytes acts.new.events) }
    ensures seen { (bytes : List ℕ) → JustSaved bytes acts.old.events → ShowsSaved acts.old.events acts.new.events }
{
    if !new.lost.is_empty() {
        tell(
            host,
            asked.target.file,
            lost_line(host.alloc(), &asked.target, &new.lost),
        );
    }
    let said = written_line(host.alloc(), &asked.target, new.file.len())?;
    say(host, &asked.target, &said, acts)
}

/// That this isn't in the new file, in a line.
fn lost_line(alloc: Global, target: &Target<'_>, lost: &[Loss]) -> Result<String, AllocError> {
    let output = FileName(written_file(target));
    let input = FileName(target.file);
    let words = lost_words(alloc, lost)?;
    format!(in alloc; "{input}: not in {output}: {words}\n")
}

/// How long the new file is, in a line.
fn written_line(alloc: Global, target: &Target<'_>, length: usize) -> Result<String, AllocError> {
    let output = FileName(written_file(target));
    format!(in alloc; "{output}: {length} bytes\n")
}
