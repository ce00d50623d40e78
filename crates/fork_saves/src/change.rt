//! Files changed: read whole, changed, and written in their own place or in another.

ghost use Rattle.std.specs.Prelude.{◌≡◌, ◌≢◌, ℕ, List, [], IfErr, IfNone, IfOk, IfSome, Ok, codes, false, is_some, string_bytes, true};
ghost use Rattle.file_acts.specs.Acts.{ReadsNothing, WritesNothing};
ghost use Rattle.file_acts.specs.Saved.{JustRead, JustSaved, SavedAndSaid, ShowsSaved};
ghost use Rattle.fork_saves.specs.Changing.{Changes, ChangesInto, ChangesSource, Creates, EndsBy, IsForFile, IsForOther, IsIdle, IsJustRead, IsOpenedFor, IsOutcome, RenewsBy, Replaces, Says, SaysAfter, WritesChanged, WritesTo, goes_to, is_output, is_said, source_bytes, to_new, written_file};
ghost use Rattle.fork_saves.specs.Saving.{IsNotSaved};

use crate::save::{Renewal, renew, save_to};
use crate::source::Source;
use file_acts::acts::{Acts, write_text};
use file_acts::host::{Host, OUTPUT};
use file_acts::message::{DONE, Problem};
use file_replace::Held;
use fork_bytes::table::Row;
use fork_edit::change::{NewFile, changed};
use fork_edit::edit::Edit;
use fork_words::work::Target;
use std::alloc::Global;

/// Changes the resources of a file, in its own place or in another. The result is the exit status; or why it isn't
/// changed, or that it is and the standard output takes no more.
pub fn change_file(
    host: &Host<'_>,
    target: &Target<'_>,
    from: &[Row<'_>],
    edit: Edit<'_>,
    acts: &mut Acts,
) -> Result<u8, Problem>
    ensures does { Changes target.now from.now edit.entry result acts.old.events acts.new.events }
    ensures done { IfOk result (λ status. status ≡ DONE) }
    ensures dry { target.now.is_dry ≡ true → WritesNothing acts.old.events acts.new.events }
    ensures saved { IsForFile target.now → IfOk result (λ _. (old : List ℕ) × EndsBy old from.now edit.entry acts.new.events) }
    ensures seen { IsForFile target.now → ShowsSaved acts.old.events acts.new.events }
{
    let source = Source::open(host, target, acts)?;
    change_source(host, target, source, from, edit, acts)
}

/// Changes the resources of a file that was opened for this target, by an edit to which they are copied from these rows.
/// The result is the same.
pub fn change_source(
    host: &Host<'_>,
    target: &Target<'_>,
    source: Source,
    from: &[Row<'_>],
    edit: Edit<'_>,
    acts: &mut Acts,
) -> Result<u8, Problem>
    requires { IsOpenedFor target.now source }
    ensures does { ChangesSource target.now source from.now edit.entry result acts.old.events acts.new.events }
    ensures done { IfOk result (λ status. status ≡ DONE) }
    ensures dry { target.now.is_dry ≡ true → WritesNothing acts.old.events acts.new.events }
    ensures saved { IsForFile target.now → IsJustRead source acts.old.events → IfOk result (λ _. EndsBy (source_bytes source) from.now edit.entry acts.new.events) }
    ensures seen { IsForFile target.now → IsJustRead source acts.old.events → ShowsSaved acts.old.events acts.new.events }
{
    match source {
        Source::Read(old) => change_into(host, target, &old, from, edit, acts),
        Source::Held(held, old) => renew_by(host, target, held, &old, (from, edit), acts),
    }
}

/// Makes a new file with these resources. The result is the same.
pub fn create_file(
    host: &Host<'_>,
    target: &Target<'_>,
    from: &[Row<'_>],
    edit: Edit<'_>,
    acts: &mut Acts,
) -> Result<u8, Problem>
    ensures does { Creates target.now from.now edit.entry result acts.old.events acts.new.events }
    ensures done { IfOk result (λ status. status ≡ DONE) }
    ensures dry { target.now.is_dry ≡ true → WritesNothing acts.old.events acts.new.events }
    ensures saved { IsForFile target.now → target.now.file.now ≢ codes "-" → IfOk result (λ _. EndsBy [] from.now edit.entry acts.new.events) }
    ensures seen { IsForFile target.now → target.now.file.now ≢ codes "-" → ShowsSaved acts.old.events acts.new.events }
{
    let target = Target {
        output: target.output.or(Some(target.file)),
        ..*target
    };
    change_into(host, &target, &[], from, edit, acts)
}

/// Changes a file that is held and has these bytes, by an edit to which resources are copied from these rows.
fn renew_by(
    host: &Host<'_>,
    target: &Target<'_>,
    held: Held,
    old: &[u8],
    change: (&[Row<'_>], Edit<'_>),
    acts: &mut Acts,
) -> Result<u8, Problem>
    ensures does { RenewsBy target.now held old.now change.entry.0.now change.entry.1 result acts.old.events acts.new.events }
    ensures done { IfOk result (λ status. status ≡ DONE) }
    ensures saved { JustRead old.now acts.old.events → IfOk result (λ _. EndsBy old.now change.entry.0.now change.entry.1 acts.new.events) }
    ensures seen { JustRead old.now acts.old.events → ShowsSaved acts.old.events acts.new.events }
{
    let (from, edit) = change;
    match changed_of(host.alloc(), old, from, edit)? {
        Some(changed) => replace(host, target, held, old, &changed, acts),
        None => Ok(DONE),
    }
}

/// Puts a changed file in the place of one that is held and has these bytes, and says what changed.
fn replace(
    host: &Host<'_>,
    target: &Target<'_>,
    held: Held,
    old: &[u8],
    changed: &NewFile,
    acts: &mut Acts,
) -> Result<u8, Problem>
    ensures does { Replaces target.now held old.now changed.now result acts.old.events acts.new.events }
    ensures done { IfOk result (λ status. status ≡ DONE) }
    ensures saved { JustRead old.now acts.old.events → IfOk result (λ _. SavedAndSaid changed.now.file.items acts.new.events) }
    ensures seen { JustRead old.now acts.old.events → ShowsSaved acts.old.events acts.new.events }
{
    let renewal = Renewal {
        old,
        new: &changed.file,
        keeps_old: target.keeps_old,
    };
    renew(host, target.file, held, &renewal, acts)?;
    say_after(host, target, &changed.told, acts)
}

/// What becomes of a file, or None where nothing changes.
fn changed_of(
    alloc: Global,
    old: &[u8],
    from: &[Row<'_>],
    edit: Edit<'_>,
) -> Result<Option<NewFile>, Problem>
    ensures { IsOutcome old.now from.now edit.entry result }
{
    match changed(alloc, old, from, edit) {
        Ok(changed) => Ok(changed),
        Err(fault) => Err(Problem::of_change(alloc, fault, old)),
    }
}

/// Writes bytes with changes to another file, or only says what would change.
fn change_into(
    host: &Host<'_>,
    target: &Target<'_>,
    old: &[u8],
    from: &[Row<'_>],
    edit: Edit<'_>,
    acts: &mut Acts,
) -> Result<u8, Problem>
    ensures does { ChangesInto target.now old.now from.now edit.entry result acts.old.events acts.new.events }
    ensures done { IfOk result (λ status. status ≡ DONE) }
    ensures dry { target.now.is_dry ≡ true → WritesNothing acts.old.events acts.new.events }
    ensures saved { IsForOther target.now → IfOk result (λ _. EndsBy old.now from.now edit.entry acts.new.events) }
    ensures seen { IsForOther target.now → ShowsSaved acts.old.events acts.new.events }
{
    match changed_of(host.alloc(), old, from, edit)? {
        Some(changed) => write_changed(host, target, &changed, acts),
        None => {
            write_output(host, target, old, acts)?;
            Ok(DONE)
        }
    }
}

/// Writes a changed file, and says what changed.
fn write_changed(
    host: &Host<'_>,
    target: &Target<'_>,
    changed: &NewFile,
    acts: &mut Acts,
) -> Result<u8, Problem>
    ensures does { WritesChanged target.now changed.now result acts.old.events acts.new.events }
    ensures done { IfOk result (λ status. status ≡ DONE) }
    ensures dry { target.now.is_dry ≡ true → WritesNothing acts.old.events acts.new.events }
    ensures saved { IsForOther target.now → IfOk result (λ _. SavedAndSaid changed.now.file.items acts.new.events) }
    ensures seen { IsForOther target.now → ShowsSaved acts.old.events acts.new.events }
{
    write_output(host, target, &changed.file, acts)?;
    say(host, target, &changed.told, acts)
}

/// The file that is written: another one, or the one that is read.
pub fn written_file<'a>(target: &Target<'a>) -> &'a str
    ensures { result.now ≡ written_file target.now }
{
    target.output.unwrap_or(target.file)
}

/// The other file that is written, if one is.
fn goes_to<'a>(target: &Target<'a>) -> Option<&'a str>
    ensures is { result ≡ goes_to target.now }
    ensures some { IfSome result (λ path. (target.now.is_dry ≡ false) × (target.now.output ≡ Some path)) }
    ensures none { IfNone result (IsIdle target.now) }
{
    if target.is_dry { None } else { target.output }
}

/// Writes the file that a command names, unless it only says what it would do. A problem is one of the output's path.
pub fn write_output(
    host: &Host<'_>,
    target: &Target<'_>,
    bytes: &[u8],
    acts: &mut Acts,
) -> Result<(), Problem>
    ensures does { WritesTo (goes_to target.now) bytes.now result acts.old.events acts.new.events }
    ensures idle { IsIdle target.now → (result ≡ Ok tt) × (acts.new.events ≡ acts.old.events) }
    ensures dry { target.now.is_dry ≡ true → WritesNothing acts.old.events acts.new.events }
    ensures cause { IfErr result (λ why. IfSome target.now.output (λ path. IsNotSaved path.now why)) }
    ensures saved { IsForOther target.now → IfOk result (λ _. JustSaved bytes.now acts.new.events) }
    ensures seen { IsForOther target.now → ShowsSaved acts.old.events acts.new.events }
{
    match goes_to(target) {
        Some(output) => save_to(host, output, bytes, acts),
        None => Ok(()),
    }
}

/// Whether this is the standard output.
fn is_output(output: Option<&str>) -> bool
    ensures { result ≡ is_output output.entry }
{
    match output {
        Some(path) => path == OUTPUT,
        None => false,
    }
}

/// Whether it is said what was done, or would be.
fn is_said(target: &Target<'_>) -> bool
    ensures is { result ≡ is_said target.now }
    ensures quiet { target.now.is_quiet ≡ true → result ≡ false }
{
    !target.is_quiet && !is_output(goes_to(target))
}

/// Says what was done, or would be, unless the file itself goes to the standard output.
pub fn say(
    host: &Host<'_>,
    target: &Target<'_>,
    text: &String,
    acts: &mut Acts,
) -> Result<u8, Problem>
    ensures does { Says target.now (string_bytes text.now) result acts.old.events acts.new.events }
    ensures done { IfOk result (λ status. status ≡ DONE) }
    ensures quiet { target.now.is_quiet ≡ true → (result ≡ Ok DONE) × (acts.new.events ≡ acts.old.events) }
    ensures reads { ReadsNothing acts.old.events acts.new.events }
    ensures saved { (bytes : List ℕ) → JustSaved bytes acts.old.events → IfOk result (λ _. SavedAndSaid bytes acts.new.events) }
    ensures seen { (bytes : List ℕ) → JustSaved bytes acts.old.events → ShowsSaved acts.old.events acts.new.events }
{
    if !is_said(target) {
        return Ok(DONE);
    }
    write_text(host, text, acts)?;
    Ok(DONE)
}

/// The same, where the file is changed already.
fn say_after(
    host: &Host<'_>,
    target: &Target<'_>,
    text: &String,
    acts: &mut Acts,
) -> Result<u8, Problem>
    ensures does { SaysAfter target.now (string_bytes text.now) result acts.old.events acts.new.events }
    ensures done { IfOk result (λ status. status ≡ DONE) }
    ensures saved { (bytes : List ℕ) → JustSaved bytes acts.old.events → IfOk result (λ _. SavedAndSaid bytes acts.new.events) }
    ensures seen { (bytes : List ℕ) → JustSaved bytes acts.old.events → ShowsSaved acts.old.events acts.new.events }
{
    match say(host, target, text, acts) {
        Ok(status) => Ok(status),
        Err(problem) => Err(problem.after_change()),
    }
}
