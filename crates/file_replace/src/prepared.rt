//! A file that is prepared to be put, and what its path loses by that.

ghost use Rattle.std.specs.Prelude.{◌≡◌, ◌∷◌, Err, None, true, is_ok, is_some};
ghost use Rattle.std.specs.Path.{path_buf_bytes};
ghost use Rattle.file_replace.specs.declared.calls.HeldCall.TheVariants as HeldCall;
ghost use Rattle.file_replace.specs.declared.calls.HeldCall.TheVariants.{Put};
ghost use Rattle.file_replace.specs.declared.replacement.Step.TheVariants.{Create};
ghost use Rattle.file_replace.specs.LeftBeside.{IsMadeLeft};
ghost use Rattle.file_replace.specs.Pair.{LeftOfBoth};
ghost use Rattle.file_replace.specs.Held.{EndsBoth, GivesUp, GivesUpPrepared, MakesFile, PutsFile, PutsFiles, PutsInTurn, PutsOver, PutsPrepared, PutsTwo, difference, fault_of, losses_by, prepared_losses};

use crate::calls::{HeldCalls, note_stream};
use crate::destination::OpenStream;
use crate::host_place::{FileReplacer, There};
use crate::pair::{PairFault, put_both as put_both_places};
use crate::place::{FolderSync, Replaces};
use crate::replacement::{Fault, Step, prepare, put, replace};
use crate::rights::{Owner, Rights};
use crate::stop::Stop;
use crate::told::{NotReplaced, put_left};
use crate::world::FolderWorld;
use host_paths::{StreamCalls, write_stream};
use std::fmt::{Display, Formatter};
use std::path::PathBuf;
use std::{fmt, io};

/// What became of a file.
#[derive(Clone, Copy, Debug, PartialEq, Eq)]
pub enum Outcome {
    /// It was as it should be, so it wasn't written.
    Unchanged,
    /// It is there, and was synced; this says whether its folder was too.
    Written(FolderSync),
}

/// Which user or group a file belonged to, and which it belongs to now.
#[derive(Clone, Copy, Debug, PartialEq, Eq)]
pub struct Difference {
    pub old: u32,
    pub new: u32,
}

/// What an old file has and the new one in its place hasn't.
#[derive(Clone, Copy, Debug, PartialEq, Eq)]
pub struct Losses {
    /// How many names the old file has, if more than one. The others keep the old file.
    pub names: Option<u64>,
    /// The user to whom it belongs, if the new file belongs to another.
    pub user: Option<Difference>,
    /// The group, if the new file belongs to another.
    pub group: Option<Difference>,
}

/// A number that was, and that is another now.
fn between(old: u32, new: u32) -> Option<Difference>
    ensures { result ≡ difference old new }
{
    if old == new {
        None
    } else {
        Some(Difference { old, new })
    }
}

impl Losses {
    /// Nothing is lost.
    const NONE: Losses = Losses {
        names: None,
        user: None,
        group: None,
    };
}

/// A new file that lies beside its path, whole, synced, with its owner and its mode.
#[derive(Drop)]
pub struct NewFile<'a, F: FolderWorld> {
    pub(crate) place: FileReplacer<'a, F>,
    pub(crate) losses: Losses,
}

/// What is no regular file, open to be written, and the bytes for it.
#[derive(Drop)]
pub struct Stream<'a> {
    pub(crate) to: OpenStream,
    pub(crate) bytes: &'a [u8],
}

/// A file that is prepared to be put. Where it is dropped or given up, the file beside the path is removed, and the
/// path has what it had.
#[derive(Drop)]
pub enum Prepared<'a, F: FolderWorld> {
    /// The path has these bytes.
    Unchanged,
    /// A new file lies beside the path.
    File(NewFile<'a, F>),
    /// The bytes are to be written to what is no regular file. Nothing was done so far.
    Stream(Stream<'a>),
}

/// Why no file can be made at a path whose folder can't be opened.
fn shut(error: io::Error) -> Stop
    ensures step { result.step ≡ Create }
    ensures left { result.left ≡ None }
{
    Stop {
        step: Step::Create,
        error,
        left: None,
    }
}

/// The path of the file that is left beside a place, where one is.
fn left_of<F: FolderWorld>(place: FileReplacer<'_, F>, is_left: bool) -> Option<PathBuf>
    requires { is_left ≡ true → is_some place.beside ≡ true }
    ensures some { is_some result ≡ is_left }
    ensures made { IsMadeLeft result }
{
    if is_left { place.into_left() } else { None }
}

/// Why a file wasn't put, with the path of the file that is left beside.
fn stopped<F: FolderWorld>(place: FileReplacer<'_, F>, fault: Fault<io::Error>) -> Stop
    requires { fault.is_left ≡ true → is_some place.beside ≡ true }
    ensures { fault_of result ≡ fault }
{
    let Fault {
        step,
        error,
        is_left,
    } = fault;
    Stop {
        step,
        error,
        left: left_of(place, is_left),
    }
}

/// What the path of a place loses by a new file of this owner, where these are the rights of the old one.
fn losses_of(old: Option<Rights>, names: u64, now: Option<Owner>) -> Losses
    ensures { result ≡ losses_by old names now }
{
    match (old, now) {
        (Some(rights), Some(now)) => Losses {
            names: if names > 1 { Some(names) } else { None },
            user: between(rights.owner.user, now.user),
            group: between(rights.owner.group, now.group),
        },
        _ => Losses::NONE,
    }
}

impl<'a, F: FolderWorld> NewFile<'a, F> {
    /// Makes a file of these bytes beside a path, for one of these rights and so many names, or for none.
    pub(crate) fn prepare(
        rt: &'a HostRuntime,
        path: PathBuf,
        there: There,
        bytes: &[u8],
        old: Option<Rights>,
        names: u64,
        log: &mut HeldCalls,
    ) -> Result<NewFile<'a, F>, Stop>
        ensures { MakesFile F.held (path_buf_bytes path) there old names bytes.now result log.old.events log.new.events }
    {
        let mut place = match FileReplacer::<F>::new(rt, &path, there, log) {
            Ok(place) => place,
            Err(error) => return Err(shut(error)),
        };
        match prepare(&mut place, bytes, old) {
            Ok(now) => Ok(NewFile {
                place,
                losses: losses_of(old, names, now),
            }),
            Err(fault) => {
                place.note_put(log);
                Err(stopped(place, fault))
            }
        }
    }

    /// Renames the file to its path.
    pub(crate) fn put(self, log: &mut HeldCalls) -> Result<FolderSync, Stop>
        ensures { PutsFile F.held self.entry result log.old.events log.new.events }
    {
        let NewFile { mut place, .. } = self;
        let done = put(&mut place);
        place.note_put(log);
        match done {
            Ok(answer) => Ok(answer),
            Err(fault) => Err(stopped(place, fault)),
        }
    }

    /// Removes the file, and returns its path where that fails.
    fn give_up(self, log: &mut HeldCalls) -> Option<PathBuf>
        ensures { GivesUp self.entry result log.old.events log.new.events }
    {
        let NewFile { mut place, .. } = self;
        let is_left = place.remove().is_err();
        place.note_put(log);
        left_of(place, is_left)
    }
}

/// Puts a file of these bytes at a path that may have any, in the place of one of these rights.
pub(crate) fn put_over<B: FolderWorld>(
    rt: &HostRuntime,
    path: &PathBuf,
    bytes: &[u8],
    rights: Rights,
    log: &mut HeldCalls,
) -> Result<FolderSync, Stop>
    ensures { PutsOver B.held (path_buf_bytes path.now) rights bytes.now result log.old.events log.new.events }
{
    let mut place = match FileReplacer::<B>::new(rt, path, There::Anything, log) {
        Ok(place) => place,
        Err(error) => return Err(shut(error)),
    };
    let done = replace(&mut place, bytes, Some(rights));
    place.note_put(log);
    match done {
        Ok(answer) => Ok(answer),
        Err(fault) => Err(stopped(place, fault)),
    }
}

impl<'a> Stream<'a> {
    /// Writes the bytes.
    fn put(self, log: &mut HeldCalls) -> io::Result<()>
        ensures { log.new.events ≡ HeldCall.Stream (path_buf_bytes self.entry.to.path) (is_ok result) self.entry.bytes.now ∷ log.old.events }
    {
        let mut calls = StreamCalls::new();
        let done = write_stream(&self.to.file, self.bytes, &mut calls);
        note_stream(log, done.is_ok(), &self, &calls);
        done
    }
}

impl<'a, F: FolderWorld> Prepared<'a, F> {
    /// What the old file has and the new one hasn't, so that it is lost once this is put.
    pub fn losses(&self) -> Losses
        ensures { result ≡ prepared_losses self.now }
    {
        match self {
            Prepared::File(file) => file.losses,
            _ => Losses::NONE,
        }
    }

    /// Renames the new file to its path and syncs the folder, or writes the bytes to the stream. Where it fails before
    /// the rename, the path has what it had: also where it leads to another file than the one that was opened. What is
    /// done is noted.
    pub fn put(self, log: &mut HeldCalls) -> Result<Outcome, NotReplaced>
        ensures { PutsPrepared F.held self.entry result log.old.events log.new.events }
    {
        match self {
            Prepared::Unchanged => Ok(Outcome::Unchanged),
            Prepared::File(file) => match file.put(log) {
                Ok(answer) => Ok(Outcome::Written(answer)),
                Err(stop) => Err(NotReplaced::Stopped(stop)),
            },
            Prepared::Stream(stream) => match stream.put(log) {
                Ok(()) => Ok(Outcome::Written(FolderSync::NotOffered)),
                Err(error) => Err(NotReplaced::Stream(error)),
            },
        }
    }

    /// Removes the new file, so that the path keeps what it has. Where that fails, the path of the new file is
    /// returned: it may be there still. What is done is noted.
    pub fn give_up(self, log: &mut HeldCalls) -> Option<PathBuf>
        ensures { GivesUpPrepared self.entry result log.old.events log.new.events }
    {
        match self {
            Prepared::File(file) => file.give_up(log),
            _ => None,
        }
    }
}

/// Why two files weren't put, or not for good.
#[derive(Debug, Drop)]
pub enum NotBoth {
    /// The first wasn't put, or not for good. The second path has what it had, and this file is left beside it.
    First {
        refusal: NotReplaced,
        left: Option<PathBuf>,
    },
    /// The first was put. The second wasn't, or not for good.
    Second(NotReplaced),
}

impl Display for NotBoth {
    fn fmt<W: fmt::Write>(&self, f: &mut Formatter<W>) -> fmt::Result {
        match self {
            NotBoth::First { refusal, left } => {
                refusal.fmt(f)?;
                put_left(left, f)
            }
            NotBoth::Second(refusal) => refusal.fmt(f),
        }
    }
}

/// Why two files weren't put, with the paths of the files that are left beside.
fn not_both<F: FolderWorld, G: FolderWorld>(
    one: FileReplacer<'_, F>,
    other: FileReplacer<'_, G>,
    fault: PairFault<io::Error, io::Error>,
) -> NotBoth
    requires { LeftOfBoth (Err fault) (is_some one.beside) (is_some other.beside) }
    ensures { EndsBoth (λ end. end ≡ Err fault) (Err result) }
{
    match fault {
        PairFault::First { fault, is_left } => NotBoth::First {
            refusal: NotReplaced::Stopped(stopped(one, fault)),
            left: left_of(other, is_left),
        },
        PairFault::Second(fault) => NotBoth::Second(NotReplaced::Stopped(stopped(other, fault))),
    }
}

/// Puts two new files, the second only once the first was put and its folder synced.
fn put_files<F: FolderWorld, G: FolderWorld>(
    first: NewFile<'_, F>,
    second: NewFile<'_, G>,
    log: &mut HeldCalls,
) -> Result<(FolderSync, FolderSync), NotBoth>
    ensures { EndsBoth (λ end. PutsFiles F.held G.held first.entry second.entry end log.old.events log.new.events) result }
{
    let NewFile { place: mut one, .. } = first;
    let NewFile {
        place: mut other,
        ..
    } = second;
    let done = put_both_places(&mut one, &mut other);
    one.note_put(log);
    other.note_put(log);
    match done {
        Ok(answers) => Ok(answers),
        Err(fault) => Err(not_both(one, other, fault)),
    }
}

/// Puts one, and then the other, of which one is no new file.
fn put_in_turn<F: FolderWorld, G: FolderWorld>(
    first: Prepared<'_, F>,
    second: Prepared<'_, G>,
    log: &mut HeldCalls,
) -> Result<(Outcome, Outcome), NotBoth>
    ensures { PutsInTurn F.held G.held first.entry second.entry result log.old.events log.new.events }
{
    match first.put(log) {
        Ok(outcome) => match second.put(log) {
            Ok(also) => Ok((outcome, also)),
            Err(refusal) => Err(NotBoth::Second(refusal)),
        },
        Err(refusal) => Err(NotBoth::First {
            refusal,
            left: second.give_up(log),
        }),
    }
}

/// Puts two that are prepared, the second only once the first was put and its folder synced. So after any end the
/// second path has what it had, or the first path has its new file. What is done is noted.
pub fn put_both<F: FolderWorld, G: FolderWorld>(
    first: Prepared<'_, F>,
    second: Prepared<'_, G>,
    log: &mut HeldCalls,
) -> Result<(Outcome, Outcome), NotBoth>
    ensures { PutsTwo F.held G.held first.entry second.entry result log.old.events log.new.events }
{
    match (first, second) {
        (Prepared::File(first), Prepared::File(second)) => match put_files(first, second, log) {
            Ok((answer, other)) => Ok((Outcome::Written(answer), Outcome::Written(other))),
            Err(refusal) => Err(refusal),
        },
        (first, second) => put_in_turn(first, second, log),
    }
}
