//! What the program does with its words, its input and its output.

ghost use Rattle.std.specs.Prelude.{◌≡◌, ◌≢◌, ◌≤◌, ◌++◌, [], ℕ, List, length, map};
ghost use Rattle.clap.specs.Words.{kind_of};
ghost use Rattle.script_run.specs.Counting.{RoseByOne, Took};
ghost use Rattle.script_run.specs.Exact.{RunsAgree};
ghost use Rattle.script_run.specs.Headline.{RunShows};
ghost use Rattle.script_run.specs.Recovery.{RunRecovers};
ghost use Rattle.script_run.specs.Seen.{KeepsSeen, StartsOn};
ghost use Rattle.script_run.specs.Turns.{Notes};
ghost use Rattle.macheap.specs.Program.{Answers, AnyNotes, Did, HelpEnds, NoStoresEnd, ProgramEnds, Refuses, RunEnds, RunsOver, SaysWhy, Tells, Wrote, cannot_open_text, lacks_memory, opening_of};
ghost use Rattle.macheap.specs.Restarting.{StartsOnDisk};
ghost use Rattle.run_stores.specs.Stores.{Opening, most_files};
ghost use Rattle.run_stores.specs.declared.stores.AnyStore.{AnyStore};

use crate::asked::{Asked, NotAsked, asked_by};
use crate::files::Files;
use crate::moments::AnyMoments;
use crate::name::write_name;
use clap::error::ErrorKind;
use fork_disk::store::ForkStore;
use mac_base::zone_spec::ZoneSpec;
use path_text::{Lines, in_lines};
use run_stores::{
    NoStores, NotOpened, Opens, close_alone, close_journalled, journalled_stores, plain_stores,
};
use script_run::{Counted, Moments, RunEnd, run, status, tell_no_memory, write_whole};
use script_text::Wrong;
use std::alloc::{AllocError, Global};
use std::convert::AsStr;
use std::fmt::Display;
use std::io::{Read, Write};
use thiserror::Error;

/// The exit status where the words of the command line, or the sizes that they give, are bad.
pub const BAD_WORDS: u8 = 2;

/// The exit status where a file can't be opened.
const CANNOT_OPEN: u8 = 1;

/// What the help text begins with.
const ABOUT: &[u8] =
    b"Runs the script of standard input on a new heap zone, and writes each call's reply\nWith --look FILE it shows a zone that others made instead: see macheap --look FILE --help\n\n";

/// What is wrong with the first line of a script that is none.
#[derive(Debug, Drop, Error)]
#[error("error: line {line}: {wrong}")]
struct WrongLine {
    line: u32,
    wrong: Wrong,
}

/// Does what the words ask for, of which the first is the program's name, and gives the exit status. A run reads its
/// script from `input` and writes to `output`, over the stores of the files that `opener` opens; what is wrong with the
/// words or the files is written to `messages`. Where files have journals, what the run leaves after a crash is what
/// their stores promise of each call: the opening of each file recovers it, and an update is there as a whole or not at
/// all.
pub fn program<
    T: AsStr,
    F: Drop,
    S: ForkStore,
    J: ForkStore,
    O: Opens<F, S, J>,
    R: Read,
    W: Write,
    M: Write,
>(
    alloc: Global,
    words: &[T],
    opener: &mut O,
    input: &mut Counted<R>,
    output: &mut Counted<W>,
    messages: &mut Counted<M>,
    moments: &mut AnyMoments<S, J>,
) -> u8
    ensures ends { (openings : List (Opening F)) × (closed : List (AnyStore S J))
        × (O.openings opener.new ≡ O.openings opener.old ++ openings) × (O.closed opener.new ≡ O.closed opener.old ++ closed)
        × AnyNotes output.old.passed moments.old moments.new
        (λ noted. Did R.remaining W.contents M.contents input.old input.new output.old output.new messages.old messages.new result
        (ProgramEnds (record { files = O.asking; store = S.ForkStore; with_journal = J.ForkStore; plain = O.plain; pairs = O.pairs }) (map T.text words.now) openings closed noted)) }
    // So these are promised of each run, over forks alone and with journals: what its lines print is the replies of calls
    // with their promises; a crash at any moment leaves each file with a journal as that recovers it; and two runs on the
    // same print the same.
    ensures headline { RunShows S.ForkStore × RunShows J.ForkStore }
    ensures recovers { RunRecovers S.ForkStore × RunRecovers J.ForkStore }
    // Over any runs, each of which a crash cut off at any time, a start finds what the last call settled whose reply had
    // been written, or what a later one saves. Of a run over files with journals that starts after a crash this rests on
    // the disk alone.
    ensures kept { KeepsSeen S.ForkStore (StartsOn S.ForkStore)
        × KeepsSeen J.ForkStore (StartsOnDisk (record { files = O.asking; store = S.ForkStore; with_journal = J.ForkStore; plain = O.plain; pairs = O.pairs })) }
    ensures exact { RunsAgree S.ForkStore × RunsAgree J.ForkStore }
    // Where something failed, the status says so.
    ensures no_read_failed { result ≢ 1 → input.new.failures ≡ input.old.failures }
    ensures no_write_failed { result ≢ 1 → output.new.failures ≡ output.old.failures }
{
    match asked_by(alloc, words) {
        Ok(asked) => answer(alloc, opener, asked, input, output, messages, moments),
        Err(error) => refuse(alloc, words, &error, output, messages),
    }
}

/// Does what was asked for, and gives the exit status.
fn answer<F: Drop, S: ForkStore, J: ForkStore, O: Opens<F, S, J>, R: Read, W: Write, M: Write>(
    alloc: Global,
    opener: &mut O,
    asked: Asked<'_>,
    input: &mut Counted<R>,
    output: &mut Counted<W>,
    messages: &mut Counted<M>,
    moments: &mut AnyMoments<S, J>,
) -> u8
    ensures ends { (openings : List (Opening F)) × (closed : List (AnyStore S J))
        × (O.openings opener.new ≡ O.openings opener.old ++ openings) × (O.closed opener.new ≡ O.closed opener.old ++ closed)
        × AnyNotes output.old.passed moments.old moments.new
        (λ noted. Did R.remaining W.contents M.contents input.old input.new output.old output.new messages.old messages.new result
        (Answers (record { files = O.asking; store = S.ForkStore; with_journal = J.ForkStore; plain = O.plain; pairs = O.pairs }) asked.entry openings closed noted)) }
    ensures no_read_failed { result ≢ 1 → input.new.failures ≡ input.old.failures }
    ensures no_write_failed { result ≢ 1 → output.new.failures ≡ output.old.failures }
{
    match asked {
        Asked::Run(spec, files) => run_over(
            alloc, opener, spec, &files, input, output, messages, moments,
        ),
        Asked::Help(text) => show_help(alloc, output, &text),
    }
}

/// Runs the script of the input on a new zone and these files, and gives the exit status.
fn run_over<F: Drop, S: ForkStore, J: ForkStore, O: Opens<F, S, J>, R: Read, W: Write, M: Write>(
    alloc: Global,
    opener: &mut O,
    spec: ZoneSpec,
    files: &Files<'_>,
    input: &mut Counted<R>,
    output: &mut Counted<W>,
    messages: &mut Counted<M>,
    moments: &mut AnyMoments<S, J>,
) -> u8
    ensures ends { (openings : List (Opening F)) × (closed : List (AnyStore S J))
        × (O.openings opener.new ≡ O.openings opener.old ++ openings) × (O.closed opener.new ≡ O.closed opener.old ++ closed)
        × AnyNotes output.old.passed moments.old moments.new
        (λ noted. Did R.remaining W.contents M.contents input.old input.new output.old output.new messages.old messages.new result
        (RunEnds (record { files = O.asking; store = S.ForkStore; with_journal = J.ForkStore; plain = O.plain; pairs = O.pairs })
        spec (map (λ name. name.now) files.now.forks.items) (map (λ name. name.now) files.now.journals.items) openings closed noted)) }
    ensures no_read_failed { result ≢ 1 → input.new.failures ≡ input.old.failures }
    ensures no_write_failed { result ≢ 1 → output.new.failures ≡ output.old.failures }
{
    if files.journals().is_empty() {
        return run_alone(alloc, opener, spec, files, input, output, messages, moments);
    }
    run_journalled(alloc, opener, spec, files, input, output, messages, moments)
}

/// Runs the script of the input over these forks alone, and gives the exit status.
fn run_alone<F: Drop, S: ForkStore, J: ForkStore, O: Opens<F, S, J>, R: Read, W: Write, M: Write>(
    alloc: Global,
    opener: &mut O,
    spec: ZoneSpec,
    files: &Files<'_>,
    input: &mut Counted<R>,
    output: &mut Counted<W>,
    messages: &mut Counted<M>,
    moments: &mut AnyMoments<S, J>,
) -> u8
    requires { length files.now.journals.items ≡ 0 }
    ensures ends { (openings : List (Opening F)) × (closed : List (AnyStore S J))
        × (O.openings opener.new ≡ O.openings opener.old ++ openings) × (O.closed opener.new ≡ O.closed opener.old ++ closed)
        × AnyNotes output.old.passed moments.old moments.new
        (λ noted. Did R.remaining W.contents M.contents input.old input.new output.old output.new messages.old messages.new result
        (RunEnds (record { files = O.asking; store = S.ForkStore; with_journal = J.ForkStore; plain = O.plain; pairs = O.pairs })
        spec (map (λ name. name.now) files.now.forks.items) (map (λ name. name.now) files.now.journals.items) openings closed noted)) }
    ensures no_read_failed { result ≢ 1 → input.new.failures ≡ input.old.failures }
    ensures no_write_failed { result ≢ 1 → output.new.failures ≡ output.old.failures }
{
    let stores = match plain_stores(alloc, opener, files.forks()) {
        Ok(stores) => stores,
        Err(fault) => return tell_no_stores(fault, output, messages),
    };
    let (status, left) = run_on(
        alloc,
        spec,
        stores,
        input,
        output,
        messages,
        &mut moments.alone,
    );
    close_alone(opener, left);
    status
}

/// Runs the script of the input over these forks with their journals, and gives the exit status.
fn run_journalled<
    F: Drop,
    S: ForkStore,
    J: ForkStore,
    O: Opens<F, S, J>,
    R: Read,
    W: Write,
    M: Write,
>(
    alloc: Global,
    opener: &mut O,
    spec: ZoneSpec,
    files: &Files<'_>,
    input: &mut Counted<R>,
    output: &mut Counted<W>,
    messages: &mut Counted<M>,
    moments: &mut AnyMoments<S, J>,
) -> u8
    requires { length files.now.journals.items ≢ 0 }
    ensures ends { (openings : List (Opening F)) × (closed : List (AnyStore S J))
        × (O.openings opener.new ≡ O.openings opener.old ++ openings) × (O.closed opener.new ≡ O.closed opener.old ++ closed)
        × AnyNotes output.old.passed moments.old moments.new
        (λ noted. Did R.remaining W.contents M.contents input.old input.new output.old output.new messages.old messages.new result
        (RunEnds (record { files = O.asking; store = S.ForkStore; with_journal = J.ForkStore; plain = O.plain; pairs = O.pairs })
        spec (map (λ name. name.now) files.now.forks.items) (map (λ name. name.now) files.now.journals.items) openings closed noted)) }
    ensures no_read_failed { result ≢ 1 → input.new.failures ≡ input.old.failures }
    ensures no_write_failed { result ≢ 1 → output.new.failures ≡ output.old.failures }
{
    let stores = match journalled_stores(alloc, opener, files.forks(), files.journals()) {
        Ok(stores) => stores,
        Err(fault) => return tell_no_stores(fault, output, messages),
    };
    let (status, left) = run_on(
        alloc,
        spec,
        stores,
        input,
        output,
        messages,
        &mut moments.journalled,
    );
    close_journalled(opener, left);
    status
}

/// Runs the script of the input on a new zone and these stores. It gives the exit status, and the stores as they are
/// then.
fn run_on<S: ForkStore, R: Read, W: Write, M: Write>(
    alloc: Global,
    spec: ZoneSpec,
    stores: Vec<S>,
    input: &mut Counted<R>,
    output: &mut Counted<W>,
    messages: &mut Counted<M>,
    moments: &mut Moments<S>,
) -> (u8, Vec<S>)
    requires { length stores.items ≤ most_files }
    ensures ends { Notes output.old.passed moments.old moments.new
        (λ noted. Did R.remaining W.contents M.contents input.old input.new output.old output.new messages.old messages.new result.0
        (RunsOver S.ForkStore spec stores.items noted result.1.items)) }
    ensures no_read_failed { result.0 ≢ 1 → input.new.failures ≡ input.old.failures }
    ensures no_write_failed { result.0 ≢ 1 → output.new.failures ≡ output.old.failures }
{
    let (end, stores) = run(alloc, input, output, moments, spec, stores);
    tell_wrong(alloc, end, messages);
    (status(end), stores)
}

/// Writes what is wrong with the first line that is none, where that ended a run.
fn tell_wrong<M: Write>(alloc: Global, end: RunEnd, messages: &mut Counted<M>)
    ensures { (said : List ℕ) × Took M.contents messages.old said messages.new
        × SaysWhy end (messages.new ≡ messages.old) (RoseByOne messages.old.failures messages.new.failures) said }
{
    if let RunEnd::ScriptFault(line, wrong) = end {
        tell(alloc, &WrongLine { line, wrong }, messages);
    }
}

/// Says why there are no stores, and gives the exit status.
fn tell_no_stores<W: Write, M: Write>(
    fault: NoStores<'_>,
    output: &mut Counted<W>,
    messages: &mut Counted<M>,
) -> u8
    ensures ends { Tells W.contents M.contents output.old output.new messages.old messages.new result (NoStoresEnd fault.entry) }
    ensures failed { result ≡ 1 }
{
    match fault {
        NoStores::HostFull => status(tell_no_memory(output)),
        NoStores::CannotOpen(path, refusal) => {
            tell_unopened(path, refusal.why, messages);
            CANNOT_OPEN
        }
    }
}

/// Writes which file can't be opened, and why.
fn tell_unopened<M: Write>(path: &str, why: NotOpened, messages: &mut Counted<M>)
    ensures { (said : List ℕ) × Took M.contents messages.old said messages.new
        × Wrote (cannot_open_text path.now why) (RoseByOne messages.old.failures messages.new.failures) said }
{
    if !write_whole(messages, b"cannot open ") {
        return;
    }
    if !write_name(path, messages) {
        return;
    }
    let _ = write_whole(messages, why.reason());
}

/// Says why the words ask for nothing, and gives the exit status.
fn refuse<T: AsStr, W: Write, M: Write>(
    alloc: Global,
    words: &[T],
    error: &NotAsked,
    output: &mut Counted<W>,
    messages: &mut Counted<M>,
) -> u8
    ensures ends { Tells W.contents M.contents output.old output.new messages.old messages.new result (Refuses error.now) }
    ensures no_write_failed { result ≢ 1 → output.new.failures ≡ output.old.failures }
{
    if lacks_memory(error) {
        return status(tell_no_memory(output));
    }
    tell_bad_words(alloc, words, error, messages);
    BAD_WORDS
}

/// Whether the words ask for nothing since the host has no memory for them.
fn lacks_memory(error: &NotAsked) -> bool
    ensures { result ≡ lacks_memory error.now }
{
    match error {
        NotAsked::HostFull => true,
        _ => false,
    }
}

/// Writes why these words ask for nothing. No line of the message ends within a word.
fn tell_bad_words<T: AsStr, M: Write>(
    alloc: Global,
    words: &[T],
    error: &NotAsked,
    messages: &mut Counted<M>,
)
    ensures { (text : List ℕ) × (text ≢ []) × (said : List ℕ) × Took M.contents messages.old said messages.new
        × Wrote text (RoseByOne messages.old.failures messages.new.failures) said }
{
    if let NotAsked::Words(_) = error
        && let Ok(shown) = in_lines(alloc, words)
        && let Err(NotAsked::Words(shown_error)) = asked_by(alloc, shown.as_slice())
    {
        tell(alloc, &shown_error, messages);
        return;
    }
    tell(alloc, error, messages);
}

/// What is wrong with the words or a line. It may have in it what others wrote.
fn text_of<E: Display>(alloc: Global, error: &E) -> Result<String, AllocError> {
    let text = format!(in alloc; "{error}")?;
    let lines = Lines(text.as_str());
    format!(in alloc; "{lines}")
}

/// Writes what is wrong with the words or a line.
fn tell<E: Display, M: Write>(alloc: Global, error: &E, messages: &mut Counted<M>)
    ensures { (text : List ℕ) × (text ≢ []) × (said : List ℕ) × Took M.contents messages.old said messages.new
        × Wrote text (RoseByOne messages.old.failures messages.new.failures) said }
{
    let Ok(text) = text_of(alloc, error) else {
        let _ = write_whole(messages, b"error: the words or a line are bad\n");
        return;
    };
    if !write_whole(messages, text.as_bytes()) {
        return;
    }
    let _ = write_whole(messages, b"\n");
}

/// What is written before a text that was asked for.
fn opening_of(text: &clap::Error) -> &'static [u8]
    ensures { result.now ≡ opening_of (kind_of text.now) }
{
    match text.kind() {
        ErrorKind::DisplayVersion => b"",
        _ => ABOUT,
    }
}

/// Writes the help or the version, and gives the exit status.
fn show_help<W: Write>(alloc: Global, output: &mut Counted<W>, text: &clap::Error) -> u8
    ensures ends { (written : List ℕ) × Took W.contents output.old written output.new
        × HelpEnds (kind_of text.now) (RoseByOne output.old.failures output.new.failures) result written }
    ensures no_write_failed { result ≢ 1 → output.new.failures ≡ output.old.failures }
{
    let opening = opening_of(text);
    let Ok(text) = format!(in alloc; "{text}") else {
        return status(tell_no_memory(output));
    };
    if !write_whole(output, opening) {
        return status(RunEnd::WriteFault);
    }
    if !write_whole(output, text.as_bytes()) {
        return status(RunEnd::WriteFault);
    }
    0
}
