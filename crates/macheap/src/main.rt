//! Runs a script of calls on a heap zone: `macheap [--zone N] [--limit N] [--base N] [--mode 24|32] [--fork FILE]..
//! [--journal FILE].. < script`; or shows a zone that anyone made: `macheap --look FILE`.
#![tactic(auto)]

mod asked;
mod files;
mod moments;
mod name;
mod program;

use fork_disk::store::PlainStore;
use fork_disk::{Unknown, World};
use fork_journal::{FilePair, Journal, PairWorld, UnknownPair};
use moments::AnyMoments;
use program::{BAD_WORDS, program};
use run_stores::{Disk, HostDisks};
use script_run::{Counted, status, tell_no_memory};
use std::io::ErrorKind;
use std::process::ExitCode;
use std::{env, io};
use zone_view::{Acts, asks_for_look, looked};

fn main(rt: HostRuntime) -> ExitCode {
    run_on_host::<Unknown, UnknownPair>(&rt)
}

/// Does what the command line asks for, with the host's files and standard streams.
fn run_on_host<W: World, V: PairWorld>(rt: &HostRuntime) -> ExitCode {
    let alloc = rt.alloc();
    let words = match env::args(rt) {
        Ok(words) => words,
        Err(error) => return no_words(rt, &error),
    };
    let Ok(words) = words.collect::<Vec<String>>(alloc) else {
        return no_memory(rt);
    };
    let words = words.as_slice();
    if asks_for_look(words) {
        let mut acts = Acts::new();
        return ExitCode::from(looked(rt, words, &mut rt.stdout(), &mut rt.stderr(), &mut acts));
    }
    let mut input = Counted::new(rt.stdin());
    let mut output = Counted::new(rt.stdout());
    let mut messages = Counted::new(rt.stderr());
    let mut opener: HostDisks<'_, PlainStore<Disk<W>>, Journal<FilePair<V>>> = HostDisks::new(
        rt, 0,
    );
    ExitCode::from(program(
        alloc,
        words,
        &mut opener,
        &mut input,
        &mut output,
        &mut messages,
        &mut AnyMoments::new(),
    ))
}

/// Ends a program whose words can't be read: they are no text, or the host has no memory for them.
fn no_words(rt: &HostRuntime, error: &io::Error) -> ExitCode {
    if error.kind() == ErrorKind::OutOfMemory {
        return no_memory(rt);
    }
    let _ = rt.eprintln(
        "error: a word of the command line is no UTF-8 text; write the options in plain ASCII",
    );
    ExitCode::from(BAD_WORDS)
}

/// Ends a program that has no memory for the words of the command line.
fn no_memory(rt: &HostRuntime) -> ExitCode {
    let mut output = Counted::new(rt.stdout());
    ExitCode::from(status(tell_no_memory(&mut output)))
}
